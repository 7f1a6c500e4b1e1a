//! Literals as signed numbers, `-2` where variable 2 is false; clauses as sets of bits; and, to compare with, truth by
//! each valuation and propagation by passes over all clauses.

use cnf_core::{Clauses, Lit};
use sqlite_items::Items;
use std::alloc::{AllocError, Global};
use unit_propagation::LitCode;

/// More than any variable of a test.
pub const VARIABLES: u32 = 32;

pub fn literal(number: i32) -> Lit {
    Lit {
        var: number.unsigned_abs(),
        positive: number > 0,
    }
}

pub fn literals(alloc: Global, numbers: &[i32]) -> Result<Items<Lit>, AllocError> {
    let mut lits = Items::new(alloc);
    for number in numbers {
        lits.push(literal(*number))?;
    }
    Ok(lits)
}

pub fn formula(alloc: Global, clauses: &[&[i32]]) -> Result<Clauses, AllocError> {
    let mut formula = Items::new(alloc);
    for clause in clauses {
        formula.push(literals(alloc, clause)?)?;
    }
    Ok(formula)
}

/// A set of literals: the bits of the variables that stand in it, and of those whose negation does.
#[derive(Clone, Copy, Debug, PartialEq, Eq)]
pub struct Set {
    positive: u32,
    negative: u32,
}

impl Set {
    pub const EMPTY: Set = Set {
        positive: 0,
        negative: 0,
    };

    pub fn of(numbers: &[i32]) -> Set {
        let mut set = Set::EMPTY;
        for number in numbers {
            set = set.with(literal(*number));
        }
        set
    }

    pub fn of_literals(lits: &[Lit]) -> Set {
        let mut set = Set::EMPTY;
        for l in lits {
            set = set.with(*l);
        }
        set
    }

    pub fn of_codes(codes: &[LitCode]) -> Set {
        let mut set = Set::EMPTY;
        for code in codes {
            set = set.with(code.lit());
        }
        set
    }

    pub fn with(self, l: Lit) -> Set {
        let bit = 1u32.wrapping_shl(l.var);
        if l.positive {
            Set {
                positive: self.positive | bit,
                negative: self.negative,
            }
        } else {
            Set {
                positive: self.positive,
                negative: self.negative | bit,
            }
        }
    }

    pub fn joined(self, other: Set) -> Set {
        Set {
            positive: self.positive | other.positive,
            negative: self.negative | other.negative,
        }
    }

    pub fn without(self, other: Set) -> Set {
        Set {
            positive: self.positive & !other.positive,
            negative: self.negative & !other.negative,
        }
    }

    /// The negations of the literals.
    pub fn negated(self) -> Set {
        Set {
            positive: self.negative,
            negative: self.positive,
        }
    }

    pub fn meets(self, other: Set) -> bool {
        self.positive & other.positive != 0 || self.negative & other.negative != 0
    }

    fn is_one(self) -> bool {
        self.positive.count_ones() as u64 + self.negative.count_ones() as u64 == 1
    }
}

/// The valuations of three variables under which the clause is true, as the bits of their numbers.
pub fn truths(clause: Set) -> u8 {
    let mut truths = 0;
    for valuation in 0..8u32 {
        let variables = valuation << 1;
        if clause.positive & variables != 0 || clause.negative & !variables != 0 {
            truths |= 1u8.wrapping_shl(valuation);
        }
    }
    truths
}

/// What propagation sets after some literals, and whether it then conflicts.
#[derive(Clone, Copy, Debug)]
pub struct Propagated {
    pub set: Set,
    pub conflicts: bool,
}

/// Propagation after the decided literals, by passes over the clauses; the numbers of those that it uses, from 1 and in
/// order, come to the hints.
pub fn propagate(
    clauses: &[Set],
    decided: Set,
    hints: &mut Vec<u32>,
) -> Result<Propagated, AllocError> {
    let mut set = decided;
    // Each pass but the last sets a variable.
    for _ in 0..VARIABLES {
        let before = set;
        for (clause, number) in clauses.iter().zip(1..1000) {
            let open = clause.without(set.negated());
            if open == Set::EMPTY {
                hints.push(number)?;
                return Ok(Propagated {
                    set,
                    conflicts: true,
                });
            }
            if open.is_one() && !open.meets(set) {
                set = set.joined(open);
                hints.push(number)?;
            }
        }
        if set == before {
            break;
        }
    }
    Ok(Propagated {
        set,
        conflicts: false,
    })
}
