//! Drawn clauses: literals are decided, clauses added and literals taken back in any order, and propagation goes on as
//! propagation by passes from nothing does.

use super::trial::Trial;
use cnf_core::{Clause, Lit};
use sqlite_items::Items;
use std::alloc::{AllocError, Global};
use std::test::Fail;

const VARIABLES: u32 = 8;

const SETS: u32 = 300;

const STEPS: u32 = 60;

/// Numbers that look drawn, by Marsaglia's xorshift.
#[derive(Drop)]
struct Draw {
    state: u32,
}

impl Draw {
    fn next(&mut self) -> u32 {
        self.state ^= self.state << 13;
        self.state ^= self.state >> 17;
        self.state ^= self.state << 5;
        self.state
    }

    fn literal(&mut self) -> Lit {
        Lit {
            var: (self.next() >> 3) % VARIABLES,
            positive: (self.next() >> 3) % 2 == 0,
        }
    }

    /// Two to four literals, or now and then one; some stand twice or with their negation.
    fn clause(&mut self, alloc: Global) -> Result<Clause, AllocError> {
        let mut clause = Items::new(alloc);
        let count = match (self.next() >> 3) % 16 {
            0 => 1,
            n => 2 + n % 3,
        };
        for _ in 0..count {
            clause.push(self.literal())?;
        }
        Ok(clause)
    }

    fn place(&mut self, count: usize) -> usize {
        match (self.next() as usize).checked_rem(count) {
            Some(place) => place,
            None => 0,
        }
    }
}

/// Decides, adds or takes back.
fn step(trial: &mut Trial, draw: &mut Draw) -> Result<(), Fail> {
    match (draw.next() >> 3) % 8 {
        0..=3 => {
            trial.decide(draw.literal());
        }
        4 | 5 => {
            let place = draw.place(trial.count());
            trial.undo_to(place);
        }
        6 => {
            let clause = draw.clause(trial.alloc())?;
            trial.add(clause)?;
        }
        _ => (),
    }
    Ok(())
}

/// Some clauses over all variables.
fn drawn(alloc: Global, draw: &mut Draw) -> Result<Trial, Fail> {
    let mut trial = Trial::new(alloc);
    trial.grow(VARIABLES as usize)?;
    for _ in 0..8 {
        let clause = draw.clause(alloc)?;
        trial.add(clause)?;
    }
    Ok(trial)
}

#[test]
fn goes_on_as_from_nothing(rt: HostRuntime) -> Result<(), Fail> {
    let mut draw = Draw { state: 2463534242 };
    let mut conflicts = 0u64;
    let mut ends = 0u64;
    for set in 0..SETS {
        let mut trial = drawn(rt.alloc(), &mut draw)?;
        for number in 0..STEPS {
            step(&mut trial, &mut draw)?;
            if (draw.next() >> 3) % 4 == 0 {
                continue;
            }
            match trial.compare()? {
                Some(true) => conflicts = conflicts.saturating_add(1),
                Some(false) => ends = ends.saturating_add(1),
                None => assert!(rt; false, "set {set}, step {number}"),
            }
        }
        assert!(rt; trial.has_its_clauses(), "set {set}");
    }
    assert!(rt;
        conflicts > 1000 && ends > 1000,
        "{conflicts} conflicts, {ends} ends"
    );
    Ok(())
}
