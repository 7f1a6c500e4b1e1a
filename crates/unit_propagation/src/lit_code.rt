//! A literal in four bytes.

ghost use Rattle.std.specs.Prelude.{◌≡◌, ◌==◌, ◌≤◌, ◌^◌, IfOk, IfSome, IfNone};
ghost use Rattle.std.proofs.Common.{rules};
ghost use Rattle.std.specs.Ordering.{on, eq_of_both};
ghost use Rattle.std.specs.Cmp.Rules.{comparing};
ghost use Rattle.std.proofs.Math.Bool.{beq};
ghost use Rattle.unit_propagation.specs.LitCodes.{code_of};

use cnf_core::Lit;
use std::alloc::{AllocError, Global};
use std::marker::Model;

/// Variables of codes are below it.
const VARIABLES: u32 = 1 << 31;

/// A literal as one number: twice its variable, and one more where it is positive. Contracts see the literal.
#[derive(Clone, Copy, Debug, Default)]
pub struct LitCode {
    number: u32,
}

impl Model for LitCode {
    ghost use Rattle.cnf_core.specs.declared.formula.Lit.{Lit as Literal};
    ghost use Rattle.unit_propagation.specs.LitCodes.{code_of, lit_of};
    ghost use Rattle.std.specs.Prelude.{◌≡◌};
    ghost use Rattle.std.proofs.Common.{arith};
    ghost use Rattle.std.proofs.Math.Nat.{div-add-mod};

    ghost Value = { Literal };

    ghost view = { λ c. lit_of c.number };

    ghost inverse = { λ l. record { number = code_of l } };

    ghost inverse_ok = { λ c h i.
        let e : code_of (lit_of c.number) ≡ c.number = Prim.grind (arith, div-add-mod c.number 2)
        in record { number = e i } };
}

impl PartialEq for LitCode {
    ghost eq = { eq_of_both (on (λ l. l.var) ◌==◌) (on (λ l. l.positive) beq) };

    ghost laws = { Prim.search (comparing, rules) };

    fn eq(&self, other: &LitCode) -> bool {
        self.number == other.number
    }
}

impl LitCode {
    /// The code of the literal, where its variable has one.
    pub fn of(l: Lit) -> Option<LitCode>
        ensures is { IfSome result (λ code. code ≡ l) }
        ensures none { IfNone result (2 ^ 31 ≤ l.var) }
    {
        if VARIABLES <= l.var {
            return None;
        }
        let number = if l.positive { 2 * l.var + 1 } else { 2 * l.var };
        Some(LitCode { number })
    }

    /// The literal.
    pub fn lit(self) -> Lit
        ensures { result ≡ self }
    {
        Lit {
            var: self.number / 2,
            positive: self.number % 2 == 1,
        }
    }

    /// The place of what a table has for the literal.
    pub fn place(self) -> usize
        ensures { result ≡ code_of self }
    {
        self.number as usize
    }
}

/// The codes of the literals. A variable that has none counts as want of memory.
pub fn codes(alloc: Global, lits: &[Lit]) -> Result<Vec<LitCode>, AllocError>
    ensures { IfOk result (λ codes. codes.items ≡ lits.now) }
{
    let mut codes = Vec::with_capacity(alloc, lits.len())?;
    for l in lits {
        match LitCode::of(*l) {
            Some(code) => codes.push(code)?,
            None => return Err(AllocError),
        }
    }
    Ok(codes)
}
