//! Copies of hints, and of literals as their negations.

ghost use Rattle.std.specs.Prelude.{◌≡◌, IfOk, map};
ghost use Rattle.cnf_core.specs.Literal.{negation};

use cnf_core::{Clause, Cube, Hints};
use sqlite_items::Items;
use std::alloc::{AllocError, Global};

pub fn copy_hints(alloc: Global, hints: &Hints) -> Result<Hints, AllocError>
    ensures { IfOk result (λ copied. copied ≡ hints.now) }
{
    Items::from_slice(alloc, hints.as_slice())
}

/// The clause of the negations of the cube's literals, as which it counts.
pub fn negations(alloc: Global, cube: &Cube) -> Result<Clause, AllocError>
    ensures { IfOk result (λ clause. clause ≡ map negation cube.now) }
{
    let mut clause = Vec::with_capacity(alloc, cube.len())?;
    for l in cube.as_slice() {
        clause.push(!*l)?;
    }
    Ok(Items::from_vec(clause))
}
