//! Code that is generic over a domain, proved from the clauses of the trait alone.
ghost use Rattle.std.specs.Prelude.{◌≡◌, ℕ, ◌+◌, ◌*◌, ◌%◌, ◌^◌, List, IfOk, map};
ghost use Rattle.bits_core.specs.declared.points.Point.{Point};
ghost use Rattle.value_domain.specs.Cells.{HasWidth, HaveWidth, StandForAll};
ghost use Rattle.value_domain.specs.Extends.{Extends};

use bits_core::{Bits, Op};
use std::alloc::AllocError;
use value_domain::Domain;

/// A number of eight bits.
pub const fn byte(value: u8) -> Bits
    ensures width { result.width ≡ 8 }
    ensures value { result.value ≡ value }
{
    Bits {
        width: 8,
        value: value as u128,
    }
}

/// The square of a byte, and one more.
pub fn square_and_one<D: Domain>(domain: &mut D, x: &D::Val) -> Result<D::Val, AllocError>
    requires cell { HasWidth (D.meaning domain.old) x.now 8 }
    ensures cell { IfOk result (λ v. HasWidth (D.meaning domain.new) v 8) }
    ensures value { IfOk result (λ v. (p : Point) (n : ℕ) → (D.meaning domain.old).speaks_of p
        → (D.meaning domain.old).stands x.now p n
        → (D.meaning domain.new).stands v p ((n * n % 2 ^ 8 + 1) % 2 ^ 8)) }
    ensures extends { Extends (D.meaning domain.old) (D.meaning domain.new) }
{
    let square = domain.binary(Op::Mul, x, x)?;
    let one = domain.constant(byte(1))?;
    domain.binary(Op::Add, &square, &one)
}

/// Each byte in turn is replaced by its square and one more.
pub fn square_all<D: Domain>(domain: &mut D, cells: &mut [D::Val]) -> Result<(), AllocError>
    requires cells { HaveWidth (D.meaning domain.old) cells.old 8 }
    ensures cells { IfOk result (λ _. HaveWidth (D.meaning domain.new) cells.new 8) }
    ensures values { IfOk result (λ _. (p : Point) (numbers : List ℕ)
        → (D.meaning domain.old).speaks_of p
        → StandForAll (D.meaning domain.old) cells.old p numbers
        → StandForAll (D.meaning domain.new) cells.new p
        (map (λ n. (n * n % 2 ^ 8 + 1) % 2 ^ 8) numbers)) }
{
    for i in 0..cells.len() {
        cells[i] = square_and_one(domain, &cells[i])?;
    }
    Ok(())
}
