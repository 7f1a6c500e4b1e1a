//! The two operands of an operator, and what their places want of each.
ghost use Rattle.std.specs.Prelude.{◌≡◌, IfOk, option_map};
ghost use Rattle.p4_rules.specs.Scopes.{Scope as RulesScope};
ghost use Rattle.p4_rules.specs.Casts.{as_bits as bits_by_rules};
ghost use Rattle.p4_rules.specs.Operators.{each as each_by_rules, with_bits as with_bits_by_rules};
ghost use Rattle.p4_consts.specs.Noted.{noted, right_of};
ghost use Rattle.p4_consts.specs.Operands.{operand_of, placed_of};
ghost use Rattle.p4_consts.specs.Pairs.{pair_of, integers_of, fits_of, whole_numbers as whole_numbers_by_rules};

use crate::casts::as_bits;
use crate::faults::Faults;
use crate::integer::Integer;
use crate::operands::{Operand, Placed};
use crate::wanted::{Wanted, is_boolean, is_comparable, is_integer, is_number, is_of_bits};
use p4_rules::Pass;
use std::alloc::{AllocError, Global};
use tg_base::{Code, Span};

/// Two operands, and the first token of the expression that they make.
#[derive(Drop)]
pub struct Pair {
    pub left: Placed,
    pub right: Placed,
    pub place: Span,
}

/// Whether an operand is what its place wants.
fn fits(wanted: Wanted, operand: &Operand) -> bool
    ensures { result ≡ fits_of wanted (operand_of operand.now) }
{
    match wanted {
        Wanted::Number => is_number(operand),
        Wanted::Integer => is_integer(operand),
        Wanted::Bits => is_of_bits(operand),
        Wanted::Boolean => is_boolean(operand),
        Wanted::Comparable => is_comparable(operand),
    }
}

/// The pair where each operand alone is what its place wants. Else one is refused, the left one first.
pub fn each(faults: &mut Faults, wanted: Wanted, pair: Pair) -> Option<Pair>
    ensures value { option_map pair_of result
        ≡ right_of (each_by_rules (fits_of wanted) (pair_of pair)) }
    ensures faults { faults.new.first
        ≡ noted faults.old.first (each_by_rules (fits_of wanted) (pair_of pair)) }
{
    let (left, right) = (pair.left.place, pair.right.place);
    if !fits(wanted, &pair.left.operand) {
        drop(pair);
        faults.note(Pass::Checking, Code::Typing, left);
        return None;
    }
    if !fits(wanted, &pair.right.operand) {
        drop(pair);
        faults.note(Pass::Checking, Code::Typing, right);
        return None;
    }
    Some(pair)
}

/// The pair with enumerations over bits cast to these.
pub fn with_bits(alloc: Global, pair: Pair) -> Result<Pair, AllocError>
    ensures { (Γ : RulesScope) → IfOk result (λ p. pair_of p
        ≡ with_bits_by_rules Γ (pair_of pair)) }
{
    let Pair { left, right, place } = pair;
    Ok(Pair {
        left: placed_bits(alloc, left)?,
        right: placed_bits(alloc, right)?,
        place,
    })
}

/// The operand with an enumeration over bits cast to these.
fn placed_bits(alloc: Global, placed: Placed) -> Result<Placed, AllocError>
    ensures { (Γ : RulesScope) → IfOk result (λ p. placed_of p
        ≡ record { operand = bits_by_rules Γ (operand_of placed.operand); place = placed.place }) }
{
    let Placed { operand, place } = placed;
    Ok(Placed {
        operand: as_bits(alloc, operand)?,
        place,
    })
}

/// The numbers of two compile-time integers.
pub fn whole_numbers(one: &Operand, other: &Operand) -> Option<(Integer, Integer)>
    ensures { option_map integers_of result
        ≡ whole_numbers_by_rules (operand_of one.now) (operand_of other.now) }
{
    match one {
        Operand::Whole(a) => match other {
            Operand::Whole(b) => Some((*a, *b)),
            Operand::Fixed(_) => None,
            Operand::Stored(_, _, _, _) => None,
            Operand::Sliced(_, _, _, _) => None,
            Operand::Computed(_, _, _) => None,
        },
        Operand::Fixed(_) => None,
        Operand::Stored(_, _, _, _) => None,
        Operand::Sliced(_, _, _, _) => None,
        Operand::Computed(_, _, _) => None,
    }
}
