//! `&&` and `||` (P4-16, "Expressions on Booleans").
ghost use Rattle.std.specs.Prelude.{◌≡◌, IfOk, OnOk, option_map};
ghost use Rattle.p4_rules.specs.declared.faults.Pass.{Pass as APass};
ghost use Rattle.p4_rules.specs.Operators.{logic as logic_by_rules};
ghost use Rattle.p4_consts.specs.Noted.{noted, right_of};
ghost use Rattle.p4_consts.specs.Operands.{operand_of};
ghost use Rattle.p4_consts.specs.Pairs.{pair_of};
ghost use Rattle.p4_consts.specs.Scopes.{scope_in};

use crate::applying::applied_with;
use crate::faults::Faults;
use crate::folding::core_operator;
use crate::operands::Operand;
use crate::pairs::{Pair, each};
use crate::scopes::Scope;
use crate::wanted::Wanted;
use p4_rules::SourceType;
use p4_tree::Operator;
use std::alloc::{AllocError, Global};

/// An operator on two values of `bool`.
pub fn logic(
    alloc: Global,
    scope: &Scope,
    faults: &mut Faults,
    goes_on: bool,
    sign: Operator,
    pair: Pair,
) -> Result<Option<Operand>, AllocError>
    ensures value { (pass : APass) → IfOk result (λ o. option_map operand_of o ≡ right_of
        (logic_by_rules (scope_in pass scope.now) goes_on sign (pair_of pair))) }
    ensures faults { (pass : APass) → OnOk result (faults.new.first ≡ noted faults.old.first
        (logic_by_rules (scope_in pass scope.now) goes_on sign (pair_of pair))) }
{
    match each(faults, Wanted::Boolean, pair) {
        Some(both) => {
            let Pair { left, right, place } = both;
            let (one, other) = (left.operand, right.operand);
            let (t, o) = (SourceType::Boolean, core_operator(sign, false));
            applied_with(alloc, scope, faults, goes_on, t, o, place, one, other)
        }
        None => Ok(None),
    }
}
