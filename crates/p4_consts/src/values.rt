//! The values of what is judged.
ghost use Rattle.std.specs.Prelude.{◌≡◌, option_map};
ghost use Rattle.p4_rules.specs.Faults.{told};
ghost use Rattle.p4_rules.specs.Things.{value_of as value_by_rules};
ghost use Rattle.p4_consts.specs.Noted.{noted, right_of};
ghost use Rattle.p4_consts.specs.Operands.{placed_of};
ghost use Rattle.p4_consts.specs.Things.{judged_of, thing_of, told_value, code_of_misfit};

use crate::faults::Faults;
use crate::operands::Placed;
use crate::things::{Judged, Thing};
use p4_rules::{Fault, Pass};
use tg_base::Code;

/// The value of what is judged, where it is one.
pub fn value_of(faults: &mut Faults, judged: Judged) -> Option<Placed>
    ensures value { option_map placed_of result ≡ right_of (value_by_rules (judged_of judged)) }
    ensures faults { faults.new.first
        ≡ noted faults.old.first (value_by_rules (judged_of judged)) }
{
    let Judged { thing, place } = judged;
    match thing {
        Thing::Value(operand) => Some(Placed { operand, place }),
        other => {
            let code = misfit_code(&other);
            drop(other);
            faults.note(Pass::Checking, code, place);
            None
        }
    }
}

/// The value of what is judged, or why it has none.
pub(crate) fn told_of(judged: Judged) -> Result<Placed, Fault>
    ensures { told_value result ≡ told (value_by_rules (judged_of judged)) }
{
    let Judged { thing, place } = judged;
    match thing {
        Thing::Value(operand) => Ok(Placed { operand, place }),
        other => {
            let code = misfit_code(&other);
            drop(other);
            Err(Fault {
                pass: Pass::Checking,
                code,
                place,
            })
        }
    }
}

/// The code of what stands where it cannot: a list is left out, and anything else has no type that fits.
pub(crate) fn misfit_code(thing: &Thing) -> Code
    ensures { result ≡ code_of_misfit (thing_of thing.now) }
{
    match thing {
        Thing::Braced(_) => Code::Unsupported,
        _ => Code::Typing,
    }
}
