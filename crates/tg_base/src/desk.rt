//! The outside: the trait through which the generator reads sources and writes its outputs.
ghost use Rattle.std.specs.Prelude.{◌≡◌, ◌≢◌, Bool, ◌∷◌, ◌++◌, [], ◌||◌, ◌<◌, ◌≤◌, length, take, drop, is_ok, nat_lt, false, IsTrue, OnOk, OnErr, IfOk, MatchResult, if◌then◌else◌};
ghost use Rattle.tg_base.specs.Answer.{wants_memory};
ghost use Rattle.tg_base.specs.Faults.{HasCause};
ghost use Rattle.tg_base.specs.Moment.{Moment, TellsTruly, KeepsReading, KeepsWriting, just_opened, after_read, output_after};
ghost use Rattle.tg_base.specs.declared.desk.DeskFault.TheVariants.{Memory};
ghost use Rattle.tg_base.specs.declared.desk.Out.{Out};

use std::alloc::AllocError;
use thiserror::Error;

/// Where a piece of text goes.
#[derive(Clone, Copy, Debug, PartialEq, Eq, PartialOrd, Ord, Hash)]
pub enum Out {
    /// The verdicts.
    Report,
    /// The log of derivations.
    Proofs,
    /// The test of this number, from 1.
    Test(u32),
    /// What a person is told of a refusal or a fault.
    Notes,
}

/// Why a call of a desk did not do its work.
#[derive(Clone, Copy, Debug, PartialEq, Eq, Drop, Error)]
pub enum DeskFault {
    /// The outside failed, and the desk has counted it.
    #[error("the desk failed")]
    Failed,
    /// Memory ran out.
    #[error("out of memory")]
    Memory,
}

impl From<AllocError> for DeskFault {
    ghost from_gives = { λ _ fault. fault ≡ Memory };

    fn from(_error: AllocError) -> DeskFault {
        DeskFault::Memory
    }
}

/// Named files to read and outputs to write.
///
/// What a desk is at a moment is its `moment`. What passes through a desk is always told: the names asked for, the
/// files that were opened with the bytes that were moved out of them, and the bytes that each output has taken. What
/// its files and its outputs hold may stay untold, as a desk over real files does. Its two counts of faults are those
/// of a `u64`: one that stands at its end counts as one that rose.
pub trait Desk {
    ghost moment: { Self → Moment };

    /// Opens the file of a name at its start.
    fn open(&mut self, name: &str) -> Result<(), DeskFault>
        ensures opened { OnOk result
            ((moment self.new).opened ≡ (moment self.old).opened ++ just_opened name.now ∷ []) }
        ensures readable { (moment self.new).readable
            ≡ (is_ok result || (moment self.old).readable) }
        ensures asked { (moment self.new).asked
            ≡ (if wants_memory result then (moment self.old).asked
            else (moment self.old).asked ++ name.now ∷ []) }
        ensures faults { HasCause (moment self.old).read_faults
            (moment self.new).read_faults result }

        // What stays.
        ensures opened_stays { OnErr result ((moment self.new).opened ≡ (moment self.old).opened) }
        ensures stays { KeepsWriting (moment self.old) (moment self.new) };

    /// Moves the next bytes of the open file to the front of the slice, and answers how many.
    fn read(&mut self, into: &mut [u8]) -> Result<usize, DeskFault>
        requires readable { IsTrue (moment self.old).readable }
        requires room { 0 < length into.old }
        ensures within { IfOk result (λ count. count ≤ length into.old) }
        // Nothing is moved only at the end.
        ensures moved { IfOk result (λ count. (moment self.new).opened
            ≡ after_read (moment self.old).opened (take count into.new)) }
        ensures behind { IfOk result (λ count. drop count into.new ≡ drop count into.old) }
        // The end and any fault make the desk unreadable.
        ensures readable { MatchResult result (λ count. (moment self.new).readable ≡ nat_lt 0 count)
            (λ _. (moment self.new).readable ≡ false) }
        ensures faults { HasCause (moment self.old).read_faults
            (moment self.new).read_faults result }

        // What stays.
        ensures opened_stays { OnErr result ((moment self.new).opened ≡ (moment self.old).opened) }
        ensures into_stays { OnErr result (into.new ≡ into.old) }
        ensures asked_stays { (moment self.new).asked ≡ (moment self.old).asked }
        ensures stays { KeepsWriting (moment self.old) (moment self.new) };

    /// Appends the first bytes of the piece to an output, and answers how many: at least one, or
    /// it fails.
    fn write(&mut self, out: Out, piece: &[u8]) -> Result<usize, DeskFault>
        requires { 0 < length piece.now }
        ensures some { IfOk result (λ count. (0 < count) × (count ≤ length piece.now)) }
        ensures taken { IfOk result (λ count. (moment self.new).outputs out
            ≡ output_after ((moment self.old).outputs out) (take count piece.now)) }
        ensures faults { HasCause (moment self.old).write_faults
            (moment self.new).write_faults result }

        // What stays.
        ensures out_stays { OnErr result
            ((moment self.new).outputs out ≡ (moment self.old).outputs out) }
        ensures others_stay { (other : Out) → other ≢ out
            → (moment self.new).outputs other ≡ (moment self.old).outputs other }
        ensures stays { KeepsReading (moment self.old) (moment self.new) };

    /// Where the desk tells its files, what was moved out of one is what it begins with.
    ghost tells_truly: { (desk : Self) → TellsTruly (moment desk) };
}
