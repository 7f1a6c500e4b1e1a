//! The bounds under which a program is tested.
ghost use Rattle.std.specs.Prelude.{◌≤◌};
ghost use Rattle.p4_program.specs.declared.bounds.TheConstants.{MAX_BYTES, MAX_STEPS, MAX_ENTRIES, MAX_BUDGET};

use std::default::Default;

/// The most bytes that `bytes` may allow.
pub const MAX_BYTES: u16 = 512;

/// The most steps that `steps` may allow.
pub const MAX_STEPS: u16 = 32;

/// The most entries that `entries` may allow.
pub const MAX_ENTRIES: u8 = 4;

/// The greatest budget.
pub const MAX_BUDGET: u32 = 10_000;

/// The bounds of a job. Each range is that of the option of its name.
#[derive(Clone, Copy, Debug, PartialEq, Eq)]
pub struct Bounds {
    /// The most bytes of a packet.
    pub bytes: u16,
    /// The most parser states that a run enters.
    pub steps: u16,
    /// The most entries of a table.
    pub entries: u8,
    /// How many units a statement's search, or the masks of a test, may spend.
    pub budget: u32,
    ghost some_bytes: { 1 ≤ bytes },
    ghost most_bytes: { bytes ≤ MAX_BYTES },
    ghost some_steps: { 1 ≤ steps },
    ghost most_steps: { steps ≤ MAX_STEPS },
    ghost most_entries: { entries ≤ MAX_ENTRIES },
    ghost some_budget: { 1 ≤ budget },
    ghost most_budget: { budget ≤ MAX_BUDGET },
}

impl Default for Bounds {
    ghost use Rattle.p4_program.specs.Bounds.{IsDefault};

    ghost is_default = { IsDefault };

    /// The bounds where no option stands.
    fn default() -> Self {
        Bounds {
            bytes: 128,
            steps: 12,
            entries: 1,
            budget: 2_000,
        }
    }
}
