//! How the process ends: with a status that the generator answered.
ghost use Rattle.std.specs.Prelude.{◌≡◌};
ghost use Rattle.std.specs.Process.{exit_status};
ghost use Rattle.testgen_program.specs.Answer.{Answers};

use std::process::{ExitCode, Termination};

/// The status of the process, with the proof that the generator may have answered it.
#[derive(Drop)]
pub(crate) struct Ended {
    pub status: u8,
    pub ghost answered: { ∥ Answers status ∥₁ },
}

impl Termination for Ended {
    fn report<R: Eprint>(self, _rt: &R) -> ExitCode
        ensures { exit_status result ≡ self.status }
    {
        ExitCode::from(self.status)
    }
}
