//! How a call ends, and the statuses of the process.
ghost use Rattle.std.specs.Prelude.{◌≡◌};
ghost use Rattle.testgen_engine.specs.Status.{status_of};

/// All was done, and nothing is undecided.
pub const DONE: u8 = 0;

/// The words are outside the grammar.
pub const WRONG_WORDS: u8 = 1;

/// The source is refused.
pub const REFUSED: u8 = 2;

/// All was done, and something is undecided.
pub const UNDECIDED: u8 = 3;

/// The source could not be read.
pub const READ_FAULT: u8 = 4;

/// An output could not be written.
pub const WRITE_FAULT: u8 = 5;

/// Memory ran out.
pub const OUT_OF_MEMORY: u8 = 6;

/// How a call ends that nothing cuts short. So far none leaves anything undecided.
#[derive(Clone, Copy, Debug, PartialEq, Eq)]
pub enum Status {
    Done,
    WrongWords,
    Refused,
    ReadFault,
}

impl Status {
    /// The status of the process.
    pub fn number(self) -> u8
        ensures { result ≡ status_of self }
    {
        match self {
            Status::Done => DONE,
            Status::WrongWords => WRONG_WORDS,
            Status::Refused => REFUSED,
            Status::ReadFault => READ_FAULT,
        }
    }
}
