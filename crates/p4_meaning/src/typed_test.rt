//! Tests of typed programs: an input with what is expected of it.
ghost use Rattle.std.specs.Prelude.{IsTrue};
ghost use Rattle.p4_meaning.specs.Expected.{is_printable};

use crate::test::Expected;
use p4_program::typed::Input;

/// An input with what is expected of each of its runs. The port that is expected is at most 510,
/// the nibbles are even in number, and each digit is below 16.
#[derive(Debug, Drop)]
pub struct Test {
    pub input: Input,
    pub expected: Expected,
    ghost printable: { IsTrue (is_printable expected) },
}
