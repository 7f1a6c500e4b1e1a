//! The text of a test, one spelling for each test.
ghost use Rattle.std.specs.Prelude.{◌≡◌, ◌∷◌, [], ◌++◌, OnOk, IfOk, IsTrue, string_bytes};
ghost use Rattle.p4_meaning.specs.Expected.{is_digit, is_printable};
ghost use Rattle.testgen_engine.specs.Appends.{Appends};
ghost use Rattle.testgen_engine.specs.TestText.{title_line, packet_line, glyph_of, expect_line, test_text};

use p4_meaning::{Expected, Nibble, Test};
use p4_program::{Input, Program};
use std::alloc::{AllocError, Global};

/// Adds the line with the number of a test and the statements that it is credited with.
fn push_title(text: &mut String, number: u32, statements: &[u32]) -> Result<(), AllocError>
    ensures { Appends text.old text.new result (title_line number statements.now) }
{
    write!(text, "# test {number} covers")?;
    for statement in statements {
        write!(text, " {statement}")?;
    }
    text.push('\n')
}

/// Adds the line of the packet.
fn push_packet(alloc: Global, text: &mut String, input: &Input) -> Result<(), AllocError>
    ensures { Appends text.old text.new result (packet_line input.now) }
{
    let port = input.port;
    let digits = hex::encode(alloc, input.packet.as_slice())?;
    writeln!(text, "packet {port} {digits}")
}

/// Adds a nibble's digit, or a star.
fn push_nibble(text: &mut String, nibble: Nibble) -> Result<(), AllocError>
    requires { IsTrue (is_digit nibble) }
    ensures { Appends text.old text.new result (glyph_of nibble ∷ []) }
{
    match nibble {
        Nibble::Fixed(digit) => write!(text, "{digit:x}"),
        Nibble::Masked | Nibble::Undecided => text.push('*'),
    }
}

/// Adds the line of what is expected, none where no packet is.
fn push_expected(text: &mut String, expected: &Expected) -> Result<(), AllocError>
    requires { IsTrue (is_printable expected.now) }
    ensures { Appends text.old text.new result (expect_line expected.now) }
{
    let Expected::Packet { port, nibbles } = expected else {
        return Ok(());
    };
    write!(text, "expect {port} ")?;
    for nibble in nibbles.as_slice() {
        push_nibble(text, *nibble)?;
    }
    text.push_str("$\n")
}

/// The text of a test of the program, with its number and the statements that it is credited with.
pub fn test_text(
    alloc: Global,
    _program: &Program,
    number: u32,
    statements: &[u32],
    test: &Test,
) -> Result<String, AllocError>
    ensures { IfOk result
        (λ text. string_bytes text ≡ test_text _program.now number statements.now test.now) }
{
    let mut text = String::new(alloc);
    push_title(&mut text, number, statements)?;
    push_packet(alloc, &mut text, &test.input)?;
    push_expected(&mut text, &test.expected)?;
    Ok(text)
}
