//! Tests and verdicts of a program that is built: each of its inputs has one run, which runs every
//! statement, so the opening input is a test for all of them.
ghost use Rattle.std.specs.Prelude.{◌≡◌, ◌<◌, ◌≤◌, IfOk, IsTrue, length, map, replicate, min};
ghost use Rattle.p4_meaning.specs.declared.test.Nibble.TheVariants.{Fixed};
ghost use Rattle.p4_meaning.specs.declared.verdict.Verdict.TheVariants.{Covered};
ghost use Rattle.p4_meaning.specs.Expected.{digits_of, is_printable};
ghost use Rattle.p4_program.specs.Input.{opening_input};
ghost use Rattle.testgen_engine.specs.Decide.{egress_after, expected_at, IsOpening, findings};
ghost use Rattle.testgen_engine.specs.Findings.{AreRight, IsUndecided};

use p4_meaning::{Expected, Nibble, Nibbles, Test, Verdict};
use p4_program::{
    Bounds, DROP_PORT, EgressSpec, Input, OPENING_BYTES, Program, Statement, StatementKind,
};
use sqlite_items::Items;
use std::alloc::{AllocError, Global};

/// What `egress_spec` holds after statements that start with a value of 0.
fn egress_after(statements: &[Statement]) -> EgressSpec
    ensures { result ≡ egress_after 0 statements.now }
{
    let mut egress = EgressSpec::new(0);
    for statement in statements {
        egress = match statement.kind {
            StatementKind::AssignEgressSpec(value) => value,
            StatementKind::MarkToDrop => EgressSpec::new(DROP_PORT),
        };
    }
    egress
}

/// The digits of bytes, each to be found as it is.
fn fixed_nibbles(alloc: Global, bytes: &[u8]) -> Result<Nibbles, AllocError>
    ensures { IfOk result (λ nibbles. nibbles ≡ map Fixed (digits_of bytes.now)) }
{
    let mut nibbles = Items::new(alloc);
    for byte in bytes {
        nibbles.push(Nibble::Fixed(byte / 16))?;
        nibbles.push(Nibble::Fixed(byte % 16))?;
    }
    Ok(nibbles)
}

/// What is expected where ingress leaves this `egress_spec`.
fn expected_at(alloc: Global, egress: EgressSpec, packet: &[u8]) -> Result<Expected, AllocError>
    ensures value { IfOk result (λ expected. expected ≡ expected_at egress packet.now) }
    ensures printable { IfOk result (λ expected. IsTrue (is_printable expected)) }
{
    let port = egress.value();
    if port == DROP_PORT {
        return Ok(Expected::Drop);
    }
    let nibbles = fixed_nibbles(alloc, packet)?;
    Ok(Expected::Packet { port, nibbles })
}

/// The opening input.
fn opening_input(alloc: Global, bounds: Bounds) -> Result<Input, AllocError>
    ensures { IfOk result (λ input. input ≡ opening_input bounds) }
{
    let count = usize::from(bounds.bytes.min(OPENING_BYTES));
    let packet = Items::from_vec(vec![in alloc; 0u8; count]?);
    Ok(Input { port: 0, packet })
}

/// The verdicts and tests of a program.
#[derive(Debug, Drop)]
pub struct Decided {
    /// One verdict for each statement, in order.
    pub verdicts: Items<Verdict>,
    /// The tests, numbered from 1.
    pub tests: Items<Test>,
}

/// The opening input, with what every run of it gives.
fn opening_test(alloc: Global, bounds: Bounds, program: &Program) -> Result<Test, AllocError>
    ensures { IfOk result (IsOpening program.now bounds) }
{
    let input = opening_input(alloc, bounds)?;
    let egress = egress_after(program.statements.as_slice());
    let expected = expected_at(alloc, egress, input.packet.as_slice())?;
    Ok(Test { input, expected })
}

/// The verdicts where every statement is covered by test 1.
fn all_covered(alloc: Global, count: usize) -> Result<Items<Verdict>, AllocError>
    ensures { IfOk result (λ verdicts. verdicts ≡ replicate count (Covered 1)) }
{
    let verdicts = vec![in alloc; Verdict::Covered(1); count]?;
    Ok(Items::from_vec(verdicts))
}

/// Decides each statement. Where there is one, the opening input is the test of all.
pub fn decide(alloc: Global, bounds: Bounds, program: &Program) -> Result<Decided, AllocError>
    ensures right { IfOk result (λ decided. AreRight (findings bounds program.now decided)) }
    ensures decided { IfOk result (λ decided. IsUndecided (findings bounds program.now decided)
        → ⊥) }
    ensures few { IfOk result (λ decided. length decided.tests ≤ 1) }
{
    let verdicts = all_covered(alloc, program.statements.len())?;
    let mut tests = Items::new(alloc);
    if program.statements.is_empty() {
        return Ok(Decided { verdicts, tests });
    }
    tests.push(opening_test(alloc, bounds, program)?)?;
    Ok(Decided { verdicts, tests })
}
