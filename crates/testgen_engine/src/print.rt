//! Writing what was found: the tests, and then the report. The log has no record.
ghost use Rattle.std.specs.Prelude.{◌≡◌, ◌≤◌, IfOk, length};
ghost use Rattle.tg_base.specs.declared.desk.Out.TheVariants as out;
ghost use Rattle.tg_base.specs.Faults.{HasCause};
ghost use Rattle.tg_base.specs.Moment.{KeepsReading};
ghost use Rattle.p4_program.specs.Blocks.{places_of};
ghost use Rattle.p4_program.specs.declared.program.TheConstants.{MAX_STATEMENTS};
ghost use Rattle.p4_meaning.specs.Verdicts.{credits};
ghost use Rattle.testgen_engine.specs.Decide.{findings};
ghost use Rattle.testgen_engine.specs.Findings.{text_of};
ghost use Rattle.testgen_engine.specs.Outputs.{Writes, only};
ghost use Rattle.testgen_engine.specs.Printing.{tests_text};
ghost use Rattle.testgen_engine.specs.TestText.{test_text};

use crate::decide::Decided;
use crate::output::write_all;
use crate::report::report_text;
use crate::test_text::test_text;
use p4_meaning::{Test, Verdict};
use p4_program::{Bounds, Program};
use sqlite_items::Items;
use std::alloc::{AllocError, Global};
use tg_base::{Desk, DeskFault, Numbers, Out};

/// The statements that are credited to a test.
fn credits_of(alloc: Global, verdicts: &[Verdict], test: u32) -> Result<Numbers, AllocError>
    requires { length verdicts.now ≤ MAX_STATEMENTS }
    ensures { IfOk result (λ numbers. numbers ≡ credits verdicts.now test) }
{
    let mut numbers = Items::new(alloc);
    for (index, verdict) in verdicts.iter().enumerate() {
        if *verdict == Verdict::Covered(test) {
            numbers.push(index as u32 + 1)?;
        }
    }
    Ok(numbers)
}

/// Writes one test.
#[tactic(auto, using(crate::proofs::OutputLemmas::writes_nothing))]
fn print_test<D: Desk>(
    alloc: Global,
    desk: &mut D,
    program: &Program,
    number: u32,
    verdicts: &[Verdict],
    test: &Test,
) -> Result<(), DeskFault>
    requires { length verdicts.now ≤ MAX_STATEMENTS }
    ensures writes { Writes (D.moment desk.old) (D.moment desk.new)
        (only (out.Test number)
        (test_text program.now number (credits verdicts.now number) test.now)) result }
    ensures faults { HasCause (D.moment desk.old).write_faults
        (D.moment desk.new).write_faults result }
    ensures stays { KeepsReading (D.moment desk.old) (D.moment desk.new) }
{
    let statements = credits_of(alloc, verdicts, number)?;
    let text = test_text(alloc, program, number, statements.as_slice(), test)?;
    write_all(desk, Out::Test(number), text.as_bytes())
}

/// Writes the tests, numbered from 1.
fn print_tests<D: Desk>(
    alloc: Global,
    desk: &mut D,
    program: &Program,
    verdicts: &[Verdict],
    tests: &[Test],
) -> Result<(), DeskFault>
    requires verdicts { length verdicts.now ≤ MAX_STATEMENTS }
    requires tests { length tests.now ≤ MAX_STATEMENTS }
    ensures writes { Writes (D.moment desk.old) (D.moment desk.new)
        (tests_text program.now verdicts.now 1 tests.now) result }
    ensures faults { HasCause (D.moment desk.old).write_faults
        (D.moment desk.new).write_faults result }
    ensures stays { KeepsReading (D.moment desk.old) (D.moment desk.new) }
{
    for (index, test) in tests.iter().enumerate() {
        print_test(alloc, desk, program, index as u32 + 1, verdicts, test)?;
    }
    Ok(())
}

/// Writes the tests, and then the report.
#[tactic(auto, using(crate::proofs::OutputLemmas::writes_nothing))]
pub fn print<D: Desk>(
    alloc: Global,
    desk: &mut D,
    bounds: Bounds,
    program: &Program,
    decided: &Decided,
) -> Result<(), DeskFault>
    requires verdicts { length decided.now.verdicts ≡ length (places_of program.now) }
    requires tests { length decided.now.tests ≤ MAX_STATEMENTS }
    ensures writes { Writes (D.moment desk.old) (D.moment desk.new)
        (text_of (findings bounds program.now decided.now)) result }
    ensures faults { HasCause (D.moment desk.old).write_faults
        (D.moment desk.new).write_faults result }
    ensures stays { KeepsReading (D.moment desk.old) (D.moment desk.new) }
{
    let verdicts = decided.verdicts.as_slice();
    let tests = decided.tests.as_slice();
    let report = report_text(alloc, bounds, program, verdicts, tests)?;
    print_tests(alloc, desk, program, verdicts, tests)?;
    write_all(desk, Out::Report, report.as_bytes())
}
