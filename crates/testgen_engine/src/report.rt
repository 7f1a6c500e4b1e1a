//! The report: the bounds, a line for each statement, a line for each undecided nibble, and the
//! counts.
ghost use Rattle.std.specs.Prelude.{◌≡◌, ◌++◌, OnOk, IfOk, length, map, count_by, string_bytes};
ghost use Rattle.p4_program.specs.Blocks.{place_of, places_of};
ghost use Rattle.p4_program.specs.Numbered.{number_of, numbers_from};
ghost use Rattle.testgen_engine.specs.Appends.{Appends};
ghost use Rattle.testgen_engine.specs.Report.{bounds_line, statement_line, statement_lines, is_undecided_nibble, nibble_line, nibble_lines, nibbles_of, undecided_lines, undecided_nibbles, is_covered, is_unreachable, is_unsteady, is_undecided, counts_of, verdict_counts, test_counts, counts_line, report_text};

use p4_meaning::{Expected, Nibble, Test, Verdict};
use p4_program::{Bounds, Program, Statement};
use std::alloc::{AllocError, Global};
use tg_base::Span;

/// What the last line of a report counts.
#[derive(Clone, Copy, Debug)]
pub struct Counts {
    statements: usize,
    covered: usize,
    unreachable: usize,
    unsteady: usize,
    undecided: usize,
    tests: usize,
    nibbles: u128,
}

/// Adds the line of the bounds.
fn push_bounds(text: &mut String, bounds: Bounds) -> Result<(), AllocError>
    ensures { Appends text.old text.new result (bounds_line bounds) }
{
    let Bounds {
        bytes,
        steps,
        entries,
        budget,
    } = bounds;
    writeln!(
        text,
        "bounds bytes {bytes} steps {steps} entries {entries} budget {budget}"
    )
}

/// Adds the line of a statement.
fn push_statement(
    text: &mut String,
    number: u32,
    place: Span,
    verdict: Verdict,
) -> Result<(), AllocError>
    ensures { Appends text.old text.new result (statement_line number place verdict) }
{
    let Span { line, column } = place;
    writeln!(text, "{number} {line}:{column} {verdict}")
}

/// Adds the line of an undecided nibble.
fn push_nibble(text: &mut String, test: usize, place: usize) -> Result<(), AllocError>
    ensures { Appends text.old text.new result (nibble_line test place) }
{
    writeln!(text, "test {test} nibble {place} undecided")
}

/// Adds the lines of numbered statements and their verdicts.
fn push_statements(
    text: &mut String,
    statements: &[Statement],
    verdicts: &[Verdict],
) -> Result<(), AllocError>
    requires numbers { map number_of statements.now ≡ numbers_from 1 (length statements.now) }
    requires verdicts { length statements.now ≡ length verdicts.now }
    ensures { Appends text.old text.new result
        (statement_lines 1 (map place_of statements.now) verdicts.now) }
{
    for (index, statement) in statements.iter().enumerate() {
        push_statement(text, statement.number, statement.place, verdicts[index])?;
    }
    Ok(())
}

/// Adds the lines of a test's undecided nibbles, and answers how many there are.
fn push_nibbles(text: &mut String, test: usize, nibbles: &[Nibble]) -> Result<usize, AllocError>
    ensures lines { Appends text.old text.new result (nibble_lines test 0 nibbles.now) }
    ensures count { IfOk result (λ count. count ≡ count_by is_undecided_nibble nibbles.now) }
{
    let mut count = 0;
    for (place, nibble) in nibbles.iter().enumerate() {
        if *nibble == Nibble::Undecided {
            push_nibble(text, test, place)?;
            count += 1;
        }
    }
    Ok(count)
}

/// The nibbles that are expected, none where no packet is.
fn expected_nibbles(expected: &Expected) -> &[Nibble]
    ensures { result.now ≡ nibbles_of expected.now }
{
    match expected {
        Expected::Drop => &[],
        Expected::Packet { nibbles, .. } => nibbles.as_slice(),
    }
}

/// How many statements are covered.
fn covered_count(verdicts: &[Verdict]) -> usize
    ensures { result ≡ count_by is_covered verdicts.now }
{
    verdicts
        .iter()
        .filter(|verdict| matches!(verdict, Verdict::Covered(_)))
        .count()
}

/// How many statements are unreachable.
fn unreachable_count(verdicts: &[Verdict]) -> usize
    ensures { result ≡ count_by is_unreachable verdicts.now }
{
    verdicts
        .iter()
        .filter(|verdict| matches!(verdict, Verdict::Unreachable))
        .count()
}

/// How many statements are unsteady.
fn unsteady_count(verdicts: &[Verdict]) -> usize
    ensures { result ≡ count_by is_unsteady verdicts.now }
{
    verdicts
        .iter()
        .filter(|verdict| matches!(verdict, Verdict::Unsteady))
        .count()
}

/// How many statements are undecided.
fn undecided_count(verdicts: &[Verdict]) -> usize
    ensures { result ≡ count_by is_undecided verdicts.now }
{
    verdicts
        .iter()
        .filter(|verdict| matches!(verdict, Verdict::Undecided))
        .count()
}

/// Adds the lines of the tests' undecided nibbles, and answers how many there are.
fn push_undecided(text: &mut String, tests: &[Test]) -> Result<u128, AllocError>
    ensures lines { Appends text.old text.new result (undecided_lines 1 tests.now) }
    ensures count { IfOk result (λ count. count ≡ undecided_nibbles tests.now) }
{
    let mut count = 0u128;
    for (index, test) in tests.iter().enumerate() {
        let found = push_nibbles(text, index + 1, expected_nibbles(&test.expected))?;
        count += found as u128;
    }
    Ok(count)
}

/// What the last line counts, the undecided nibbles given.
fn count(verdicts: &[Verdict], tests: &[Test], nibbles: u128) -> Counts
    requires { nibbles ≡ undecided_nibbles tests.now }
    ensures { result ≡ counts_of verdicts.now tests.now }
{
    Counts {
        statements: verdicts.len(),
        covered: covered_count(verdicts),
        unreachable: unreachable_count(verdicts),
        unsteady: unsteady_count(verdicts),
        undecided: undecided_count(verdicts),
        tests: tests.len(),
        nibbles,
    }
}

/// Adds the counts of verdicts.
fn push_verdict_counts(text: &mut String, counts: Counts) -> Result<(), AllocError>
    ensures { Appends text.old text.new result (verdict_counts counts) }
{
    let Counts {
        statements,
        covered,
        unreachable,
        unsteady,
        undecided,
        ..
    } = counts;
    write!(
        text,
        "statements {statements} covered {covered} unreachable {unreachable} unsteady {unsteady} undecided {undecided} "
    )
}

/// Adds the counts of tests and of their undecided nibbles.
fn push_test_counts(text: &mut String, counts: Counts) -> Result<(), AllocError>
    ensures { Appends text.old text.new result (test_counts counts) }
{
    let Counts { tests, nibbles, .. } = counts;
    writeln!(text, "tests {tests} nibbles {nibbles}")
}

/// Adds the line of the counts.
fn push_counts(text: &mut String, counts: Counts) -> Result<(), AllocError>
    ensures { Appends text.old text.new result (counts_line counts) }
{
    push_verdict_counts(text, counts)?;
    push_test_counts(text, counts)
}

/// The report of verdicts and tests.
pub fn report_text(
    alloc: Global,
    bounds: Bounds,
    program: &Program,
    verdicts: &[Verdict],
    tests: &[Test],
) -> Result<String, AllocError>
    requires { length verdicts.now ≡ length (places_of program.now) }
    ensures { IfOk result
        (λ text. string_bytes text ≡ report_text bounds program.now verdicts.now tests.now) }
{
    let mut text = String::new(alloc);
    push_bounds(&mut text, bounds)?;
    push_statements(&mut text, program.statements.as_slice(), verdicts)?;
    let nibbles = push_undecided(&mut text, tests)?;
    push_counts(&mut text, count(verdicts, tests, nibbles))?;
    Ok(text)
}
