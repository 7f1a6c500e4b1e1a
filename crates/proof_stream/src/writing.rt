//! The text of a record.
ghost use Rattle.std.specs.Prelude.{◌≡◌, map, IfOk, string_bytes};
ghost use Rattle.std.specs.List.{flat_map};
ghost use Rattle.cnf_core.specs.declared.derivation.Derived.TheVariants.{Cube, Step as StepLine};
ghost use Rattle.proof_stream.specs.declared.line.Line.TheVariants as line;
ghost use Rattle.proof_stream.specs.Appends.{Appends};
ghost use Rattle.proof_stream.specs.Words.{literal_word, clause_words, hint_words, bits_word, hex_digits, hex_word};
ghost use Rattle.proof_stream.specs.Spelling.{at_lines, spaced, line_text, ended, text_of_lines, text_of};
ghost use Rattle.proof_stream.specs.Valid.{HasText};

use crate::hex_value::HexValue;
use crate::record::{End, Kind, Record, Truths};
use cnf_core::{Clause, Derived, Lit, Step, Var};
use std::alloc::{AllocError, Global};

/// Adds the line of what is asked.
fn push_head(text: &mut String, kind: Kind) -> Result<(), AllocError>
    ensures { Appends text.old text.new result (ended (line_text (line.Head kind))) }
{
    match kind {
        Kind::Reach(statement) => writeln!(text, "record reach {statement}"),
        Kind::Steady(statement) => writeln!(text, "record steady {statement}"),
        Kind::Break(statement) => writeln!(text, "record break {statement}"),
        Kind::Nibble(test, nibble) => writeln!(text, "record nibble {test} {nibble}"),
    }
}

/// Adds the line of what a variable stands for.
fn push_var(text: &mut String, var: Var) -> Result<(), AllocError>
    ensures { Appends text.old text.new result (ended (line_text (line.Var var))) }
{
    match var {
        Var::Input(place) => writeln!(text, "var input {place}"),
        Var::Read(read, bit) => writeln!(text, "var read {read} {bit}"),
    }
}

/// Adds a digit for each bit.
fn push_bits(text: &mut String, bits: &[bool]) -> Result<(), AllocError>
    ensures { Appends text.old text.new result (bits_word bits.now) }
{
    for bit in bits {
        text.push(if *bit { '1' } else { '0' })?;
    }
    Ok(())
}

/// Adds a blank and the literal.
fn push_literal(text: &mut String, l: Lit) -> Result<(), AllocError>
    ensures { Appends text.old text.new result (spaced (literal_word l)) }
{
    let var = l.var;
    if l.positive {
        write!(text, " {var}")
    } else {
        write!(text, " -{var}")
    }
}

/// Adds the literals, and the `0` that ends them, each behind a blank.
fn push_literals(text: &mut String, lits: &[Lit]) -> Result<(), AllocError>
    ensures { Appends text.old text.new result (flat_map spaced (clause_words lits.now)) }
{
    for l in lits {
        push_literal(text, *l)?;
    }
    text.push_str(" 0")
}

/// Adds the hints, and the `0` that ends them, each behind a blank.
fn push_hints(text: &mut String, hints: &[u32]) -> Result<(), AllocError>
    ensures { Appends text.old text.new result (flat_map spaced (hint_words hints.now)) }
{
    for hint in hints {
        write!(text, " {hint}")?;
    }
    text.push_str(" 0")
}

/// Adds the digits of a value.
fn push_digits(text: &mut String, h: HexValue) -> Result<(), AllocError>
    ensures { Appends text.old text.new result (hex_digits h.digits h.value) }
{
    let mut rest = h.value;
    let mut places = h.digits;
    while places > 0 {
        places -= 1;
        let unit = 16u128.pow(places as u32);
        let digit = (rest / unit) as u8;
        rest %= unit;
        write!(text, "{digit:x}")?;
    }
    Ok(())
}

/// Adds each value behind a blank.
fn push_values(text: &mut String, values: &[HexValue]) -> Result<(), AllocError>
    ensures { Appends text.old text.new result (flat_map spaced (map hex_word values.now)) }
{
    for h in values {
        text.push_str(" 0x")?;
        push_digits(text, *h)?;
    }
    Ok(())
}

/// Adds the line of the fixed input.
fn push_at(text: &mut String, bits: &[bool]) -> Result<(), AllocError>
    ensures { Appends text.old text.new result (ended (line_text (line.At bits.now))) }
{
    text.push_str("at ")?;
    push_bits(text, bits)?;
    text.push('\n')
}

/// Adds the line of a clause.
fn push_clause(text: &mut String, clause: &[Lit]) -> Result<(), AllocError>
    ensures { Appends text.old text.new result (ended (line_text (line.Clause clause.now))) }
{
    text.push_str("clause")?;
    push_literals(text, clause)?;
    text.push('\n')
}

/// Adds the line of a cube.
fn push_cube(text: &mut String, cube: &[Lit]) -> Result<(), AllocError>
    ensures { Appends text.old text.new result (ended (line_text (line.Derived (Cube cube.now)))) }
{
    text.push_str("cube")?;
    push_literals(text, cube)?;
    text.push('\n')
}

/// Adds the line of a step.
#[tactic(auto, using(crate::proofs::TextLemmas::step_text))]
fn push_step(text: &mut String, step: &Step) -> Result<(), AllocError>
    ensures { Appends text.old text.new result
        (ended (line_text (line.Derived (StepLine step.now)))) }
{
    text.push_str("step")?;
    push_literals(text, step.clause.as_slice())?;
    push_hints(text, step.hints.as_slice())?;
    text.push('\n')
}

/// Adds the line of how the question ended.
fn push_end(text: &mut String, end: &End) -> Result<(), AllocError>
    ensures { Appends text.old text.new result (ended (line_text (line.End end.now))) }
{
    match end {
        End::Sat(bits) => {
            text.push_str("sat ")?;
            push_bits(text, bits.as_slice())?;
            text.push('\n')
        }
        End::Unsat => text.push_str("unsat\n"),
        End::Spent => text.push_str("spent\n"),
    }
}

/// Adds the line of the reads under which the statement is executed.
fn push_runs(text: &mut String, values: &[HexValue]) -> Result<(), AllocError>
    ensures { Appends text.old text.new result (ended (line_text (line.Runs values.now))) }
{
    text.push_str("runs")?;
    push_values(text, values)?;
    text.push('\n')
}

/// Adds the line of the reads under which it is not.
fn push_breaks(text: &mut String, values: &[HexValue]) -> Result<(), AllocError>
    ensures { Appends text.old text.new result (ended (line_text (line.Breaks values.now))) }
{
    text.push_str("breaks")?;
    push_values(text, values)?;
    text.push('\n')
}

/// Adds the line of the statement whose claim an input breaks.
fn push_broken(text: &mut String, target: u32) -> Result<(), AllocError>
    ensures { Appends text.old text.new result (ended (line_text (line.Broken target))) }
{
    writeln!(text, "broken {target}")
}

/// Adds the line of the fixed input, where there is one.
fn push_fixed(text: &mut String, at: &Option<Truths>) -> Result<(), AllocError>
    ensures { Appends text.old text.new result (text_of_lines (at_lines at.now)) }
{
    match at {
        Some(bits) => push_at(text, bits.as_slice()),
        None => Ok(()),
    }
}

fn push_vars(text: &mut String, vars: &[Var]) -> Result<(), AllocError>
    ensures { Appends text.old text.new result (text_of_lines (map line.Var vars.now)) }
{
    for var in vars {
        push_var(text, *var)?;
    }
    Ok(())
}

fn push_clauses(text: &mut String, clauses: &[Clause]) -> Result<(), AllocError>
    ensures { Appends text.old text.new result (text_of_lines (map line.Clause clauses.now)) }
{
    for clause in clauses {
        push_clause(text, clause.as_slice())?;
    }
    Ok(())
}

fn push_line(text: &mut String, derived: &Derived) -> Result<(), AllocError>
    ensures { Appends text.old text.new result (ended (line_text (line.Derived derived.now))) }
{
    match derived {
        Derived::Cube(cube) => push_cube(text, cube.as_slice()),
        Derived::Step(step) => push_step(text, step),
    }
}

fn push_derived(text: &mut String, derived: &[Derived]) -> Result<(), AllocError>
    ensures { Appends text.old text.new result (text_of_lines (map line.Derived derived.now)) }
{
    for line in derived {
        push_line(text, line)?;
    }
    Ok(())
}

/// Adds the text of the record.
#[tactic(auto, using(crate::proofs::TextLemmas::text_of_both))]
fn push_record(text: &mut String, r: &Record) -> Result<(), AllocError>
    ensures { Appends text.old text.new result (text_of r.now) }
{
    match r {
        Record::Asked {
            kind,
            at,
            vars,
            clauses,
            derived,
            end,
        } => {
            push_head(text, *kind)?;
            push_fixed(text, at)?;
            push_vars(text, vars.as_slice())?;
            push_clauses(text, clauses.as_slice())?;
            push_derived(text, derived.as_slice())?;
            push_end(text, end)
        }
        Record::Broken {
            target,
            at,
            runs,
            breaks,
        } => {
            push_broken(text, *target)?;
            push_at(text, at.as_slice())?;
            push_runs(text, runs.as_slice())?;
            push_breaks(text, breaks.as_slice())
        }
    }
}

/// The text of the record, which is read back as the record.
pub fn write_record(alloc: Global, r: &Record) -> Result<String, AllocError>
    requires { HasText r.now }
    ensures { IfOk result (λ text. string_bytes text ≡ text_of r.now) }
{
    let mut text = String::new(alloc);
    push_record(&mut text, r)?;
    Ok(text)
}
