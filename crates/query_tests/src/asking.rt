//! A question asked of an empty log, and what came of it as one text.
ghost use Rattle.std.specs.Prelude.{◌≡◌, ◌≢◌, ◌<◌, ℕ, [], Some, All, IfOk, IfSome, IsTrue, length};
ghost use Rattle.cnf_core.specs.declared.derivation.Var.TheVariants.{Input as InputBit};
ghost use Rattle.proof_stream.specs.Valid.{HasText, IsAtOf};
ghost use Rattle.query_engine.specs.Question.{FixesInputs};
ghost use Rattle.term_dag.specs.Width.{width_of};

use crate::terms::term_of;
use bit_blaster::bits_of;
use bits_core::Point;
use cnf_core::Var;
use proof_stream::{Kind, ProofLog, Truths, write_record};
use query_engine::{Base, Decided, Question, decide};
use sqlite_items::Items;
use std::alloc::{AllocError, Global};
use term_dag::{Dag, Term};

/// The answer and the records of the question whether the term of these symbols is 1, where it can be asked: a line with the
/// answer, and the text of the log.
pub(crate) fn told(
    alloc: Global,
    kind: Kind,
    at: &str,
    symbols: &str,
    allowance: u32,
) -> Result<Option<String>, AllocError> {
    let mut base = Base::new(alloc);
    let Some(term) = term_of(alloc, &mut base.domain.dag, symbols)? else {
        return Ok(None);
    };
    let Some(question) = question_of(alloc, kind, at, term)? else {
        return Ok(None);
    };
    if !fixes_inputs(alloc, &base.domain.dag, &question)? {
        return Ok(None);
    }
    let mut log = ProofLog::new(alloc);
    let decided = decided(alloc, &mut base, &question, allowance, &mut log)?;
    let mut text = String::new(alloc);
    push_answer(&mut text, &decided)?;
    for r in log.records() {
        text.push_str(write_record(alloc, r)?.as_str())?;
    }
    Ok(Some(text))
}

/// The question about the term, with the fixed bits where the kind has some and these are some.
fn question_of(
    alloc: Global,
    kind: Kind,
    at: &str,
    term: Term,
) -> Result<Option<Question>, AllocError>
    ensures term { IfOk result (λ r. IfSome r (λ q. q.term ≡ term)) }
    ensures at { IfOk result (λ r. IfSome r (λ q. IsAtOf q.kind q.at)) }
    ensures some_bit { IfOk result (λ r. IfSome r (λ q. q.at ≢ Some [])) }
{
    let at = match kind {
        Kind::Reach(_) | Kind::Steady(_) => None,
        Kind::Break(_) | Kind::Nibble(..) => {
            let bits = truths(alloc, at)?;
            if bits.is_empty() {
                return Ok(None);
            }
            Some(bits)
        }
    };
    Ok(Some(Question { kind, term, at }))
}

/// A bit for each digit.
fn truths(alloc: Global, digits: &str) -> Result<Truths, AllocError> {
    let mut bits = Items::new(alloc);
    for digit in digits.as_bytes() {
        bits.push(*digit == b'1')?;
    }
    Ok(bits)
}

/// Whether all input bits of the question's term are fixed, where some are.
fn fixes_inputs(alloc: Global, dag: &Dag, question: &Question) -> Result<bool, AllocError>
    requires { question.now.term.number < length dag.now }
    ensures { IfOk result (λ b. IsTrue b
        → FixesInputs dag.now question.now.term question.now.at) }
{
    let Some(at) = &question.at else {
        return Ok(true);
    };
    let vars = bits_of(alloc, dag, question.term)?;
    Ok(are_below(vars.as_slice(), at.len()))
}

/// Whether the input bits among these are below the length.
fn are_below(vars: &[Var], len: usize) -> bool
    ensures { IsTrue result → All (λ v. (bit : ℕ) → v ≡ InputBit bit → bit < len) vars.now }
{
    vars.iter().all(|var| is_below(*var, len))
}

fn is_below(var: Var, len: usize) -> bool
    ensures { IsTrue result → (bit : ℕ) → var ≡ InputBit bit → bit < len }
{
    match var {
        Var::Input(bit) => (bit as usize) < len,
        Var::Read(..) => true,
    }
}

/// The answer to the question, and records that have texts in a log that had none.
fn decided(
    alloc: Global,
    base: &mut Base,
    question: &Question,
    allowance: u32,
    log: &mut ProofLog,
) -> Result<Decided, AllocError>
    requires within { question.now.term.number < length base.old.domain.dag }
    requires one_bit { width_of base.old.domain.dag question.now.term ≡ 1 }
    requires at { IsAtOf question.now.kind question.now.at }
    requires some_bit { question.now.at ≢ Some [] }
    requires inputs { FixesInputs base.old.domain.dag question.now.term question.now.at }
    requires empty { log.old ≡ [] }
    ensures texts { IfOk result (λ d. All HasText log.new) }
{
    decide(alloc, base, question, allowance, log)
}

/// Adds the line of the answer: a point has its input bits, and each read as P4 writes numbers.
fn push_answer(text: &mut String, decided: &Decided) -> Result<(), AllocError> {
    match decided {
        Decided::Yes(point) => push_point(text, point),
        Decided::No => text.push_str("no\n"),
        Decided::Spent => text.push_str("spent\n"),
    }
}

fn push_point(text: &mut String, point: &Point) -> Result<(), AllocError> {
    text.push_str("yes ")?;
    for bit in point.inputs.as_slice() {
        text.push(if *bit { '1' } else { '0' })?;
    }
    for bits in point.reads.as_slice() {
        let (width, value) = (bits.width, bits.value);
        write!(text, " {width}w{value}")?;
    }
    text.push('\n')
}
