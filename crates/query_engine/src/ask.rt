//! The answer of a constant, and that of the solver with its record.
ghost use Rattle.std.specs.Prelude.{◌≡◌, ◌≢◌, ◌<◌, ◌≤◌, ◌^◌, ◌↔◌, [], All, IfOk, IsTrue, OnErr, length, take};
ghost use Rattle.bits_core.specs.declared.points.Point.{Point as Place};
ghost use Rattle.cnf_core.specs.Determined.{AreNumbered};
ghost use Rattle.cnf_core.specs.Literal.{IsApart};
ghost use Rattle.proof_stream.specs.Valid.{IsAtOf};
ghost use Rattle.refutation_checker.specs.Acceptance.{IsAccepted};
ghost use Rattle.bit_blaster.specs.Vars.{AreVarsOf};
ghost use Rattle.query_engine.specs.About.{GoesBy, IsAbout};
ghost use Rattle.query_engine.specs.Logged.{AddsRecord, HasNumbers, SaysAnswer, derivation};
ghost use Rattle.query_engine.specs.Question.{FixesInputs, IfNo, IfSpent, IfYes, IsOne, IsYesAt};

use crate::point::point_with;
use crate::question::{Decided, Question};
use bit_blaster::Blasted;
use bits_core::Point;
use cnf_core::{Clauses, Steps, Valuation, Var};
use proof_stream::{End, ProofLog, Record, Truths};
use sat_solver::{Answer, solve};
use sqlite_items::Items;
use std::alloc::{AllocError, Global};
use term_dag::{Dag, Term};

/// The answer where the question depends on no bit: the same at every point.
pub(crate) fn constant_answer(
    alloc: Global,
    dag: &Dag,
    question: &Question,
    all: &[Var],
) -> Result<Decided, AllocError>
    requires within { question.now.term.number < length dag.now }
    requires inputs { FixesInputs dag.now question.now.term question.now.at }
    requires all { AreVarsOf dag.now question.now.term all.now }
    requires constant { GoesBy dag.now question.now [] }
    ensures yes { IfOk result (λ d. IfYes d (IsYesAt dag.now question.now)) }
    ensures no { IfOk result (λ d. IfNo d ((p : Place) → ¬ IsYesAt dag.now question.now p)) }
    ensures answered { IfOk result (λ d. IfSpent d ⊥) }
{
    let _ = dag.len();
    let point = point_with(alloc, dag, question, all, &[], &[])?;
    if is_one(dag, question.term, &point)? {
        Ok(Decided::Yes(point))
    } else {
        Ok(Decided::No)
    }
}

/// Asks the solver, and adds the record of what it answers.
pub(crate) fn ask(
    alloc: Global,
    dag: &Dag,
    question: &Question,
    all: &[Var],
    blasted: Blasted,
    allowance: u32,
    log: &mut ProofLog,
) -> Result<Decided, AllocError>
    requires within { question.now.term.number < length dag.now }
    requires inputs { FixesInputs dag.now question.now.term question.now.at }
    requires all { AreVarsOf dag.now question.now.term all.now }
    requires about { IsAbout dag.now question.now blasted.vars blasted.clauses }
    requires some_var { blasted.vars ≢ [] }
    requires few_vars { length blasted.vars < 2 ^ 32 }
    requires numbered { AreNumbered blasted.clauses }
    requires apart { All IsApart blasted.clauses }
    requires at { IsAtOf question.now.kind question.now.at }
    ensures yes { IfOk result (λ d. IfYes d (IsYesAt dag.now question.now)) }
    ensures no { IfOk result (λ d. IfNo d ((p : Place) → ¬ IsYesAt dag.now question.now p)) }
    ensures record { IfOk result (λ d. AddsRecord dag.now question.now allowance d
        log.old log.new) }
    ensures log_stays { OnErr result (log.new ≡ log.old) }
{
    let Blasted { vars, clauses } = blasted;
    let Outcome {
        decided,
        end,
        derived,
    } = solved(alloc, dag, question, all, &vars, &clauses, allowance)?;
    log.add(Record::Asked {
        kind: question.kind,
        at: copy(alloc, &question.at)?,
        vars,
        clauses,
        derived,
        end,
    })?;
    Ok(decided)
}

/// What the solver answered: as an answer to the question, as the last line of a record, and the lines before it.
#[derive(Drop)]
struct Outcome {
    decided: Decided,
    end: End,
    derived: Steps,
}

fn solved(
    alloc: Global,
    dag: &Dag,
    question: &Question,
    all: &[Var],
    vars: &Items<Var>,
    clauses: &Clauses,
    allowance: u32,
) -> Result<Outcome, AllocError>
    requires within { question.now.term.number < length dag.now }
    requires inputs { FixesInputs dag.now question.now.term question.now.at }
    requires all { AreVarsOf dag.now question.now.term all.now }
    requires about { IsAbout dag.now question.now vars.now clauses.now }
    requires few_vars { length vars.now < 2 ^ 32 }
    requires numbered { AreNumbered clauses.now }
    ensures yes { IfOk result (λ s. IfYes s.decided (IsYesAt dag.now question.now)) }
    ensures no { IfOk result (λ s. IfNo s.decided
        ((p : Place) → ¬ IsYesAt dag.now question.now p)) }
    ensures accepted { IfOk result (λ s. IsAccepted
        (derivation vars.now clauses.now s.derived)) }
    ensures numbers { IfOk result (λ s. All HasNumbers s.derived) }
    ensures says { IfOk result (λ s. SaysAnswer vars.now clauses.now s.derived allowance
        s.decided s.end) }
{
    let _ = dag.len();
    match solve(alloc, clauses, vars.len() as u32, allowance)? {
        Answer::Sat(valuation, derived) => {
            let bits = first(alloc, &valuation, vars.len())?;
            let point = point_with(alloc, dag, question, all, vars.as_slice(), bits.as_slice())?;
            Ok(Outcome {
                decided: Decided::Yes(point),
                end: End::Sat(bits),
                derived,
            })
        }
        Answer::Unsat(derived) => Ok(Outcome {
            decided: Decided::No,
            end: End::Unsat,
            derived,
        }),
        Answer::Spent(derived) => Ok(Outcome {
            decided: Decided::Spent,
            end: End::Spent,
            derived,
        }),
    }
}

/// The truths of the first variables.
fn first(alloc: Global, valuation: &Valuation, count: usize) -> Result<Truths, AllocError>
    requires { count ≤ length valuation.now }
    ensures { IfOk result (λ bits. bits ≡ take count valuation.now) }
{
    Items::from_slice(alloc, &valuation.as_slice()[..count])
}

fn copy(alloc: Global, at: &Option<Truths>) -> Result<Option<Truths>, AllocError>
    ensures { IfOk result (λ copied. copied ≡ at.now) }
{
    match at {
        Some(bits) => Ok(Some(Items::from_slice(alloc, bits.as_slice())?)),
        None => Ok(None),
    }
}

/// Whether the term is 1 at the point.
fn is_one(dag: &Dag, t: Term, point: &Point) -> Result<bool, AllocError>
    requires { t.number < length dag.now }
    ensures { IfOk result (λ b. IsTrue b ↔ IsOne dag.now t point.now) }
{
    let _ = dag.len();
    match dag.value_at(t, point)? {
        Some(bits) => Ok(bits.value == 1),
        None => Ok(false),
    }
}
