//! The lines of a record so far, and which line may come next.
ghost use Rattle.std.specs.Prelude.{◌≡◌, IfOk};
ghost use Rattle.proof_stream.specs.declared.draft.Draft.TheVariants as draft;
ghost use Rattle.proof_stream.specs.declared.line.Line.TheVariants as line;
ghost use Rattle.proof_stream.specs.Drafts.{is_about_input, is_right_at, ended_record, opened, takes_at, takes_var, takes_clause, takes_more, is_end_of, next_of, next};

use crate::hex_value::Values;
use crate::line::Line;
use crate::record::{End, Kind, Record, Truths};
use cnf_core::{Clause, Clauses, Derived, Steps, Var};
use sqlite_items::Items;
use std::alloc::{AllocError, Global};

/// A question as far as its lines have come.
#[derive(Debug, Drop)]
pub(crate) struct Question {
    pub kind: Kind,
    pub at: Option<Truths>,
    pub vars: Items<Var>,
    pub clauses: Clauses,
    pub derived: Steps,
}

/// A record as far as its lines have come.
#[derive(Debug, Drop)]
pub(crate) enum Draft {
    Empty,
    Asked(Question),
    Target(u32),
    TargetAt(u32, Truths),
    TargetRuns(u32, Truths, Values),
    /// No line is missing.
    Whole(Record),
}

fn is_about_input(kind: Kind) -> bool
    ensures { result ≡ is_about_input kind }
{
    match kind {
        Kind::Reach(_) | Kind::Steady(_) => false,
        Kind::Break(_) | Kind::Nibble(_, _) => true,
    }
}

fn opened(alloc: Global, kind: Kind) -> Question
    ensures { result ≡ opened kind }
{
    Question {
        kind,
        at: None,
        vars: Items::new(alloc),
        clauses: Items::new(alloc),
        derived: Items::new(alloc),
    }
}

fn is_right_at(kind: Kind, at: &Option<Truths>) -> bool
    ensures { result ≡ is_right_at kind at.now }
{
    match kind {
        Kind::Reach(_) | Kind::Steady(_) => at.is_none(),
        Kind::Break(_) | Kind::Nibble(_, _) => at.is_some(),
    }
}

fn takes_at(q: &Question) -> bool
    ensures { result ≡ takes_at q.now }
{
    is_about_input(q.kind) && q.at.is_none() && q.vars.is_empty()
}

fn takes_var(q: &Question) -> bool
    ensures { result ≡ takes_var q.now }
{
    is_right_at(q.kind, &q.at) && q.clauses.is_empty() && q.derived.is_empty()
}

fn takes_clause(q: &Question) -> bool
    ensures { result ≡ takes_clause q.now }
{
    !q.vars.is_empty() && q.derived.is_empty()
}

fn takes_more(q: &Question) -> bool
    ensures { result ≡ takes_more q.now }
{
    !q.vars.is_empty()
}

fn is_end_of(vars: &Items<Var>, end: &End) -> bool
    ensures { result ≡ is_end_of vars.now end.now }
{
    match end {
        End::Sat(bits) => bits.len() == vars.len(),
        End::Unsat | End::Spent => true,
    }
}

fn ended(q: Question, end: End) -> Record
    ensures { result ≡ ended_record q end }
{
    let Question {
        kind,
        at,
        vars,
        clauses,
        derived,
    } = q;
    Record::Asked {
        kind,
        at,
        vars,
        clauses,
        derived,
        end,
    }
}

fn with_at(mut q: Question, bits: Truths) -> Option<Draft>
    ensures { result ≡ next_of q (line.At bits) }
{
    if !takes_at(&q) {
        return None;
    }
    q.at = Some(bits);
    Some(Draft::Asked(q))
}

fn with_var(mut q: Question, var: Var) -> Result<Option<Draft>, AllocError>
    ensures { IfOk result (λ found. found ≡ next_of q (line.Var var)) }
{
    if !takes_var(&q) {
        return Ok(None);
    }
    q.vars.push(var)?;
    Ok(Some(Draft::Asked(q)))
}

fn with_clause(mut q: Question, clause: Clause) -> Result<Option<Draft>, AllocError>
    ensures { IfOk result (λ found. found ≡ next_of q (line.Clause clause)) }
{
    if !takes_clause(&q) {
        return Ok(None);
    }
    q.clauses.push(clause)?;
    Ok(Some(Draft::Asked(q)))
}

fn with_derived(mut q: Question, derived: Derived) -> Result<Option<Draft>, AllocError>
    ensures { IfOk result (λ found. found ≡ next_of q (line.Derived derived)) }
{
    if !takes_more(&q) {
        return Ok(None);
    }
    q.derived.push(derived)?;
    Ok(Some(Draft::Asked(q)))
}

fn with_end(q: Question, end: End) -> Option<Draft>
    ensures { result ≡ next_of q (line.End end) }
{
    if takes_more(&q) && is_end_of(&q.vars, &end) {
        Some(Draft::Whole(ended(q, end)))
    } else {
        None
    }
}

/// The question with one more line, where it may stand there.
fn next_of(q: Question, line: Line) -> Result<Option<Draft>, AllocError>
    ensures { IfOk result (λ found. found ≡ next_of q line) }
{
    match line {
        Line::At(bits) => Ok(with_at(q, bits)),
        Line::Var(var) => with_var(q, var),
        Line::Clause(clause) => with_clause(q, clause),
        Line::Derived(derived) => with_derived(q, derived),
        Line::End(end) => Ok(with_end(q, end)),
        _other => Ok(None),
    }
}

/// The draft with a first line.
#[tactic(auto, unfolding(crate::specs::Drafts::next))]
fn with_head(alloc: Global, line: Line) -> Option<Draft>
    ensures { result ≡ next draft.Empty line }
{
    match line {
        Line::Head(kind) => Some(Draft::Asked(opened(alloc, kind))),
        Line::Broken(target) => Some(Draft::Target(target)),
        _other => None,
    }
}

#[tactic(auto, unfolding(crate::specs::Drafts::next))]
fn with_input(target: u32, line: Line) -> Option<Draft>
    ensures { result ≡ next (draft.Target target) line }
{
    match line {
        Line::At(at) => Some(Draft::TargetAt(target, at)),
        _other => None,
    }
}

#[tactic(auto, unfolding(crate::specs::Drafts::next))]
fn with_runs(target: u32, at: Truths, line: Line) -> Option<Draft>
    ensures { result ≡ next (draft.TargetAt target at) line }
{
    match line {
        Line::Runs(runs) => Some(Draft::TargetRuns(target, at, runs)),
        _other => None,
    }
}

#[tactic(auto, unfolding(crate::specs::Drafts::next))]
fn with_breaks(target: u32, at: Truths, runs: Values, line: Line) -> Option<Draft>
    ensures { result ≡ next (draft.TargetRuns target at runs) line }
{
    match line {
        Line::Breaks(breaks) => Some(Draft::Whole(Record::Broken {
            target,
            at,
            runs,
            breaks,
        })),
        _other => None,
    }
}

/// The draft with one more line, where it may stand there.
#[tactic(auto, unfolding(crate::specs::Drafts::next))]
pub(crate) fn next(alloc: Global, old: Draft, line: Line) -> Result<Option<Draft>, AllocError>
    ensures { IfOk result (λ found. found ≡ next old line) }
{
    match old {
        Draft::Empty => Ok(with_head(alloc, line)),
        Draft::Asked(q) => next_of(q, line),
        Draft::Target(target) => Ok(with_input(target, line)),
        Draft::TargetAt(target, at) => Ok(with_runs(target, at, line)),
        Draft::TargetRuns(target, at, runs) => Ok(with_breaks(target, at, runs, line)),
        Draft::Whole(_record) => Ok(None),
    }
}
