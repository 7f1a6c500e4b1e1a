//! What a question asks, as clauses.
ghost use Rattle.std.specs.Prelude.{◌≡◌, ◌<◌, ◌^◌, ◌∷◌, ◌++◌, ◌↔◌, List, [], IfOk, IsTrue, length, map, Some};
ghost use Rattle.std.specs.List.{All};
ghost use Rattle.cnf_core.specs.Determined.{AreNumbered};
ghost use Rattle.cnf_core.specs.Literal.{IsApart};
ghost use Rattle.term_dag.specs.Width.{IsDag, width_of};
ghost use Rattle.term_dag.specs.declared.node.Node.{Node as NodeValue};
ghost use Rattle.term_dag.specs.declared.node.Term.{Term as TermNumber};
ghost use Rattle.bit_blaster.specs.Vars.{AreVarsOf, AsksOneWidth};
ghost use Rattle.query_engine.specs.About.{IsAbout};
ghost use Rattle.query_engine.specs.Question.{FixesInputs, IsLeft, fixed_of};

use crate::base::Base;
use crate::point::point_with;
use crate::question::Question;
use bit_blaster::{Blasted, bits_of, clauses_of};
use cnf_core::{Clauses, Var};
use proof_stream::Truths;
use sqlite_items::Items;
use std::alloc::{AllocError, Global};
use term_dag::{Dag, Fixed, Term};

/// The bits of the question's term that are not fixed, and clauses about the question over them; `all` has all bits of the
/// term. A term that asks for a read in two widths is 1 nowhere, also where what is left of it asks for one of them alone.
/// More than 2^32 fixed bits are want of memory.
pub(crate) fn question_clauses(
    alloc: Global,
    base: &mut Base,
    question: &Question,
    all: &[Var],
) -> Result<Blasted, AllocError>
    requires within { question.now.term.number < length base.old.domain.dag }
    requires one_bit { width_of base.old.domain.dag question.now.term ≡ 1 }
    requires inputs { FixesInputs base.old.domain.dag question.now.term question.now.at }
    requires all { AreVarsOf base.old.domain.dag question.now.term all.now }
    ensures keeps { (more : List NodeValue)
        × (base.new.domain.dag ≡ base.old.domain.dag ++ more) }
    ensures dag { IsDag base.new.domain.dag }
    ensures about { IfOk result (λ b. IsAbout base.new.domain.dag question.now b.vars b.clauses) }
    ensures left { IfOk result (λ b. (left : TermNumber)
        × IsLeft base.new.domain.dag question.now left
        × AreVarsOf base.new.domain.dag left b.vars) }
    ensures few_vars { IfOk result (λ b. length b.vars < 2 ^ 32) }
    ensures numbered { IfOk result (λ b. AreNumbered b.clauses) }
    ensures apart { IfOk result (λ b. All IsApart b.clauses) }
{
    let _ = (base.domain.dag.len(), all.len());
    let one_width = asks_one_width(alloc, &base.domain.dag, question, all)?;
    let left = left_of(alloc, &mut base.domain.dag, question)?;
    if one_width {
        clauses_of(alloc, &base.domain.dag, left)
    } else {
        never(alloc, &base.domain.dag, left)
    }
}

/// The question's term with the fixed bits put in.
fn left_of(alloc: Global, dag: &mut Dag, question: &Question) -> Result<Term, AllocError>
    requires { question.now.term.number < length dag.old }
    ensures keeps { (more : List NodeValue) × (dag.new ≡ dag.old ++ more) }
    ensures dag { IsDag dag.new }
    ensures within { question.now.term.number < length dag.new }
    ensures width { IfOk result (λ left. width_of dag.new left
        ≡ width_of dag.old question.now.term) }
    ensures left { IfOk result (IsLeft dag.new question.now) }
{
    let _ = dag.len();
    let fixed = fixed(alloc, &question.at)?;
    dag.substitute(question.term, &fixed)
}

/// Whether the question's term asks for each read in one width: whether it stands for a number where all its bits are there.
fn asks_one_width(
    alloc: Global,
    dag: &Dag,
    question: &Question,
    all: &[Var],
) -> Result<bool, AllocError>
    requires within { question.now.term.number < length dag.now }
    requires inputs { FixesInputs dag.now question.now.term question.now.at }
    requires all { AreVarsOf dag.now question.now.term all.now }
    ensures { IfOk result (λ b. IsTrue b ↔ AsksOneWidth dag.now question.now.term) }
{
    let _ = dag.len();
    let point = point_with(alloc, dag, question, all, &[], &[])?;
    Ok(dag.value_at(question.term, &point)?.is_some())
}

/// The term's bits, and clauses that no values of them satisfy.
fn never(alloc: Global, dag: &Dag, t: Term) -> Result<Blasted, AllocError>
    requires { t.number < length dag.now }
    ensures vars { IfOk result (λ b. AreVarsOf dag.now t b.vars) }
    ensures few_vars { IfOk result (λ b. length b.vars < 2 ^ 32) }
    ensures clauses { IfOk result (λ b. b.clauses ≡ [] ∷ []) }
{
    let vars = bits_of(alloc, dag, t)?;
    let mut clauses = Clauses::new(alloc);
    clauses.push(Items::new(alloc))?;
    Ok(Blasted { vars, clauses })
}

/// The fixed bits, each at its place.
fn fixed(alloc: Global, at: &Option<Truths>) -> Result<Fixed, AllocError>
    ensures is { IfOk result (λ f. f ≡ fixed_of at.now) }
    ensures few { IfOk result (λ f. length f.inputs < 2 ^ 32) }
{
    let inputs = match at {
        Some(bits) => fixed_bits(alloc, bits.as_slice())?,
        None => Items::new(alloc),
    };
    Ok(Fixed {
        inputs,
        reads: Items::new(alloc),
    })
}

fn fixed_bits(alloc: Global, bits: &[bool]) -> Result<Items<Option<bool>>, AllocError>
    ensures is { IfOk result (λ f. f ≡ map Some bits.now) }
    ensures few { IfOk result (λ f. length f < 2 ^ 32) }
{
    if bits.len() > u32::MAX as usize {
        return Err(AllocError);
    }
    Ok(Items::from_vec(optional(alloc, bits)?))
}

fn optional(alloc: Global, bits: &[bool]) -> Result<Vec<Option<bool>>, AllocError>
    ensures { IfOk result (λ optional. optional.items ≡ map Some bits.now) }
{
    bits.iter().map(|bit| Some(*bit)).collect(alloc)
}
