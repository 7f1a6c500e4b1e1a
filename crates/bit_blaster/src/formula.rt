//! Terms as formulas, and the bits that they are about.
ghost use Rattle.std.specs.Prelude.{◌≡◌, ◌<◌, ◌^◌, IfOk, if◌then◌else◌, length, slice_index_or, false};
ghost use Rattle.std.specs.List.{All};
ghost use Rattle.cnf_core.specs.Determined.{AreNumbered, IsDetermined};
ghost use Rattle.cnf_core.specs.Literal.{IsApart};
ghost use Rattle.term_dag.specs.Width.{width_of};
ghost use Rattle.bit_blaster.specs.Vars.{AreVarsOf, IsFormulaOf};
ghost use Rattle.bit_blaster.specs.declared.wire.Wire.TheVariants.{Known};

use crate::circuit::Circuit;
use crate::marks::marks_of;
use crate::read_widths::asks_one_width;
use crate::term_words::words_of;
use crate::variables::Variables;
use crate::wire::Wire;
use cnf_core::{Clauses, Var};
use sqlite_items::Items;
use std::alloc::{AllocError, Global};
use term_dag::{Dag, Term};

/// A term as a formula: variable `n` stands for the bit at place `n - 1`, and the variables after those for gates.
#[derive(Debug, Drop)]
pub struct Blasted {
    pub vars: Items<Var>,
    pub clauses: Clauses,
}

/// The formula that is true where the term is 1. More clauses or variables than a `u32` numbers are want of memory.
pub fn clauses_of(alloc: Global, dag: &Dag, t: Term) -> Result<Blasted, AllocError>
    requires within { t.number < length dag.now }
    requires one_bit { width_of dag.now t ≡ 1 }
    ensures vars { IfOk result (λ b. AreVarsOf dag.now t b.vars) }
    ensures few_vars { IfOk result (λ b. length b.vars < 2 ^ 32) }
    ensures few_clauses { IfOk result (λ b. length b.clauses < 2 ^ 32) }
    ensures formula { IfOk result (λ b. IsFormulaOf dag.now t b.vars b.clauses) }
    ensures determined { IfOk result (λ b. IsDetermined (length b.vars) b.clauses) }
    ensures numbered { IfOk result (λ b. AreNumbered b.clauses) }
    ensures apart { IfOk result (λ b. All IsApart b.clauses) }
{
    let _ = dag.len();
    let marks = marks_of(alloc, dag, t)?;
    let variables = Variables::of(alloc, dag, t, &marks)?;
    let mut circuit = Circuit::new(alloc, variables.count());
    let words = words_of(&mut circuit, dag, t, &marks, &variables)?;
    let one_width = asks_one_width(dag, t, &marks, &variables);
    let clauses = circuit.clauses(goal_of(words[t.number].as_slice(), one_width))?;
    if clauses.len() > u32::MAX as usize {
        return Err(AllocError);
    }
    let vars = variables.into_items(alloc)?;
    Ok(Blasted { vars, clauses })
}

/// The bits that the term mentions: inputs by rising number, and then reads by rising number and bit.
pub fn bits_of(alloc: Global, dag: &Dag, t: Term) -> Result<Items<Var>, AllocError>
    requires { t.number < length dag.now }
    ensures vars { IfOk result (AreVarsOf dag.now t) }
    ensures few { IfOk result (λ vars. length vars < 2 ^ 32) }
{
    let marks = marks_of(alloc, dag, t)?;
    Variables::of(alloc, dag, t, &marks)?.into_items(alloc)
}

/// The wire of a word of one bit. A term that asks for a read in two widths is 1 nowhere, since no point gives it both.
fn goal_of(word: &[Wire], one_width: bool) -> Wire
    requires { length word.now ≡ 1 }
    ensures { result
        ≡ (if one_width then slice_index_or word.now 0 (Known false) else Known false) }
{
    if one_width {
        word[0]
    } else {
        Wire::Known(false)
    }
}
