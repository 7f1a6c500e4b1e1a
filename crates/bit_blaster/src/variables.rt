//! The variables of a term: the bits of its inputs and reads, in order.
ghost use Rattle.std.specs.Prelude.{◌≡◌, ◌<◌, ◌↔◌, ◌^◌, IfOk, IsTrue, OnOk, length};
ghost use Rattle.std.specs.List.{Contains};
ghost use Rattle.bit_blaster.specs.TermWord.{IsWireOfVar};
ghost use Rattle.term_dag.specs.Marks.{AreMarks};
ghost use Rattle.term_dag.specs.declared.node.Node.TheVariants.{Input as InputNode, Read as ReadNode};
ghost use Rattle.bit_blaster.specs.Vars.{AreVarsOf, Gains, Names};

use crate::wire::Wire;
use cnf_core::{Lit, Var};
use indexmap::IndexSet;
use sqlite_items::Items;
use std::alloc::{AllocError, Global};
use std::marker::Model;
use term_dag::{Dag, Node, Term};

/// Bits by their numbers: variable `n` stands at place `n - 1`.
#[derive(Drop)]
pub(crate) struct Variables {
    vars: IndexSet<Var>,
}

impl Model for Variables {
    ghost use Rattle.std.specs.Prelude.{◌<◌, ◌^◌, List, length};
    ghost use Rattle.cnf_core.specs.declared.derivation.Var.{Var};

    ghost Value = { List Var };

    ghost view = { λ v. v.vars.keys };

    ghost invariant = { λ v. length v.vars.keys < 2 ^ 32 };
}

impl Variables {
    /// The bits that the term mentions, from the marks of what it is made of.
    pub(crate) fn of(
        alloc: Global,
        dag: &Dag,
        t: Term,
        marks: &Vec<bool>,
    ) -> Result<Variables, AllocError>
        requires within { t.number < length dag.now }
        requires marks { AreMarks dag.now t marks.now.items }
        ensures { IfOk result (AreVarsOf dag.now t) }
    {
        let mut vars = IndexSet::new(alloc);
        for number in 0..marks.len() {
            if marks[number] {
                add_bits(dag.node(Term { number }), &mut vars)?;
            }
        }
        let _ = t;
        vars.sort()?;
        if vars.len() > u32::MAX as usize {
            return Err(AllocError);
        }
        Ok(Variables { vars })
    }

    /// How many bits there are, which a `u32` numbers.
    pub(crate) fn count(&self) -> u32
        ensures count { result ≡ length self.now }
        ensures few { length self.now < 2 ^ 32 }
    {
        self.vars.len() as u32
    }

    /// Whether the bit has a variable.
    #[tactic(auto, using(crate::proofs::VariableLemmas::found_contained))]
    pub(crate) fn has(&self, var: Var) -> bool
        ensures { IsTrue result ↔ Contains self.now var }
    {
        let _ = &self.vars;
        self.vars.contains(&var)
    }

    /// The variable that stands for the bit.
    #[tactic(auto, using(crate::proofs::VariableLemmas::always_found, crate::proofs::VariableLemmas::found_variable))]
    pub(crate) fn wire(&self, var: Var) -> Wire
        requires { Contains self.now var }
        ensures { IsWireOfVar self.now result var }
    {
        let _ = &self.vars;
        match self.vars.get_index_of(&var) {
            Some(place) => Wire::Literal(Lit {
                var: place as u32 + 1,
                positive: true,
            }),
            None => Wire::Known(false),
        }
    }

    /// The bits in order.
    pub(crate) fn into_items(self, alloc: Global) -> Result<Items<Var>, AllocError>
        ensures bits { IfOk result (λ vars. vars ≡ self) }
        ensures few { length self < 2 ^ 32 }
    {
        Items::from_slice(alloc, self.vars.as_slice())
    }
}

/// Adds the bits that the node names. One past the last that a `u32` numbers is want of memory.
#[tactic(auto, using(crate::proofs::VariableLemmas::names_nothing))]
fn add_bits(node: Node, vars: &mut IndexSet<Var>) -> Result<(), AllocError>
    ensures { OnOk result (Gains vars.old.keys vars.new.keys (Names node)) }
{
    match node {
        Node::Input(first, width) => add_input(first, width, vars),
        Node::Read(read, width) => add_read(read, width, vars),
        _ => Ok(()),
    }
}

/// Adds so many bits of the input from this one on.
#[tactic(auto, using(crate::proofs::VariableLemmas::one_more_input, crate::proofs::VariableLemmas::no_input))]
fn add_input(first: u32, width: u8, vars: &mut IndexSet<Var>) -> Result<(), AllocError>
    ensures { OnOk result (Gains vars.old.keys vars.new.keys (Names (InputNode first width))) }
{
    for place in 0..width {
        match first.checked_add(place as u32) {
            Some(bit) => add(Var::Input(bit), vars)?,
            None => return Err(AllocError),
        }
    }
    Ok(())
}

/// Adds the lowest bits of the read.
#[tactic(auto, using(crate::proofs::VariableLemmas::one_more_read, crate::proofs::VariableLemmas::no_read))]
fn add_read(read: u32, width: u8, vars: &mut IndexSet<Var>) -> Result<(), AllocError>
    ensures { OnOk result (Gains vars.old.keys vars.new.keys (Names (ReadNode read width))) }
{
    for place in 0..width {
        add(Var::Read(read, place as u32), vars)?;
    }
    Ok(())
}

#[tactic(auto, using(crate::proofs::VariableLemmas::inserted))]
fn add(var: Var, vars: &mut IndexSet<Var>) -> Result<(), AllocError>
    ensures { OnOk result (Gains vars.old.keys vars.new.keys (λ v. v ≡ var)) }
{
    match vars.insert(var) {
        Ok(_) => Ok(()),
        Err(_) => Err(AllocError),
    }
}
