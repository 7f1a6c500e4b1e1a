//! The variables of a derivation in close numbers, which tables go by. As solvers call them, a variable's own number is
//! external, and that of the tables internal.

ghost use Rattle.std.specs.Prelude.{◌≡◌, ◌<◌, ◌↔◌, ◌^◌, ℕ, IsTrue, IsSome, IfOk, IfSome, OnOk, All, Any, Contains};
ghost use Rattle.std.specs.List.Sorted.{IsStrictlyIncreasing};
ghost use Rattle.unit_propagation.specs.Units.{IsWithin};
ghost use Rattle.refutation_checker.specs.Variables.{width, external, renamed, external_clause};
ghost use Rattle.refutation_checker.specs.Variables.{HasVariable, IsNumbering, Numbers, AreOthers, IsOther};
ghost use Rattle.refutation_checker.specs.Variables.{AddsOther, AddsOthers};

use cnf_core::{Clause, Lit};
use sqlite_items::Items;
use std::alloc::{AllocError, Global};
use std::marker::Model;
use unit_propagation::LitCode;

/// Variable 0 and the inputs keep their numbers, and those past the inputs that occur follow in order.
#[derive(Drop)]
pub struct Variables {
    inputs: u32,
    zero: bool,
    others: Vec<u32>,
}

impl Model for Variables {
    ghost use Rattle.refutation_checker.specs.Variables.{Numbering};

    ghost Value = { Numbering };

    ghost use Rattle.refutation_checker.specs.VariablesFields.{numbering_of, IsVariables};

    ghost view = { numbering_of };

    ghost invariant = { IsVariables };
}

impl Variables {
    /// The inputs and the variables of the clauses.
    pub fn new(alloc: Global, clauses: &[Clause], inputs: u32) -> Result<Variables, AllocError>
        ensures inputs { IfOk result (λ v. v.inputs ≡ inputs) }
        ensures variables { IfOk result (λ v. Numbers v inputs clauses.now) }
    {
        let mut others = others_of(alloc, clauses, inputs)?;
        sort_distinct(&mut others);
        Ok(Variables {
            inputs,
            zero: have_zero(clauses),
            others,
        })
    }

    pub fn inputs(&self) -> u32
        ensures { result ≡ self.now.inputs }
    {
        self.inputs
    }

    /// Internal numbers are below it.
    pub fn width(&self) -> usize
        ensures is { result ≡ width self.now }
        ensures bound { result < 2 ^ 62 }
        ensures numbering { IsNumbering self.now }
    {
        self.inputs as usize + 1 + self.others.len()
    }

    /// The literal of the internal number, where the variable is one of these.
    pub fn internal(&self, l: Lit) -> Option<Lit>
        ensures is { IfSome result (λ k. renamed (external self.now) k ≡ l) }
        ensures within { IfSome result (λ k. k.var < width self.now) }
        ensures found { IsSome result ↔ HasVariable self.now l.var }
    {
        let var = self.number(l.var)?;
        Some(Lit {
            var,
            positive: l.positive,
        })
    }

    fn number(&self, var: u32) -> Option<u32>
        ensures is { IfSome result (λ number. external self.now number ≡ var) }
        ensures within { IfSome result (λ number. number < width self.now) }
        ensures found { IsSome result ↔ HasVariable self.now var }
    {
        if var == 0 {
            return if self.zero { Some(0) } else { None };
        }
        if var <= self.inputs {
            return Some(var);
        }
        match self.others.binary_search(&var) {
            Ok(place) => Some(self.inputs + 1 + place as u32),
            Err(_) => None,
        }
    }

    /// The literal of the variable of the internal number.
    pub fn external(&self, l: Lit) -> Lit
        requires { l.var < width self.now }
        ensures { result ≡ renamed (external self.now) l }
    {
        if l.var <= self.inputs {
            return l;
        }
        Lit {
            var: self.others[(l.var - self.inputs - 1) as usize],
            positive: l.positive,
        }
    }

    /// The clause in internal numbers.
    pub fn internal_clause(&self, alloc: Global, clause: &[Lit]) -> Result<Clause, AllocError>
        requires { All (λ l. HasVariable self.now l.var) clause.now }
        ensures is { IfOk result (λ lits. external_clause self.now lits ≡ clause.now) }
        ensures within { IfOk result (λ lits. IsWithin (width self.now) lits) }
    {
        let mut lits = Vec::with_capacity(alloc, clause.len())?;
        for l in clause {
            match self.internal(*l) {
                Some(l) => lits.push(l)?,
                None => unreachable!(),
            }
        }
        Ok(Items::from_vec(lits))
    }

    /// The clause of internal numbers in the variables' own.
    pub fn external_clause(&self, alloc: Global, clause: &[LitCode]) -> Result<Clause, AllocError>
        requires { IsWithin (width self.now) clause.now }
        ensures { IfOk result (λ lits. lits ≡ external_clause self.now clause.now) }
    {
        let mut lits = Vec::with_capacity(alloc, clause.len())?;
        for l in clause {
            lits.push(self.external(l.lit()))?;
        }
        Ok(Items::from_vec(lits))
    }
}

fn have_zero(clauses: &[Clause]) -> bool
    ensures { IsTrue result ↔ Any (Any (λ l. l.var ≡ 0)) clauses.now }
{
    clauses.iter().any(has_zero)
}

fn has_zero(clause: &Clause) -> bool
    ensures { IsTrue result ↔ Any (λ l. l.var ≡ 0) clause.now }
{
    clause.as_slice().iter().any(|l| l.var == 0)
}

/// The variables past the inputs, each as often as it occurs.
fn others_of(alloc: Global, clauses: &[Clause], inputs: u32) -> Result<Vec<u32>, AllocError>
    ensures range { IfOk result (λ others. AreOthers inputs others.items) }
    ensures are { IfOk result (λ others. (var : ℕ) →
        Contains others.items var ↔ Any (Any (IsOther inputs var)) clauses.now) }
{
    let mut others = Vec::new(alloc);
    for clause in clauses {
        add_others(&mut others, clause.as_slice(), inputs)?;
    }
    Ok(others)
}

fn add_others(others: &mut Vec<u32>, lits: &[Lit], inputs: u32) -> Result<(), AllocError>
    requires { AreOthers inputs others.old.items }
    ensures range { AreOthers inputs others.new.items }
    ensures adds { OnOk result (AddsOthers inputs others.old.items others.new.items lits.now) }
{
    for l in lits {
        add_other(others, *l, inputs)?;
    }
    Ok(())
}

fn add_other(others: &mut Vec<u32>, l: Lit, inputs: u32) -> Result<(), AllocError>
    requires { AreOthers inputs others.old.items }
    ensures range { AreOthers inputs others.new.items }
    ensures adds { OnOk result (AddsOther inputs others.old.items others.new.items l) }
{
    if l.var > inputs {
        others.push(l.var)?;
        return Ok(());
    }
    Ok(())
}

/// Leaves each number once, in order.
fn sort_distinct(numbers: &mut Vec<u32>)
    ensures rising { IsStrictlyIncreasing numbers.new.items }
    ensures same { (n : ℕ) → Contains numbers.new.items n ↔ Contains numbers.old.items n }
{
    numbers.sort_unstable();
    numbers.dedup();
    numbers.shrink_to_fit();
}
