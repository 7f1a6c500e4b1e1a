//! The clauses of a circuit, by Tseitin's transformation.
ghost use Rattle.std.specs.Prelude.{◌≡◌, ◌∷◌, ◌++◌, [], IfOk, OnOk};
ghost use Rattle.std.specs.List.{All};
ghost use Rattle.bit_blaster.specs.Gate.{AreGates};
ghost use Rattle.bit_blaster.specs.Clauses.{IsClauseOf, IsExact, IsSettled};
ghost use Rattle.bit_blaster.specs.Netlist.{HasWire, variable_count};
ghost use Rattle.bit_blaster.specs.Tseitin.{agreement_clauses, gate_clauses, gates_clauses, goal_clauses};

use crate::circuit::Circuit;
use crate::gate::Gate;
use crate::wire::Wire;
use cnf_core::{Clause, Clauses, Lit};
use sqlite_items::Items;
use std::alloc::{AllocError, Global};

impl Circuit {
    /// The clauses that say what each gate makes of its operands, and that the goal is true.
    #[tactic(auto, using(crate::proofs::FormulaLemmas::formula_exact, crate::proofs::FormulaLemmas::formula_settled))]
    pub(crate) fn clauses(&self, goal: Wire) -> Result<Clauses, AllocError>
        requires { HasWire self.now goal }
        ensures exact { IfOk result (IsExact self.now goal) }
        ensures settled { IfOk result (IsSettled self.now) }
        ensures variables { IfOk result (All (IsClauseOf (variable_count self.now))) }
    {
        let mut clauses = self.gate_clauses()?;
        push_goal(self.alloc(), goal, &mut clauses)?;
        Ok(Items::from_vec(clauses))
    }

    /// What the gates say.
    fn gate_clauses(&self) -> Result<Vec<Clause>, AllocError>
        ensures clauses { IfOk result (λ clauses. clauses.items
            ≡ gates_clauses self.now.inputs self.now.gates) }
        ensures order { AreGates self.now.inputs self.now.gates }
    {
        let gates = self.gates();
        let mut clauses = Vec::new(self.alloc());
        for place in 0..gates.len() {
            let output = Lit {
                var: self.inputs() + place as u32 + 1,
                positive: true,
            };
            push_gate(self.alloc(), gates[place], output, &mut clauses)?;
        }
        Ok(clauses)
    }
}

/// That the output is what the gate makes of its operands.
fn push_gate(
    alloc: Global,
    gate: Gate,
    output: Lit,
    clauses: &mut Vec<Clause>,
) -> Result<(), AllocError>
    ensures { OnOk result (clauses.new.items
        ≡ clauses.old.items ++ gate_clauses gate output) }
{
    match gate {
        Gate::And(a, b) => {
            push(alloc, &[a, !output], clauses)?;
            push(alloc, &[b, !output], clauses)?;
            push(alloc, &[!a, !b, output], clauses)
        }
        Gate::Xor(a, b) => {
            push(alloc, &[!a, !b, !output], clauses)?;
            push(alloc, &[!a, b, output], clauses)?;
            push(alloc, &[a, !b, output], clauses)?;
            push(alloc, &[a, b, !output], clauses)
        }
        Gate::Choose(condition, a, b) => {
            push(alloc, &[!condition, !a, output], clauses)?;
            push(alloc, &[!condition, a, !output], clauses)?;
            push(alloc, &[condition, !b, output], clauses)?;
            push(alloc, &[condition, b, !output], clauses)
        }
        Gate::Majority(a, b, c) => {
            push_agreement(alloc, a, b, output, clauses)?;
            push_agreement(alloc, a, c, output, clauses)?;
            push_agreement(alloc, b, c, output, clauses)
        }
    }
}

/// That the output is what two operands agree on.
fn push_agreement(
    alloc: Global,
    a: Lit,
    b: Lit,
    output: Lit,
    clauses: &mut Vec<Clause>,
) -> Result<(), AllocError>
    ensures { OnOk result (clauses.new.items
        ≡ clauses.old.items ++ agreement_clauses a b output) }
{
    push(alloc, &[!a, !b, output], clauses)?;
    push(alloc, &[a, b, !output], clauses)
}

/// That the goal is true.
fn push_goal(alloc: Global, goal: Wire, clauses: &mut Vec<Clause>) -> Result<(), AllocError>
    ensures { OnOk result (clauses.new.items ≡ clauses.old.items ++ goal_clauses goal) }
{
    match goal {
        Wire::Known(true) => Ok(()),
        Wire::Known(false) => push(alloc, &[], clauses),
        Wire::Literal(l) => push(alloc, &[l], clauses),
    }
}

fn push(alloc: Global, clause: &[Lit], clauses: &mut Vec<Clause>) -> Result<(), AllocError>
    ensures { OnOk result (clauses.new.items ≡ clauses.old.items ++ clause.now ∷ []) }
{
    clauses.push(Items::from_slice(alloc, clause)?)?;
    Ok(())
}
