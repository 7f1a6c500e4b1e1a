//! A circuit that is being built.
ghost use Rattle.std.specs.Prelude.{◌≡◌, ◌<◌, ◌^◌, [], List, Bool, length, IfOk, OnErr};
ghost use Rattle.bit_blaster.specs.Gate.{AreGates, GateFits, all_values, gate_value};
ghost use Rattle.bit_blaster.specs.Netlist.{Extends, HasWire, StandsFor, variable_count};

use crate::gate::Gate;
use crate::wire::Wire;
use cnf_core::Lit;
use std::alloc::{AllocError, Global};
use std::marker::Model;

/// Inputs, which are the variables from 1 on, and gates, each of which is a variable after those that it stands on.
#[derive(Drop)]
pub struct Circuit {
    alloc: Global,
    inputs: u32,
    gates: Vec<Gate>,
}

impl Model for Circuit {
    ghost use Rattle.std.specs.Prelude.{◌+◌, ◌<◌, ◌^◌, length};
    ghost use Rattle.bit_blaster.specs.Netlist.{Netlist};
    ghost use Rattle.bit_blaster.specs.Gate.{AreGates};

    ghost Value = { Netlist };

    ghost view = { λ c. record { inputs = c.inputs; gates = c.gates.items } };

    ghost invariant = { λ c. (c.inputs + length c.gates.items < 2 ^ 32)
        × AreGates c.inputs c.gates.items };
}

impl Circuit {
    /// A circuit of inputs alone.
    pub(crate) fn new(alloc: Global, inputs: u32) -> Circuit
        ensures inputs { result.inputs ≡ inputs }
        ensures gates { result.gates ≡ [] }
    {
        Circuit {
            alloc,
            inputs,
            gates: Vec::new(alloc),
        }
    }

    pub(crate) fn alloc(&self) -> Global {
        self.alloc
    }

    pub(crate) fn inputs(&self) -> u32
        ensures { result ≡ self.now.inputs }
    {
        self.inputs
    }

    /// The gates in order. There are no more variables than a `u32` numbers.
    pub(crate) fn gates(&self) -> &[Gate]
        ensures gates { result.now ≡ self.now.gates }
        ensures order { AreGates self.now.inputs self.now.gates }
        ensures count { variable_count self.now < 2 ^ 32 }
    {
        self.gates.as_slice()
    }

    #[tactic(auto, using(crate::proofs::NetlistLemmas::extends_by, crate::proofs::NetlistLemmas::extends_itself, crate::proofs::NetlistLemmas::has_gate, crate::proofs::NetlistLemmas::gate_stands, crate::proofs::NetlistLemmas::are_gates_more))]
    /// The wire of a new gate. More variables than a `u32` numbers are want of memory.
    pub(crate) fn add_gate(&mut self, gate: Gate) -> Result<Wire, AllocError>
        requires { GateFits (variable_count self.old) gate }
        ensures extends { Extends self.old self.new }
        ensures has { IfOk result (HasWire self.new) }
        ensures value { IfOk result (λ w. (inputs : List Bool) → length inputs ≡ self.old.inputs
            → StandsFor self.new inputs w (gate_value (all_values inputs self.old.gates) gate)) }
    {
        let before = self.inputs as usize + self.gates.len();
        if before >= u32::MAX as usize {
            return Err(AllocError);
        }
        self.gates.push(gate)?;
        Ok(Wire::Literal(Lit {
            var: before as u32 + 1,
            positive: true,
        }))
    }
}
