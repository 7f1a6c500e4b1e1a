//! What belongs to the switch of v1model: its control blocks, and the drop port.
ghost use Rattle.std.specs.Prelude.{◌≡◌, ◌<◌};

use std::marker::Model;

/// The port that stands for a drop.
pub const DROP_PORT: u16 = 511;

/// How many values a port has, which has nine bits.
pub const PORT_END: u16 = 512;

/// A control block of a program (v1model.p4, `V1Switch`).
#[derive(Clone, Copy, Debug, PartialEq, Eq)]
pub enum Block {
    /// The checksum check.
    Verify,
    Ingress,
    Egress,
    /// The checksum update.
    Compute,
    Deparser,
}

/// A value of the standard metadata's `egress_spec`, which has nine bits (v1model.p4,
/// `standard_metadata_t`). Contracts see the number.
#[derive(Clone, Copy, Debug)]
pub struct EgressSpec {
    value: u16,
}

impl Model for EgressSpec {
    ghost use Rattle.std.specs.Prelude.{ℕ, ◌<◌};
    ghost use Rattle.p4_program.specs.declared.v1model.TheConstants.{PORT_END};

    ghost Value = { ℕ };

    ghost view = { λ spec. spec.value };

    ghost invariant = { λ spec. spec.value < PORT_END };

    ghost inverse = { λ value. record { value = value } };
}

impl EgressSpec {
    pub fn new(value: u16) -> Self
        requires { value < PORT_END }
        ensures { result ≡ value }
    {
        EgressSpec { value }
    }

    pub fn value(self) -> u16
        ensures value { result ≡ self }
        ensures nine_bits { result < PORT_END }
    {
        self.value
    }
}
