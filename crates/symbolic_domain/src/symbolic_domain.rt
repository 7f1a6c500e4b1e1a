//! Terms as a domain: each operation makes one node.
ghost use Rattle.std.specs.Prelude.{◌≡◌};
ghost use Rattle.symbolic_domain.specs.Meaning.{symbolic_meaning};

use bits_core::{Bits, Op};
use std::alloc::AllocError;
use term_dag::{Dag, Node, Term};
use value_domain::Domain;

/// The domain of a dag's terms.
#[derive(Drop)]
pub struct SymbolicDomain {
    pub dag: Dag,
}

impl SymbolicDomain {
    /// The domain whose first terms are those of the dag.
    pub fn new(dag: Dag) -> SymbolicDomain
        ensures { result.dag ≡ dag }
    {
        SymbolicDomain { dag }
    }
}

impl Domain for SymbolicDomain {
    ghost use Rattle.std.specs.Prelude.{◌<◌, ◌^◌};
    ghost use Rattle.std.proofs.Common.{subst};
    ghost use Rattle.term_dag.specs.Width.{width_of};
    ghost use Rattle.term_dag.proofs.BoundLemmas.{term_is_width};
    ghost use Rattle.term_dag.proofs.ValueLemmas.{width_of_value};

    type Val = Term;

    type Flag = Term;

    ghost meaning = { λ d. symbolic_meaning d.dag };

    fn constant(&mut self, b: Bits) -> Result<Term, AllocError> {
        self.dag.make(Node::Constant(b))
    }

    fn unspecified(&mut self, read: u32, width: u8) -> Result<Term, AllocError> {
        self.dag.make(Node::Read(read, width))
    }

    fn binary(&mut self, op: Op, a: &Term, b: &Term) -> Result<Term, AllocError> {
        self.dag.make(Node::Two(op, *a, *b))
    }

    fn unary(&mut self, op: Op, a: &Term) -> Result<Term, AllocError> {
        self.dag.make(Node::One(op, *a))
    }

    fn slice(&mut self, a: &Term, high: u8, low: u8) -> Result<Term, AllocError> {
        self.dag.make(Node::Slice(*a, high, low))
    }

    fn extend(&mut self, a: &Term, width: u8, signed: bool) -> Result<Term, AllocError> {
        self.dag.make(Node::Extend(*a, width, signed))
    }

    fn choose(&mut self, f: &Term, a: &Term, b: &Term) -> Result<Term, AllocError> {
        self.dag.make(Node::Choose(*f, *a, *b))
    }

    fn compare(&mut self, op: Op, a: &Term, b: &Term) -> Result<Term, AllocError> {
        self.dag.make(Node::Two(op, *a, *b))
    }

    fn both(&mut self, f: &Term, g: &Term) -> Result<Term, AllocError> {
        self.dag.make(Node::Two(Op::And, *f, *g))
    }

    fn either(&mut self, f: &Term, g: &Term) -> Result<Term, AllocError> {
        self.dag.make(Node::Two(Op::Or, *f, *g))
    }

    fn not(&mut self, f: &Term) -> Result<Term, AllocError> {
        self.dag.make(Node::One(Op::Not, *f))
    }

    fn fixed(&mut self, f: bool) -> Result<Term, AllocError> {
        self.dag.make(Node::Constant(Bits {
            width: 1,
            value: f as u128,
        }))
    }

    ghost widths_are_those_of_bits = { λ d v known.
        let w = term_is_width d.dag known.dag v known.within in (w.some_bit, w.at_most_widest) };

    ghost numbers_fit = { λ d v p x known spoken stands.
        subst (λ n. n < 2 ^ width_of d.dag v) stands.is
        (subst (λ w. stands.b.value < 2 ^ w)
        (width_of_value d.dag known.dag p v stands.b stands.value) stands.b.fits) };
}
