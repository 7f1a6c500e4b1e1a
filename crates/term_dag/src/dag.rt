//! The dag of terms, and how a term is made.
ghost use Rattle.std.specs.Prelude.{◌≡◌, ◌++◌, ◌<◌, List, Some, IfOk, IfSome, IfNone, OnErr, length, slice_get};
ghost use Rattle.bits_core.specs.declared.number.Bits.{Bits as Number};
ghost use Rattle.bits_core.specs.declared.points.Point.{Point as Place};
ghost use Rattle.term_dag.specs.declared.node.Node.{Node as NodeValue};
ghost use Rattle.term_dag.specs.declared.node.Term.{Term as TermNumber};
ghost use Rattle.term_dag.specs.Folding.{IsConstant, IsConstantOf, IsChosen, HasConstantOperands, HasConstantCondition};
ghost use Rattle.term_dag.specs.Value.{NodeGives, Values};
ghost use Rattle.term_dag.specs.Width.{Fits, IsDag, node_width, width_of};

use crate::node::{Node, Term};
use bits_core::{Bits, apply, extend, slice};
use indexmap::IndexSet;
use std::alloc::{AllocError, Global};
use std::marker::Model;

/// Terms by their numbers.
#[derive(Drop)]
pub struct Dag {
    alloc: Global,
    nodes: IndexSet<Node>,
}

impl Model for Dag {
    ghost use Rattle.std.specs.Prelude.{List};
    ghost use Rattle.term_dag.specs.declared.node.Node.{Node};
    ghost use Rattle.term_dag.specs.Width.{IsDag};

    ghost Value = { List Node };

    ghost view = { λ d. d.nodes.keys };

    ghost invariant = { λ d. IsDag d.nodes.keys };
}

impl Dag {
    ghost use Rattle.std.specs.Prelude.{[]};

    /// A dag of no terms.
    pub fn new(alloc: Global) -> Dag
        ensures { result ≡ [] }
    {
        Dag {
            alloc,
            nodes: IndexSet::new(alloc),
        }
    }

    /// How many terms there are.
    pub fn len(&self) -> usize
        ensures len { result ≡ length self.now }
        ensures dag { IsDag self.now }
    {
        self.nodes.len()
    }

    /// The node that the term numbers.
    pub fn node(&self, t: Term) -> Node
        requires { t.number < length self.now }
        ensures { slice_get self.now t.number ≡ Some result }
    {
        self.nodes.as_slice()[t.number]
    }

    /// What takes memory for the dag.
    pub(crate) fn alloc(&self) -> Global {
        self.alloc
    }

    /// The term of this node. A node whose operands are constants is the constant that it gives, and a choice by a constant
    /// the side that is chosen.
    #[tactic(auto, using(crate::proofs::FoldingLemmas::chosen_has_condition))]
    pub fn make(&mut self, node: Node) -> Result<Term, AllocError>
        requires { Fits self.old node }
        ensures keeps { (more : List NodeValue) × (self.new ≡ self.old ++ more) }
        ensures unchanged { OnErr result (self.new ≡ self.old) }
        ensures older { (t : TermNumber) → t.number < length self.old
            → (t.number < length self.new) × (width_of self.new t ≡ width_of self.old t) }
        ensures dag { IsDag self.new }
        ensures within { IfOk result (λ t. t.number < length self.new) }
        ensures width { IfOk result (λ t. width_of self.new t
            ≡ node_width (width_of self.old) node) }
        ensures value { IfOk result (λ t. (p : Place) (b : Number)
            → NodeGives (Values self.old p) p node b → Values self.new p t b) }
        ensures side { IfOk result (λ t. HasConstantCondition self.old node
            → IsChosen self.old node t) }
        ensures constant { IfOk result (λ t. HasConstantOperands self.old node
            → IsConstant self.new t) }
        ensures node { IfOk result (λ t. ¬ HasConstantCondition self.old node
            → ¬ HasConstantOperands self.old node → slice_get self.new t.number ≡ Some node) }
    {
        let _ = &self.nodes;
        if let Some(side) = self.chosen_side(node) {
            return Ok(side);
        }
        match self.constant_result(node) {
            Some(bits) => self.number(Node::Constant(bits)),
            None => self.number(node),
        }
    }

    /// The number of this node, which is added where it is not there.
    fn number(&mut self, node: Node) -> Result<Term, AllocError>
        requires { Fits self.old node }
        ensures keeps { (more : List NodeValue) × (self.new ≡ self.old ++ more) }
        ensures unchanged { OnErr result (self.new ≡ self.old) }
        ensures dag { IsDag self.new }
        ensures within { IfOk result (λ t. t.number < length self.new) }
        ensures at { IfOk result (λ t. slice_get self.new t.number ≡ Some node) }
        ensures width { IfOk result (λ t. width_of self.new t
            ≡ node_width (width_of self.old) node) }
        ensures value { IfOk result (λ t. (p : Place) (b : Number)
            → NodeGives (Values self.old p) p node b → Values self.new p t b) }
    {
        match self.nodes.insert_full(node) {
            Ok((number, _)) => Ok(Term { number }),
            Err(_) => Err(AllocError),
        }
    }

    /// The side that a choice by a constant takes.
    fn chosen_side(&self, node: Node) -> Option<Term>
        requires { Fits self.now node }
        ensures width { IfSome result (λ t. width_of self.now t
            ≡ node_width (width_of self.now) node) }
        ensures value { IfSome result (λ t. (p : Place) (b : Number)
            → NodeGives (Values self.now p) p node b → Values self.now p t b) }
        ensures side { IfSome result (IsChosen self.now node) }
        ensures none { IfNone result (¬ HasConstantCondition self.now node) }
    {
        match node {
            Node::Choose(condition, a, b) => {
                let bits = self.constant(condition)?;
                Some(if bits.value == 1 { a } else { b })
            }
            _ => None,
        }
    }

    /// What a node gives on operands that are constants.
    fn constant_result(&self, node: Node) -> Option<Bits>
        requires { Fits self.now node }
        ensures width { IfSome result (λ r. r.width ≡ node_width (width_of self.now) node) }
        ensures value { IfSome result (λ r. (p : Place) (b : Number)
            → NodeGives (Values self.now p) p node b → b ≡ r) }
        ensures some { IfSome result (λ _. HasConstantOperands self.now node) }
        ensures none { IfNone result (¬ HasConstantOperands self.now node) }
    {
        match node {
            Node::One(op, a) => {
                let bits = self.constant(a)?;
                Some(apply(op, bits, bits))
            }
            Node::Two(op, a, b) => Some(apply(op, self.constant(a)?, self.constant(b)?)),
            Node::Slice(a, high, low) => Some(slice(self.constant(a)?, high, low)),
            Node::Extend(a, width, signed) => Some(extend(self.constant(a)?, width, signed)),
            Node::Choose(..) | Node::Constant(_) | Node::Input(..) | Node::Read(..) => None,
        }
    }

    /// The constant that the term's node is.
    fn constant(&self, t: Term) -> Option<Bits>
        ensures some { IfSome result (IsConstantOf self.now t) }
        ensures is { IfSome result (λ _. IsConstant self.now t) }
        ensures none { IfNone result (¬ IsConstant self.now t) }
    {
        match self.nodes.get_index(t.number) {
            Some(Node::Constant(bits)) => Some(*bits),
            _ => None,
        }
    }
}
