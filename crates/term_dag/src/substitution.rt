//! What is fixed of a point put into a term, by a table of what stands in the place of each term that it is made of.
ghost use Rattle.std.specs.Prelude.{◌≡◌, ◌+◌, ◌-◌, ◌<◌, ◌≤◌, ◌^◌, ◌++◌, ◌↔◌, ℕ, List, Some, IfOk, length, slice_get, slice_index_or};
ghost use Rattle.bits_core.specs.declared.number.TheConstants.{MAX_WIDTH};
ghost use Rattle.bits_core.specs.declared.number.Bits.{Bits as Number};
ghost use Rattle.bits_core.specs.declared.points.Point.{Point as Place};
ghost use Rattle.term_dag.specs.declared.node.Node.{Node as NodeValue};
ghost use Rattle.term_dag.specs.declared.node.Term.{Term as TermNumber};
ghost use Rattle.term_dag.specs.Made.{AddsTo, IsMade};
ghost use Rattle.term_dag.specs.Mention.{MentionsBit, MentionsRead};
ghost use Rattle.term_dag.specs.Substitute.{AreOperandsDone, IsInputSubstitute, IsSubstitute, changed};
ghost use Rattle.term_dag.specs.Substitution.{IsFixedAt, IsOverlaid, ReadsFit};
ghost use Rattle.term_dag.specs.Value.{Values};
ghost use Rattle.term_dag.specs.Width.{Fits, IsDag, OperandsBelow, width_of};

use crate::dag::Dag;
use crate::fixed::Fixed;
use crate::node::{Node, Term};
use bits_core::Op;
use std::alloc::AllocError;

impl Dag {
    /// The term with what is fixed put in: at a point it stands for what the term stands for at the point overlaid by what is
    /// fixed, and it mentions nothing that is fixed. A term that the term has in several places is done once.
    pub fn substitute(&mut self, t: Term, fixed: &Fixed) -> Result<Term, AllocError>
        requires within { t.number < length self.old }
        requires reads { ReadsFit self.old t fixed.now }
        requires few_inputs { length fixed.now.inputs < 2 ^ 32 }
        ensures keeps { (more : List NodeValue) × (self.new ≡ self.old ++ more) }
        ensures older { (u : TermNumber) → u.number < length self.old
            → (u.number < length self.new) × (width_of self.new u ≡ width_of self.old u) }
        ensures dag { IsDag self.new }
        ensures within { IfOk result (λ r. r.number < length self.new) }
        ensures width { IfOk result (λ r. width_of self.new r ≡ width_of self.old t) }
        ensures value { IfOk result (λ r. (p q : Place) (b : Number)
            → IsOverlaid fixed.now p q → Values self.old q t b → Values self.new p r b) }
        ensures bits { IfOk result (λ r. (bit : ℕ)
            → MentionsBit self.new r bit → MentionsBit self.old t bit) }
        ensures no_fixed_bit { IfOk result (λ r. (bit : ℕ)
            → MentionsBit self.new r bit → ¬ IsFixedAt fixed.now.inputs bit) }
        ensures reads { IfOk result (λ r. (read width : ℕ)
            → MentionsRead self.new r read width → MentionsRead self.old t read width) }
        ensures no_fixed_read { IfOk result (λ r. (read width : ℕ)
            → MentionsRead self.new r read width → ¬ IsFixedAt fixed.now.reads read) }
    {
        let _ = self.len();
        let marks = self.marks(t)?;
        let mut results = Vec::new(self.alloc());
        for number in 0..t.number {
            let part = Term { number };
            let result = if marks[number] {
                self.substitute_term(part, fixed, &results)?
            } else {
                part
            };
            results.push(result)?;
        }
        self.substitute_term(t, fixed, &results)
    }

    /// As `make`, with all that is told of the term in one record.
    fn made(&mut self, node: Node) -> Result<Term, AllocError>
        requires { Fits self.old node }
        ensures keeps { AddsTo self.old self.new }
        ensures dag { IsDag self.new }
        ensures made { IfOk result (IsMade self.old self.new node) }
    {
        self.make(node)
    }

    /// The term of a run of input bits: their number where they are fixed, and else they themselves.
    fn run_term(&mut self, fixed: &Fixed, from: usize, to: usize) -> Result<Term, AllocError>
        requires some_bit { from < to }
        requires at_most_widest { to ≤ from + MAX_WIDTH }
        requires numbered { from < 2 ^ 32 }
        requires fixed { IsFixedAt fixed.now.inputs from
            → (bit : ℕ) → from ≤ bit → bit < to → IsFixedAt fixed.now.inputs bit }
        requires free { ¬ IsFixedAt fixed.now.inputs from
            → (bit : ℕ) → from ≤ bit → bit < to → ¬ IsFixedAt fixed.now.inputs bit }
        ensures keeps { AddsTo self.old self.new }
        ensures dag { IsDag self.new }
        ensures done { IfOk result (IsInputSubstitute self.new fixed.now from (to - from)) }
    {
        let _ = self.len();
        match fixed.bit(from) {
            Some(_) => self.made(Node::Constant(fixed.run_number(from, to))),
            None => self.made(Node::Input(from as u32, (to - from) as u8)),
        }
    }
    /// The term of input bits where some are fixed: their runs joined, the first most significant.
    fn substitute_input(&mut self, fixed: &Fixed, first: u32, width: u8) -> Result<Term, AllocError>
        requires some_bit { 1 ≤ width }
        requires at_most_widest { width ≤ MAX_WIDTH }
        requires few { length fixed.now.inputs < 2 ^ 32 }
        ensures keeps { AddsTo self.old self.new }
        ensures dag { IsDag self.new }
        ensures done { IfOk result (IsInputSubstitute self.new fixed.now first width) }
    {
        let first = first as usize;
        let end = first + width as usize;
        let mut at = fixed.run_end(first, end);
        let mut term = self.run_term(fixed, first, at)?;
        while at < end {
            let next = fixed.run_end(at, end);
            let run = self.run_term(fixed, at, next)?;
            term = self.made(Node::Two(Op::Cat, term, run))?;
            at = next;
        }
        Ok(term)
    }
    /// What stands in the term's place, from what stands in the places of its operands.
    fn substitute_term(
        &mut self,
        t: Term,
        fixed: &Fixed,
        results: &Vec<Term>,
    ) -> Result<Term, AllocError>
        requires within { t.number < length self.old }
        requires long { t.number ≤ length results.now.items }
        requires operands { AreOperandsDone self.old fixed.now t results.now.items }
        requires reads { ReadsFit self.old t fixed.now }
        requires few { length fixed.now.inputs < 2 ^ 32 }
        ensures keeps { AddsTo self.old self.new }
        ensures dag { IsDag self.new }
        ensures done { IfOk result (IsSubstitute self.new fixed.now t) }
    {
        let _ = self.len();
        match self.node(t) {
            Node::Input(first, width) => self.substitute_input(fixed, first, width),
            Node::Read(read, _) => match fixed.read(read as usize) {
                Some(bits) => self.made(Node::Constant(bits)),
                None => Ok(t),
            },
            node => self.made(with_operands(node, results)),
        }
    }
}

/// The node on what stands in its operands' places.
fn with_operands(node: Node, results: &Vec<Term>) -> Node
    requires { OperandsBelow (length results.now.items) node }
    ensures { result ≡ changed (λ a. slice_index_or results.now.items a.number a) node }
{
    match node {
        Node::Constant(_) | Node::Input(..) | Node::Read(..) => node,
        Node::One(op, a) => Node::One(op, result_of(a, results)),
        Node::Two(op, a, b) => Node::Two(op, result_of(a, results), result_of(b, results)),
        Node::Slice(a, high, low) => Node::Slice(result_of(a, results), high, low),
        Node::Extend(a, width, signed) => Node::Extend(result_of(a, results), width, signed),
        Node::Choose(condition, a, b) => Node::Choose(
            result_of(condition, results),
            result_of(a, results),
            result_of(b, results),
        ),
    }
}

/// What stands in the term's place.
fn result_of(t: Term, results: &Vec<Term>) -> Term
    requires { t.number < length results.now.items }
    ensures { result ≡ slice_index_or results.now.items t.number t }
{
    results[t.number]
}
