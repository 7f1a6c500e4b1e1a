//! Terms of one bit from words of symbols. A symbol stands for a term, or for an operator on the terms of the symbols before
//! it, of which it takes the lowest bits.
ghost use Rattle.std.specs.Prelude.{◌≡◌, ◌<◌, ◌⊎◌, IfOk, IfSome, length};
ghost use Rattle.bits_core.specs.Operator.{shape_of};
ghost use Rattle.bits_core.specs.declared.operator.OpShape.TheVariants.{Same, Test};
ghost use Rattle.term_dag.specs.Width.{width_of};
ghost use Rattle.term_dag.specs.declared.node.Term.{Term as Number};

use bits_core::{Bits, Op};
use std::alloc::{AllocError, Global};
use term_dag::{Dag, Node, Term};

/// The term of the symbols, where they are some and each has the operands that it takes.
pub(crate) fn term_of(
    alloc: Global,
    dag: &mut Dag,
    symbols: &str,
) -> Result<Option<Term>, AllocError>
    ensures within { IfOk result (λ r. IfSome r (λ t. t.number < length dag.new)) }
    ensures width { IfOk result (λ r. IfSome r (λ t. width_of dag.new t ≡ 1)) }
{
    let mut stack = Vec::new(alloc);
    for symbol in symbols.as_bytes() {
        match term_at(dag, &mut stack, *symbol)? {
            Some(t) => stack.push(t)?,
            None => return Ok(None),
        }
    }
    lowest(dag, &mut stack)
}

/// The symbol's term: bits of the input, reads of one bit and of two, the tests for port 4 and 5, and operators.
fn term_at(dag: &mut Dag, stack: &mut Vec<Term>, symbol: u8) -> Result<Option<Term>, AllocError> {
    let term = match symbol {
        b'0' => dag.make(Node::Constant(Bits::wrapping(1, 0)))?,
        b'1' => dag.make(Node::Constant(Bits::wrapping(1, 1)))?,
        b'a' => dag.make(Node::Input(0, 1))?,
        b'b' => dag.make(Node::Input(1, 1))?,
        b'c' => dag.make(Node::Input(2, 1))?,
        b'r' => dag.make(Node::Read(0, 1))?,
        b's' => dag.make(Node::Read(1, 1))?,
        b'w' => dag.make(Node::Read(0, 2))?,
        b'4' => port_is(dag, 4)?,
        b'5' => port_is(dag, 5)?,
        b'!' => return not(dag, stack),
        b'&' => return operator(dag, stack, Op::And),
        b'|' => return operator(dag, stack, Op::Or),
        b'^' => return operator(dag, stack, Op::Xor),
        b'=' => return operator(dag, stack, Op::Eq),
        b'?' => return choice(dag, stack),
        _ => return Ok(None),
    };
    Ok(Some(term))
}

/// Whether the port is this one.
fn port_is(dag: &mut Dag, value: u128) -> Result<Term, AllocError> {
    let port = dag.make(Node::Input(0, 9))?;
    let number = dag.make(Node::Constant(Bits::wrapping(9, value)))?;
    dag.make(Node::Two(Op::Eq, port, number))
}

fn not(dag: &mut Dag, stack: &mut Vec<Term>) -> Result<Option<Term>, AllocError> {
    let Some(a) = lowest(dag, stack)? else {
        return Ok(None);
    };
    Ok(Some(dag.make(Node::One(Op::Not, a))?))
}

fn operator(dag: &mut Dag, stack: &mut Vec<Term>, op: Op) -> Result<Option<Term>, AllocError>
    requires { (shape_of op ≡ Same) ⊎ (shape_of op ≡ Test) }
{
    let Some(b) = lowest(dag, stack)? else {
        return Ok(None);
    };
    let Some(a) = lowest(dag, stack)? else {
        return Ok(None);
    };
    Ok(Some(dag.make(Node::Two(op, a, b))?))
}

fn choice(dag: &mut Dag, stack: &mut Vec<Term>) -> Result<Option<Term>, AllocError> {
    let Some(b) = lowest(dag, stack)? else {
        return Ok(None);
    };
    let Some(a) = lowest(dag, stack)? else {
        return Ok(None);
    };
    let Some(condition) = lowest(dag, stack)? else {
        return Ok(None);
    };
    Ok(Some(dag.make(Node::Choose(condition, a, b))?))
}

/// The lowest bit of the last term, where there is one and the dag has it. The term is taken away.
fn lowest(dag: &mut Dag, stack: &mut Vec<Term>) -> Result<Option<Term>, AllocError>
    ensures older { (t : Number) → t.number < length dag.old
        → (t.number < length dag.new) × (width_of dag.new t ≡ width_of dag.old t) }
    ensures within { IfOk result (λ r. IfSome r (λ t. t.number < length dag.new)) }
    ensures width { IfOk result (λ r. IfSome r (λ t. width_of dag.new t ≡ 1)) }
{
    match stack.pop() {
        Some(t) if t.number < dag.len() => Ok(Some(dag.make(Node::Extend(t, 1, false))?)),
        _ => Ok(None),
    }
}
