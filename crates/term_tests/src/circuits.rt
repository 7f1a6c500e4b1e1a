//! Outside values for `bit_blaster`: each operator's circuit beside `apply` at all operands of up to 4 bits, and formulas
//! whose solutions are known. Values are read off the clauses by one pass of unit propagation.
ghost use Rattle.std.specs.Prelude.{◌≡◌, ◌<◌, ◌≤◌, IfOk, IsTrue, length};
ghost use Rattle.bits_core.specs.Operator.{WidthsFit, result_width, shape_of};
ghost use Rattle.term_dag.specs.Width.{width_of};

use bit_blaster::{Blasted, bits_of, clauses_of};
use bits_core::{Bits, OPERATORS, Op, OpShape, apply};
use cnf_core::{Lit, Var};
use sqlite_items::Items;
use std::alloc::{AllocError, Global};
use std::test::Fail;
use term_dag::{Dag, Node, Term};

/// What is known of a clause.
#[derive(Clone, Copy, Debug)]
enum State {
    True,
    False,
    /// All literals but this one are false.
    Unit(Lit),
    Open,
}

/// How the clause stands where variable `n` has the value at place `n`.
fn state_of(clause: &[Lit], values: &[Option<bool>]) -> State {
    let mut state = State::False;
    for l in clause {
        match (values.get(l.var as usize), state) {
            (Some(Some(value)), _) => {
                if *value == l.positive {
                    return State::True;
                }
            }
            (_, State::False) => state = State::Unit(*l),
            _ => state = State::Open,
        }
    }
    state
}

/// Whether the clauses hold where the vars have the bits of a number, the first the highest: what one pass of propagation over
/// the clauses says, and nothing where it leaves a clause open.
fn holds_at(alloc: Global, formula: &Blasted, inputs: u32) -> Result<Option<bool>, AllocError> {
    let mut values = Vec::new(alloc);
    let mut rest = inputs;
    for _ in formula.vars.as_slice() {
        values.push(Some(rest & 1 == 1))?;
        rest >>= 1;
    }
    values.push(None)?;
    values.reverse();
    for clause in formula.clauses.as_slice() {
        match state_of(clause.as_slice(), &values) {
            State::True => {}
            State::False => return Ok(Some(false)),
            State::Unit(l) => set(&mut values, l)?,
            State::Open => return Ok(None),
        }
    }
    Ok(Some(true))
}

fn set(values: &mut Vec<Option<bool>>, l: Lit) -> Result<(), AllocError> {
    let place = l.var as usize;
    if values.len() <= place {
        values.resize(place + 1, None)?;
    }
    values[place] = Some(l.positive);
    Ok(())
}

/// Whether operands of these widths may stand under the operator. What has one operand is tried beside one of its width.
fn fits(op: Op, width: u8, other: u8) -> bool
    ensures { IsTrue result → WidthsFit (shape_of op) width other }
{
    match op.shape() {
        OpShape::One | OpShape::Same | OpShape::Test => width == other,
        OpShape::Shift => true,
        OpShape::Join => width <= 4 && other <= 4,
    }
}

/// How wide the operator's result is.
fn width_of_result(op: Op, width: u8, other: u8) -> u8
    requires first { width ≤ 4 }
    requires second { other ≤ 4 }
    ensures { result ≡ result_width (shape_of op) width other }
{
    match op.shape() {
        OpShape::One | OpShape::Same | OpShape::Shift => width,
        OpShape::Join => width + other,
        OpShape::Test => 1,
    }
}

/// The operator on input bits.
fn result_of(dag: &mut Dag, op: Op, width: u8, other: u8) -> Result<Term, AllocError>
    requires first { (1 ≤ width) × (width ≤ 4) }
    requires second { (1 ≤ other) × (other ≤ 4) }
    requires fits { WidthsFit (shape_of op) width other }
    ensures within { IfOk result (λ t. t.number < length dag.new) }
    ensures width { IfOk result (λ t. width_of dag.new t ≡ result_width (shape_of op) width other) }
{
    let a = dag.make(Node::Input(0, width))?;
    let b = dag.make(Node::Input(width as u32, other))?;
    match op.shape() {
        OpShape::One => dag.make(Node::One(op, a)),
        _ => dag.make(Node::Two(op, a, b)),
    }
}

/// That a bit of the operator's result is set.
fn bit_formula(alloc: Global, op: Op, width: u8, other: u8, bit: u8) -> Result<Blasted, AllocError>
    requires first { (1 ≤ width) × (width ≤ 4) }
    requires second { (1 ≤ other) × (other ≤ 4) }
    requires fits { WidthsFit (shape_of op) width other }
    requires bit { bit < result_width (shape_of op) width other }
{
    let mut dag = Dag::new(alloc);
    let result = result_of(&mut dag, op, width, other)?;
    let t = dag.make(Node::Slice(result, bit, bit))?;
    clauses_of(alloc, &dag, t)
}

/// The first operands, as one number, at which the formula of the bit does not say what `apply` says.
fn difference(
    alloc: Global,
    op: Op,
    width: u8,
    other: u8,
    bit: u8,
) -> Result<Option<u32>, AllocError>
    requires first { (1 ≤ width) × (width ≤ 4) }
    requires second { (1 ≤ other) × (other ≤ 4) }
    requires fits { WidthsFit (shape_of op) width other }
    requires bit { bit < result_width (shape_of op) width other }
    requires low { bit < 8 }
{
    let formula = bit_formula(alloc, op, width, other, bit)?;
    let low = match op.shape() {
        OpShape::One => 0,
        _ => other,
    };
    for inputs in 0..1u32 << (width + low) {
        let x = Bits::wrapping(width, (inputs >> low) as u128);
        let y = Bits::wrapping(other, inputs as u128);
        let set = apply(op, x, y).value >> bit & 1 == 1;
        if holds_at(alloc, &formula, inputs)? != Some(set) {
            return Ok(Some(inputs));
        }
    }
    Ok(None)
}

/// The bit of the operator's result, and the operands, at which the circuit differs from `apply`.
fn wrong_bit(alloc: Global, op: Op, width: u8, other: u8) -> Result<Option<(u8, u32)>, AllocError>
    requires first { (1 ≤ width) × (width ≤ 4) }
    requires second { (1 ≤ other) × (other ≤ 4) }
    requires fits { WidthsFit (shape_of op) width other }
{
    for bit in 0..width_of_result(op, width, other) {
        if let Some(inputs) = difference(alloc, op, width, other, bit)? {
            return Ok(Some((bit, inputs)));
        }
    }
    Ok(None)
}

#[test]
fn operators_circuits_give_what_apply_gives(rt: HostRuntime) -> Result<(), Fail> {
    for row in OPERATORS.rows {
        for width in 1..5u8 {
            for other in 1..5u8 {
                if fits(row.op, width, other) {
                    let wrong = wrong_bit(rt.alloc(), row.op, width, other)?;
                    assert_eq!(rt; wrong, None, "{:?} of {width} and {other} bits", row.op);
                }
            }
        }
    }
    Ok(())
}

/// The values of up to 8 vars at which the formula holds.
fn solutions(alloc: Global, formula: &Blasted) -> Result<Vec<u32>, AllocError> {
    let mut found = Vec::new(alloc);
    for inputs in 0..1u32 << formula.vars.len().min(8) {
        if holds_at(alloc, formula, inputs)? == Some(true) {
            found.push(inputs)?;
        }
    }
    Ok(found)
}

/// `x + 1 == 0` on 8 bits.
fn one_more_is_zero(alloc: Global) -> Result<Blasted, AllocError> {
    let mut dag = Dag::new(alloc);
    let x = dag.make(Node::Input(0, 8))?;
    let one = dag.make(Node::Constant(Bits::wrapping(8, 1)))?;
    let zero = dag.make(Node::Constant(Bits::wrapping(8, 0)))?;
    let sum = dag.make(Node::Two(Op::Add, x, one))?;
    let test = dag.make(Node::Two(Op::Eq, sum, zero))?;
    clauses_of(alloc, &dag, test)
}

/// `x * x == 1` on 4 bits.
fn square_is_one(alloc: Global) -> Result<Blasted, AllocError> {
    let mut dag = Dag::new(alloc);
    let x = dag.make(Node::Input(0, 4))?;
    let one = dag.make(Node::Constant(Bits::wrapping(4, 1)))?;
    let square = dag.make(Node::Two(Op::Mul, x, x))?;
    let test = dag.make(Node::Two(Op::Eq, square, one))?;
    clauses_of(alloc, &dag, test)
}

/// A read that is asked for in 1 bit and in 2, and the bits of this term.
fn read_in_two_widths(alloc: Global) -> Result<(Blasted, Items<Var>), AllocError> {
    let mut dag = Dag::new(alloc);
    let narrow = dag.make(Node::Read(0, 1))?;
    let wide = dag.make(Node::Read(0, 2))?;
    let widened = dag.make(Node::Extend(narrow, 2, false))?;
    let test = dag.make(Node::Two(Op::Eq, widened, wide))?;
    Ok((clauses_of(alloc, &dag, test)?, bits_of(alloc, &dag, test)?))
}

#[test]
fn formulas_hold_at_their_solutions(rt: HostRuntime) -> Result<(), Fail> {
    let wraps = solutions(rt.alloc(), &one_more_is_zero(rt.alloc())?)?;
    assert_eq!(rt; wraps.as_slice(), [255].as_slice());
    let roots = solutions(rt.alloc(), &square_is_one(rt.alloc())?)?;
    assert_eq!(rt; roots.as_slice(), [1, 7, 9, 15].as_slice());
    let (formula, bits) = read_in_two_widths(rt.alloc())?;
    let none = solutions(rt.alloc(), &formula)?;
    assert_eq!(rt;
        bits.as_slice(),
        [Var::Read(0, 0), Var::Read(0, 1)].as_slice()
    );
    assert_eq!(rt; none.as_slice(), [].as_slice());
    Ok(())
}
