//! Outside values for `term_dag`: one number for one node, and what each kind of node stands for.
ghost use Rattle.std.specs.Prelude.{◌≡◌, ◌<◌, IfOk, length};
ghost use Rattle.term_dag.specs.Width.{Fits, width_of};
ghost use Rattle.term_dag.specs.declared.node.Term.{Term as Number};

use crate::points::point_of;
use bits_core::{Bits, BitsList, Op, Point};
use sqlite_items::Items;
use std::alloc::AllocError;
use std::test::Fail;
use term_dag::{Dag, Node};

/// The input's bits from 0 on.
const INPUTS: [bool; 8] = [true, false, true, true, false, false, true, false];

/// Leaves, and the width and value of each at the point with these bits and one read, 5 in 3 bits.
const LEAVES: [(Node, Option<(u8, u128)>); 9] = [
    (Node::Input(0, 1), Some((1, 1))),
    (Node::Input(1, 1), Some((1, 0))),
    (Node::Input(0, 4), Some((4, 0b1011))),
    (Node::Input(2, 5), Some((5, 0b11001))),
    (Node::Input(0, 8), Some((8, 0b10110010))),
    (Node::Input(1, 8), None),
    (Node::Read(0, 3), Some((3, 5))),
    (Node::Read(0, 4), None),
    (Node::Read(1, 3), None),
];

#[test]
fn leaves_stand_for_the_points_bits(rt: HostRuntime) -> Result<(), Fail> {
    let point = Point {
        inputs: Items::from_slice(rt.alloc(), &INPUTS)?,
        reads: BitsList::from_slice(rt.alloc(), &[Bits::wrapping(3, 5)])?,
    };
    for (node, want) in LEAVES {
        let (Node::Input(_, width) | Node::Read(_, width)) = node else {
            continue;
        };
        if width < 1 || width > 128 {
            continue;
        }
        let mut dag = Dag::new(rt.alloc());
        let term = dag.make(node)?;
        let value = dag.value_at(term, &point)?;
        let found = value.map(|bits| (bits.width, bits.value));
        assert_eq!(rt; found, want, "{node:?}");
    }
    Ok(())
}

#[test]
fn one_node_has_one_number(rt: HostRuntime) -> Result<(), Fail> {
    let mut dag = Dag::new(rt.alloc());
    let first = dag.make(Node::Input(0, 8))?;
    let other = dag.make(Node::Read(0, 8))?;
    let again = dag.make(Node::Input(0, 8))?;
    assert_eq!(rt; (first.number, other.number, again.number), (0, 1, 0));
    assert_eq!(rt; dag.len(), 2);
    Ok(())
}

/// The width and value of the node's term at the point.
fn found(dag: &mut Dag, node: Node, point: &Point) -> Result<Option<(u8, u128)>, AllocError>
    requires { Fits dag.old node }
    ensures older { (t : Number) → t.number < length dag.old
        → (t.number < length dag.new) × (width_of dag.new t ≡ width_of dag.old t) }
{
    let term = dag.make(node)?;
    let value = dag.value_at(term, point)?;
    Ok(value.map(|bits| (bits.width, bits.value)))
}

#[test]
fn operators_stand_for_their_results(rt: HostRuntime) -> Result<(), Fail> {
    let point = Point {
        inputs: Items::from_slice(rt.alloc(), &INPUTS)?,
        reads: BitsList::from_slice(rt.alloc(), &[Bits::wrapping(4, 6)])?,
    };
    let mut dag = Dag::new(rt.alloc());
    let a = dag.make(Node::Input(0, 4))?;
    let b = dag.make(Node::Read(0, 4))?;
    let not = found(&mut dag, Node::One(Op::Not, a), &point)?;
    let sum = found(&mut dag, Node::Two(Op::Add, a, b), &point)?;
    let join = found(&mut dag, Node::Two(Op::Cat, a, b), &point)?;
    let less = found(&mut dag, Node::Two(Op::LtU, b, a), &point)?;
    assert_eq!(rt; (not, sum), (Some((4, 0b0100)), Some((4, 1))));
    assert_eq!(rt; (join, less), (Some((8, 0b10110110)), Some((1, 1))));
    Ok(())
}

#[test]
fn parts_and_choices_stand_for_bits(rt: HostRuntime) -> Result<(), Fail> {
    let point = point_of(rt.alloc(), 0b10110010)?;
    let mut dag = Dag::new(rt.alloc());
    let a = dag.make(Node::Input(0, 4))?;
    let b = dag.make(Node::Input(4, 4))?;
    let no = dag.make(Node::Input(1, 1))?;
    let slice = found(&mut dag, Node::Slice(a, 2, 1), &point)?;
    let signed = found(&mut dag, Node::Extend(a, 6, true), &point)?;
    let unsigned = found(&mut dag, Node::Extend(a, 6, false), &point)?;
    let choice = found(&mut dag, Node::Choose(no, a, b), &point)?;
    assert_eq!(rt; (slice, choice), (Some((2, 0b01)), Some((4, 2))));
    assert_eq!(rt;
        (signed, unsigned),
        (Some((6, 0b111011)), Some((6, 0b001011)))
    );
    Ok(())
}

/// Whether `x + 1 == 0` on 8 bits, at a few inputs.
const WRAPS: [(u8, u128); 4] = [(0xff, 1), (0xfe, 0), (0, 0), (0x7f, 0)];

#[test]
fn one_more_than_the_greatest_is_zero(rt: HostRuntime) -> Result<(), Fail> {
    let mut dag = Dag::new(rt.alloc());
    let x = dag.make(Node::Input(0, 8))?;
    let one = dag.make(Node::Constant(Bits::wrapping(8, 1)))?;
    let zero = dag.make(Node::Constant(Bits::wrapping(8, 0)))?;
    let sum = dag.make(Node::Two(Op::Add, x, one))?;
    let test = dag.make(Node::Two(Op::Eq, sum, zero))?;
    for (input, want) in WRAPS {
        let point = point_of(rt.alloc(), input)?;
        let value = dag.value_at(test, &point)?;
        assert_eq!(rt; value.map(|bits| bits.value), Some(want), "{input}");
    }
    Ok(())
}
