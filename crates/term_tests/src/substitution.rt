//! Outside values for what is fixed and put into a term.
use crate::points::point_of;
use bits_core::{Bits, BitsList, Op, Point};
use sqlite_items::Items;
use std::test::Fail;
use term_dag::{Dag, Fixed, Node};

#[test]
fn a_shared_term_is_done_once(rt: HostRuntime) -> Result<(), Fail> {
    let mut dag = Dag::new(rt.alloc());
    let x = dag.make(Node::Input(0, 4))?;
    let read = dag.make(Node::Read(0, 4))?;
    let sum = dag.make(Node::Two(Op::Add, x, read))?;
    let square = dag.make(Node::Two(Op::Mul, sum, sum))?;
    let whole = dag.make(Node::Two(Op::Add, square, sum))?;
    let nine = [Some(true), Some(false), Some(false), Some(true)];
    let fixed = Fixed {
        inputs: Items::from_slice(rt.alloc(), &nine)?,
        reads: Items::new(rt.alloc()),
    };
    let result = dag.substitute(whole, &fixed)?;
    // The number 9 and the terms of the sum, the square and the whole are new.
    assert_eq!(rt; dag.len(), 9);
    let point = Point {
        inputs: Items::new(rt.alloc()),
        reads: BitsList::from_slice(rt.alloc(), &[Bits::wrapping(4, 5)])?,
    };
    let value = dag.value_at(result, &point)?;
    assert_eq!(rt; value.map(|bits| (bits.width, bits.value)), Some((4, 2)));
    let old = dag.value_at(whole, &point)?;
    assert_eq!(rt; old.map(|bits| (bits.width, bits.value)), None);
    Ok(())
}

/// An input of eight bits of which the third to the fifth are 1, 0 and 1, whatever the point has there.
const PARTS: [(u8, u128); 4] = [
    (0b11000011, 0b11101011),
    (0b11111011, 0b11101011),
    (0b00101000, 0b00101000),
    (0b01010100, 0b01101100),
];

#[test]
fn an_input_is_fixed_in_part(rt: HostRuntime) -> Result<(), Fail> {
    let mut dag = Dag::new(rt.alloc());
    let x = dag.make(Node::Input(0, 8))?;
    let middle = [None, None, Some(true), Some(false), Some(true)];
    let fixed = Fixed {
        inputs: Items::from_slice(rt.alloc(), &middle)?,
        reads: Items::new(rt.alloc()),
    };
    let result = dag.substitute(x, &fixed)?;
    // Three runs and two joins are new.
    assert_eq!(rt; dag.len(), 6);
    for (input, want) in PARTS {
        let point = point_of(rt.alloc(), input)?;
        let value = dag.value_at(result, &point)?;
        assert_eq!(rt;
            value.map(|bits| (bits.width, bits.value)),
            Some((8, want)),
            "{input}"
        );
    }
    Ok(())
}
