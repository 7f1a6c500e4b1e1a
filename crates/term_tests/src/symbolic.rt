//! Outside values for `symbolic_domain`: its terms at a point.
use bits_core::{Bits, BitsList, Op, Point};
use sqlite_items::Items;
use std::test::Fail;
use symbolic_domain::SymbolicDomain;
use term_dag::Dag;
use value_domain::Domain;

#[test]
fn a_read_is_compared_and_chosen_by(rt: HostRuntime) -> Result<(), Fail> {
    let mut domain = SymbolicDomain::new(Dag::new(rt.alloc()));
    let read = domain.unspecified(1, 8)?;
    let five = domain.constant(Bits::wrapping(8, 5))?;
    let less = domain.compare(Op::LtU, &read, &five)?;
    let least = domain.choose(&less, &read, &five)?;
    for (value, want) in [(3, 3), (5, 5), (200, 5)] {
        let reads = [Bits::wrapping(4, 1), Bits::wrapping(8, value)];
        let point = Point {
            inputs: Items::new(rt.alloc()),
            reads: BitsList::from_slice(rt.alloc(), &reads)?,
        };
        let found = domain.dag.value_at(least, &point)?;
        assert_eq!(rt;
            found.map(|bits| (bits.width, bits.value)),
            Some((8, want)),
            "{value}"
        );
    }
    Ok(())
}
