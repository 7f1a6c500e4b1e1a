//! Outside values for `concrete_domain`, and generic code on it.
use crate::generic::{byte, square_all, square_and_one};
use bits_core::{Bits, Op};
use concrete_domain::ConcreteDomain;
use p4_program::Resolution;
use std::test::Fail;
use value_domain::Domain;

/// What each operator of two operands gives of 0xf0 and 0x21: its width and its value.
const OPERATORS: [(Op, u8, u128); 19] = [
    (Op::Add, 8, 0x11),
    (Op::Sub, 8, 0xcf),
    (Op::Mul, 8, 0xf0),
    (Op::AddSatU, 8, 0xff),
    (Op::SubSatU, 8, 0xcf),
    (Op::AddSatS, 8, 0x11),
    (Op::SubSatS, 8, 0xcf),
    (Op::And, 8, 0x20),
    (Op::Or, 8, 0xf1),
    (Op::Xor, 8, 0xd1),
    (Op::Shl, 8, 0x00),
    (Op::ShrU, 8, 0x00),
    (Op::ShrS, 8, 0xff),
    (Op::Cat, 16, 0xf021),
    (Op::Eq, 1, 0),
    (Op::LtU, 1, 0),
    (Op::LeU, 1, 0),
    (Op::LtS, 1, 1),
    (Op::LeS, 1, 1),
];

/// Bytes, and the square of each and one more.
const SQUARES: [(u8, u128); 5] = [(0, 1), (1, 2), (15, 226), (16, 1), (255, 2)];

fn number(value: Bits) -> (u8, u128) {
    (value.width, value.value)
}

#[test]
fn values_stand_for_themselves(rt: HostRuntime) -> Result<(), Fail> {
    let resolution = Resolution::from_slice(rt.alloc(), &[byte(7), byte(9)])?;
    let mut domain = ConcreteDomain::new(&resolution);
    let (a, b) = (byte(0xf0), byte(0x21));
    let reads = (domain.unspecified(0, 8)?, domain.unspecified(1, 8)?);
    for (op, width, value) in OPERATORS {
        let result = domain.binary(op, &a, &b)?;
        assert_eq!(rt; number(result), (width, value), "{op:?}");
    }
    let constant = domain.constant(b)?;
    let opposite = (domain.unary(Op::Not, &a)?, domain.unary(Op::Neg, &a)?);
    let cut = domain.slice(&a, 6, 3)?;
    let wide = (domain.extend(&a, 12, true)?, domain.extend(&a, 12, false)?);
    assert_eq!(rt; (number(reads.0), number(reads.1)), ((8, 7), (8, 9)));
    assert_eq!(rt; number(constant), (8, 0x21));
    assert_eq!(rt;
        (number(opposite.0), number(opposite.1)),
        ((8, 0x0f), (8, 0x10))
    );
    assert_eq!(rt; number(cut), (4, 0xe));
    assert_eq!(rt;
        (number(wide.0), number(wide.1)),
        ((12, 0xff0), (12, 0x0f0))
    );
    Ok(())
}

#[test]
fn flags_and_generic_code(rt: HostRuntime) -> Result<(), Fail> {
    let resolution = Resolution::new(rt.alloc());
    let mut domain = ConcreteDomain::new(&resolution);
    let (a, b) = (byte(0xf0), byte(0x21));
    let less = (
        domain.compare(Op::LtU, &a, &b)?,
        domain.compare(Op::LtS, &a, &b)?,
    );
    assert_eq!(rt; less, (false, true));
    for (f, g) in [(false, false), (false, true), (true, false), (true, true)] {
        let two = (domain.both(&f, &g)?, domain.either(&f, &g)?);
        let one = (domain.not(&f)?, domain.fixed(g)?);
        let chosen = domain.choose(&f, &a, &b)?;
        assert_eq!(rt; (two, one), ((f && g, f || g), (!f, g)), "{f} {g}");
        assert_eq!(rt; number(chosen), (8, if f { 0xf0 } else { 0x21 }), "{f} {g}");
    }
    for (x, expected) in SQUARES {
        let value = square_and_one(&mut domain, &byte(x))?;
        assert_eq!(rt; number(value), (8, expected), "{x}");
    }
    let mut cells = [byte(0), byte(15), byte(16)];
    square_all(&mut domain, &mut cells)?;
    assert_eq!(rt; cells, [byte(1), byte(226), byte(1)]);
    Ok(())
}
