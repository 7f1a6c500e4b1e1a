//! Masks worked out by hand, for `taint_domain`, and generic code on it.
ghost use Rattle.std.specs.Prelude.{◌≡◌};

use crate::generic::{byte, square_all, square_and_one};
use bits_core::Op;
use std::alloc::AllocError;
use std::process::Abort;
use std::test::Fail;
use taint_domain::{TaintDomain, TaintFlag, Tainted};
use value_domain::Domain;

/// A byte and its mask.
type Byte = (u8, u8);

/// An operator, its operands, and the number and the mask of the result.
const OPERATORS: [(Op, Byte, Byte, u128, u128); 56] = [
    // without a mask there is none
    (Op::Add, (0xf0, 0), (0x21, 0), 0x11, 0),
    (Op::Sub, (0xf0, 0), (0x21, 0), 0xcf, 0),
    (Op::Mul, (0xf0, 0), (0x21, 0), 0xf0, 0),
    (Op::AddSatU, (0xf0, 0), (0x21, 0), 0xff, 0),
    (Op::SubSatU, (0xf0, 0), (0x21, 0), 0xcf, 0),
    (Op::AddSatS, (0xf0, 0), (0x21, 0), 0x11, 0),
    (Op::SubSatS, (0xf0, 0), (0x21, 0), 0xcf, 0),
    (Op::And, (0xf0, 0), (0x21, 0), 0x20, 0),
    (Op::Or, (0xf0, 0), (0x21, 0), 0xf1, 0),
    (Op::Xor, (0xf0, 0), (0x21, 0), 0xd1, 0),
    (Op::Shl, (0xf0, 0), (0x03, 0), 0x80, 0),
    (Op::ShrU, (0xf0, 0), (0x03, 0), 0x1e, 0),
    (Op::ShrS, (0xf0, 0), (0x03, 0), 0xfe, 0),
    (Op::Cat, (0xf0, 0), (0x21, 0), 0xf021, 0),
    (Op::LtS, (0xf0, 0), (0x21, 0), 1, 0),
    // sums up to the last place into which a carry may differ
    (Op::Add, (0xf0, 0x05), (0x21, 0), 0x11, 0x07),
    (Op::Add, (0x10, 0x80), (0x20, 0), 0x30, 0x80),
    (Op::Add, (0x0f, 0x10), (0x01, 0), 0x10, 0x30),
    (Op::Add, (0x00, 0x01), (0x00, 0x01), 0x00, 0x03),
    (Op::Add, (0x04, 0x04), (0x04, 0), 0x08, 0x0c),
    (Op::Sub, (0xf0, 0x05), (0x21, 0), 0xcf, 0x1f),
    (Op::Sub, (0x10, 0), (0x00, 0x01), 0x10, 0x1f),
    (Op::Sub, (0x80, 0x80), (0x01, 0), 0x7f, 0x80),
    // products from the place that zeros at the end move
    (Op::Mul, (0xf0, 0x05), (0x21, 0), 0xf0, 0xff),
    (Op::Mul, (0x03, 0x08), (0x04, 0), 0x0c, 0xe0),
    (Op::Mul, (0x00, 0x10), (0x10, 0), 0x00, 0x00),
    (Op::Mul, (0x02, 0x80), (0x06, 0x40), 0x0c, 0x80),
    // saturation wholly
    (Op::AddSatU, (0xf0, 0x05), (0x21, 0), 0xff, 0xff),
    (Op::SubSatU, (0xf0, 0), (0x21, 0x01), 0xcf, 0xff),
    (Op::AddSatS, (0xf0, 0x05), (0x21, 0), 0x11, 0xff),
    (Op::SubSatS, (0xf0, 0x05), (0x21, 0), 0xcf, 0xff),
    // bit by bit, but not where the other operand settles the bit
    (Op::And, (0xf0, 0x05), (0x21, 0), 0x20, 0x01),
    (Op::And, (0xf0, 0x05), (0x21, 0x30), 0x20, 0x31),
    (Op::And, (0x00, 0x0f), (0x00, 0), 0x00, 0x00),
    (Op::Or, (0xf0, 0x05), (0x21, 0), 0xf1, 0x04),
    (Op::Or, (0xf0, 0x05), (0x21, 0x30), 0xf1, 0x04),
    (Op::Or, (0x00, 0x0f), (0xff, 0), 0xff, 0x00),
    (Op::Xor, (0xf0, 0x05), (0x21, 0x30), 0xd1, 0x35),
    (Op::Xor, (0x00, 0x0f), (0x00, 0x0f), 0x00, 0x0f),
    // moved
    (Op::Cat, (0xf0, 0x05), (0x21, 0x30), 0xf021, 0x0530),
    (Op::Shl, (0xf0, 0x05), (0x03, 0), 0x80, 0x28),
    (Op::Shl, (0xf0, 0x05), (0x21, 0), 0x00, 0x00),
    (Op::ShrU, (0xf0, 0x05), (0x02, 0), 0x3c, 0x01),
    (Op::ShrS, (0x70, 0x81), (0x02, 0), 0x1c, 0xe0),
    (Op::ShrS, (0xf0, 0x05), (0x21, 0), 0xff, 0x00),
    (Op::Shl, (0x01, 0), (0x02, 0x01), 0x04, 0xff),
    (Op::ShrU, (0xf0, 0), (0x02, 0x01), 0x3c, 0xff),
    (Op::ShrS, (0xf0, 0), (0x02, 0x80), 0xfc, 0xff),
    // tests as numbers of one bit
    (Op::Eq, (0xf0, 0x05), (0x21, 0), 0, 0),
    (Op::Eq, (0x21, 0x05), (0x21, 0), 1, 1),
    (Op::LtU, (0xf0, 0x05), (0x21, 0), 0, 0),
    (Op::LtU, (0x21, 0x05), (0x21, 0), 0, 1),
    (Op::LeU, (0x21, 0x05), (0x25, 0), 1, 0),
    (Op::LeU, (0x21, 0x05), (0x24, 0), 1, 1),
    (Op::LtS, (0xf0, 0x05), (0x21, 0), 1, 0),
    (Op::LeS, (0xf0, 0x80), (0x21, 0), 1, 1),
];

/// A test, its operands, its truth under zeros, and whether it may be another.
const TESTS: [(Op, Byte, Byte, bool, bool); 17] = [
    (Op::Eq, (0x12, 0), (0x12, 0), true, false),
    (Op::Eq, (0x10, 0x01), (0x20, 0x01), false, false),
    (Op::Eq, (0x10, 0x01), (0x10, 0), true, true),
    (Op::Eq, (0x10, 0x01), (0x11, 0), false, true),
    (Op::LtU, (0x00, 0x0f), (0x10, 0), true, false),
    (Op::LtU, (0x00, 0x1f), (0x10, 0), true, true),
    (Op::LtU, (0x10, 0x0f), (0x10, 0), false, false),
    (Op::LtU, (0x00, 0x80), (0x80, 0), true, true),
    (Op::LeU, (0x10, 0x0f), (0x10, 0), true, true),
    (Op::LeU, (0x00, 0x10), (0x10, 0), true, false),
    (Op::LeU, (0x20, 0x01), (0x10, 0x0f), false, false),
    (Op::LtS, (0x80, 0x7f), (0x00, 0), true, false),
    (Op::LtS, (0x00, 0x80), (0x00, 0), false, true),
    (Op::LtS, (0x7f, 0x01), (0x00, 0x0f), false, false),
    (Op::LeS, (0x7f, 0), (0x80, 0x7f), false, false),
    (Op::LeS, (0x00, 0x80), (0x00, 0x7f), true, false),
    (Op::LeS, (0x00, 0), (0x00, 0x80), true, true),
];

/// A value, its negation, its complement, its bits from 5 to 2, and it at 12 bits with its sign, at 12 without, and at 4.
const PARTS: [(Byte, [(u128, u128); 6]); 5] = [
    (
        (0xf0, 0x00),
        [
            (0x10, 0x00),
            (0x0f, 0x00),
            (0xc, 0x0),
            (0xff0, 0x000),
            (0x0f0, 0x000),
            (0x0, 0x0),
        ],
    ),
    (
        (0xf0, 0x85),
        [
            (0x10, 0x9f),
            (0x0f, 0x85),
            (0xc, 0x1),
            (0xff0, 0xf85),
            (0x0f0, 0x085),
            (0x0, 0x5),
        ],
    ),
    (
        (0x10, 0x80),
        [
            (0xf0, 0x80),
            (0xef, 0x80),
            (0x4, 0x0),
            (0x010, 0xf80),
            (0x010, 0x080),
            (0x0, 0x0),
        ],
    ),
    (
        (0x00, 0x04),
        [
            (0x00, 0xfc),
            (0xff, 0x04),
            (0x0, 0x1),
            (0x000, 0x004),
            (0x000, 0x004),
            (0x0, 0x4),
        ],
    ),
    (
        (0x6c, 0x10),
        [
            (0x94, 0x10),
            (0x93, 0x10),
            (0xb, 0x4),
            (0x06c, 0x010),
            (0x06c, 0x010),
            (0xc, 0x0),
        ],
    ),
];

const FALSE: TaintFlag = TaintFlag {
    truth: false,
    may_differ: false,
};

const TRUE: TaintFlag = TaintFlag {
    truth: true,
    may_differ: false,
};

/// False and true under zeros, and perhaps not in another run.
const OFF: TaintFlag = TaintFlag {
    truth: false,
    may_differ: true,
};

const ON: TaintFlag = TaintFlag {
    truth: true,
    may_differ: true,
};

/// Two flags, whether both hold, and whether one does.
const FLAGS: [(TaintFlag, TaintFlag, TaintFlag, TaintFlag); 16] = [
    (FALSE, FALSE, FALSE, FALSE),
    (FALSE, TRUE, FALSE, TRUE),
    (FALSE, OFF, FALSE, OFF),
    (FALSE, ON, FALSE, ON),
    (TRUE, FALSE, FALSE, TRUE),
    (TRUE, TRUE, TRUE, TRUE),
    (TRUE, OFF, OFF, TRUE),
    (TRUE, ON, ON, TRUE),
    (OFF, FALSE, FALSE, OFF),
    (OFF, TRUE, OFF, TRUE),
    (OFF, OFF, OFF, OFF),
    (OFF, ON, OFF, ON),
    (ON, FALSE, FALSE, ON),
    (ON, TRUE, ON, TRUE),
    (ON, OFF, OFF, ON),
    (ON, ON, ON, ON),
];

/// A flag, two sides, and the number and the mask of the choice.
const CHOICES: [(TaintFlag, Byte, Byte, u128, u128); 5] = [
    (TRUE, (0xf0, 0x05), (0x21, 0x30), 0xf0, 0x05),
    (FALSE, (0xf0, 0x05), (0x21, 0x30), 0x21, 0x30),
    (ON, (0xf0, 0x05), (0x21, 0x30), 0xf0, 0xf5),
    (OFF, (0xf0, 0x05), (0x21, 0x30), 0x21, 0xf5),
    (OFF, (0x21, 0), (0x21, 0), 0x21, 0x00),
];

/// A byte with its mask, and the number and the mask of its square and one more.
const SQUARES: [(Byte, u128, u128); 4] = [
    ((0, 0), 1, 0),
    ((15, 0), 226, 0),
    ((255, 0), 2, 0),
    ((15, 0x10), 226, 0xf0),
];

fn flag(truth: bool, may_differ: bool) -> TaintFlag {
    TaintFlag { truth, may_differ }
}

fn tainted(of: Byte) -> Tainted
    ensures width { result.number.width ≡ 8 }
{
    Tainted {
        number: byte(of.0),
        mask: byte(of.1),
    }
}

/// The width, the number and the mask of a value.
fn parts(value: Tainted) -> (u8, u128, u128) {
    (value.number.width, value.number.value, value.mask.value)
}

fn masks_of_operators(rt: &impl Abort) -> Result<(), Fail> {
    let mut domain = TaintDomain::new();
    for (op, first, second, number, mask) in OPERATORS {
        let value = domain.binary(op, &tainted(first), &tainted(second))?;
        assert_eq!(rt;
            (value.number.value, value.mask.value),
            (number, mask),
            "{op:?} {first:?} {second:?}"
        );
    }
    Ok(())
}

/// What `PARTS` has of a value.
fn parts_of(of: Byte) -> Result<[Tainted; 6], AllocError> {
    let mut domain = TaintDomain::new();
    let a = tainted(of);
    Ok([
        domain.unary(Op::Neg, &a)?,
        domain.unary(Op::Not, &a)?,
        domain.slice(&a, 5, 2)?,
        domain.extend(&a, 12, true)?,
        domain.extend(&a, 12, false)?,
        domain.extend(&a, 4, true)?,
    ])
}

fn masks_of_parts(rt: &impl Abort) -> Result<(), Fail> {
    for (of, expected) in PARTS {
        let values = parts_of(of)?;
        for i in 0..6 {
            let value = values[i];
            assert_eq!(rt;
                (value.number.value, value.mask.value),
                expected[i],
                "{of:?} {i}"
            );
        }
    }
    Ok(())
}

fn masks_of_generic_code(rt: &impl Abort) -> Result<(), Fail> {
    let mut domain = TaintDomain::new();
    for (of, number, mask) in SQUARES {
        let value = square_and_one(&mut domain, &tainted(of))?;
        assert_eq!(rt; parts(value), (8, number, mask), "{of:?}");
    }
    let mut cells = [tainted((0, 0)), tainted((15, 0x10))];
    square_all(&mut domain, &mut cells)?;
    assert_eq!(rt;
        (parts(cells[0]), parts(cells[1])),
        ((8, 1, 0), (8, 226, 0xf0))
    );
    Ok(())
}

#[test]
fn masks_are_those_by_hand(rt: HostRuntime) -> Result<(), Fail> {
    masks_of_operators(&rt)?;
    masks_of_parts(&rt)?;
    masks_of_generic_code(&rt)
}

fn truths_of_tests(rt: &impl Abort) -> Result<(), Fail> {
    let mut domain = TaintDomain::new();
    for (op, first, second, truth, may_differ) in TESTS {
        let test = domain.compare(op, &tainted(first), &tainted(second))?;
        assert_eq!(rt;
            (test, test.is_known()),
            (flag(truth, may_differ), !may_differ),
            "{op:?} {first:?} {second:?}"
        );
    }
    Ok(())
}

fn combinations_of_flags(rt: &impl Abort) -> Result<(), Fail> {
    let mut domain = TaintDomain::new();
    for (f, g, both, either) in FLAGS {
        let found = (domain.both(&f, &g)?, domain.either(&f, &g)?);
        assert_eq!(rt; found, (both, either), "{f:?} {g:?}");
    }
    let opposite = (domain.not(&OFF)?, domain.not(&TRUE)?, domain.fixed(true)?);
    assert_eq!(rt; opposite, (ON, FALSE, TRUE));
    Ok(())
}

fn choices_of_sides(rt: &impl Abort) -> Result<(), Fail> {
    let mut domain = TaintDomain::new();
    for (f, first, second, number, mask) in CHOICES {
        let value = domain.choose(&f, &tainted(first), &tainted(second))?;
        assert_eq!(rt; parts(value), (8, number, mask), "{f:?}");
    }
    Ok(())
}

/// Where the read gives 0 it is not 1, and the choice is the second side.
fn choice_under_a_read(rt: &impl Abort) -> Result<(), Fail> {
    let mut domain = TaintDomain::new();
    let (read, one) = (domain.unspecified(0, 8)?, domain.constant(byte(1))?);
    let is_one = domain.compare(Op::Eq, &read, &one)?;
    let chosen = domain.choose(&is_one, &tainted((10, 0)), &tainted((11, 0)))?;
    assert_eq!(rt; (parts(read), parts(one)), ((8, 0x00, 0xff), (8, 1, 0)));
    assert_eq!(rt; (read.is_clear(), one.is_clear()), (false, true));
    assert_eq!(rt; (is_one, parts(chosen)), (OFF, (8, 11, 0x01)));
    Ok(())
}

#[test]
fn flags_and_choices_are_those_by_hand(rt: HostRuntime) -> Result<(), Fail> {
    truths_of_tests(&rt)?;
    combinations_of_flags(&rt)?;
    choices_of_sides(&rt)?;
    choice_under_a_read(&rt)
}
