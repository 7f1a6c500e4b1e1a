//! Outside values for `bits_core`: for each operator, for slices and extensions, and for numbers that there are not.
ghost use Rattle.std.specs.Prelude.{◌≡◌, IsTrue};
ghost use Rattle.bits_core.specs.Operator.{WidthsFit, shape_of};

use bits_core::{Bits, Op, OpShape, apply, extend, slice};
use std::process::Abort;

type Sized = (u8, u128);

type OperatorCase = (Op, Sized, Sized, Sized);

type SliceCase = (Sized, u8, u8, Sized);

type ExtensionCase = (Sized, u8, bool, Sized);

macro_rules! operator_cases {
    ($($op:ident $w:literal $a:literal, $v:literal $b:literal => $u:literal $c:literal;)*) => {
        [$((Op::$op, ($w, $a), ($v, $b), ($u, $c))),*]
    };
}

macro_rules! slice_cases {
    ($($w:literal $a:literal [$high:literal : $low:literal] => $u:literal $c:literal;)*) => {
        [$((($w, $a), $high, $low, ($u, $c))),*]
    };
}

macro_rules! extension_cases {
    ($($w:literal $a:literal at $width:literal, $signed:literal => $u:literal $c:literal;)*) => {
        [$((($w, $a), $width, $signed, ($u, $c))),*]
    };
}

mod table_bitwise;
mod table_extensions;
mod table_orders;
mod table_places;
mod table_slices;
mod table_sums;

use table_bitwise::TABLE_BITWISE;
use table_extensions::TABLE_EXTENSIONS;
use table_orders::TABLE_ORDERS;
use table_places::TABLE_PLACES;
use table_slices::TABLE_SLICES;
use table_sums::TABLE_SUMS;

/// Shifts by no place, by all but one, by all and past all; and the clamps of one signed bit.
const TABLE_ENDS: [OperatorCase; 15] = operator_cases! {
    Shl 8 0x81, 8 0 => 8 0x81;
    Shl 8 0x81, 8 7 => 8 0x80;
    Shl 8 0x81, 8 8 => 8 0x00;
    Shl 8 0x81, 8 255 => 8 0x00;
    ShrU 8 0x81, 8 7 => 8 0x01;
    ShrS 8 0x81, 8 1 => 8 0xc0;
    ShrS 8 0x81, 8 8 => 8 0xff;
    ShrS 8 0x81, 8 255 => 8 0xff;
    AddSatU 8 0xf0, 8 0x20 => 8 0xff;
    SubSatU 8 0x10, 8 0x20 => 8 0x00;
    AddSatS 8 0x7f, 8 0x01 => 8 0x7f;
    SubSatS 8 0x80, 8 0x01 => 8 0x80;
    Add 1 1, 1 1 => 1 0;
    AddSatS 1 1, 1 1 => 1 1;
    SubSatS 1 0, 1 1 => 1 0;
};

/// Widths and values of which there is no number: no bits, too many, and a value of one bit more.
const NO_NUMBERS: [Sized; 8] = [
    (0, 0),
    (129, 0),
    (255, 1),
    (1, 2),
    (8, 0x100),
    (64, 1 << 64),
    (127, 1 << 127),
    (127, u128::MAX),
];

#[test]
fn operators_give_outside_values(rt: HostRuntime) {
    compare(&rt, &TABLE_SUMS);
    compare(&rt, &TABLE_BITWISE);
    compare(&rt, &TABLE_PLACES);
    compare(&rt, &TABLE_ORDERS);
    compare(&rt, &TABLE_ENDS);
}

#[test]
fn parts_and_numbers_are_outside_values(rt: HostRuntime) {
    compare_slices(&rt, &TABLE_SLICES);
    compare_extensions(&rt, &TABLE_EXTENSIONS);
    for (width, value) in NO_NUMBERS {
        assert_eq!(rt; Bits::new(width, value), None, "{value:#x} at {width}");
    }
}

fn compare(rt: &impl Abort, cases: &[OperatorCase]) {
    for (op, a, b, expected) in cases {
        let left = number(rt, *a);
        let right = number(rt, *b);
        assert!(rt; widths_fit(*op, left, right), "{op:?} {left:?} {right:?}");
        let result = apply(*op, left, right);
        assert_eq!(rt; result, number(rt, *expected), "{op:?} {left:?} {right:?}");
    }
}

fn compare_slices(rt: &impl Abort, cases: &[SliceCase]) {
    for (a, high, low, expected) in cases {
        let whole = number(rt, *a);
        assert!(rt;
            low <= high && *high < whole.width,
            "{whole:?}[{high}:{low}]"
        );
        let part = slice(whole, *high, *low);
        assert_eq!(rt; part, number(rt, *expected), "{whole:?}[{high}:{low}]");
    }
}

fn compare_extensions(rt: &impl Abort, cases: &[ExtensionCase]) {
    for (a, width, signed, expected) in cases {
        let narrow = number(rt, *a);
        assert!(rt;
            1 <= *width && *width <= 128,
            "{narrow:?} at {width}, {signed}"
        );
        let wide = extend(narrow, *width, *signed);
        assert_eq!(rt;
            wide,
            number(rt, *expected),
            "{narrow:?} at {width}, {signed}"
        );
    }
}

/// The number of a row of a table, which has to be one.
fn number(rt: &impl Abort, sized: Sized) -> Bits
    ensures width { result.width ≡ sized.0 }
    ensures value { result.value ≡ sized.1 }
{
    let (width, value) = sized;
    let made = Bits::new(width, value);
    assert!(rt; made.is_some(), "{value:#x} at {width}");
    made.unwrap()
}

fn widths_fit(op: Op, a: Bits, b: Bits) -> bool
    ensures { IsTrue result → WidthsFit (shape_of op) a.width b.width }
{
    match op.shape() {
        OpShape::One | OpShape::Shift => true,
        OpShape::Same | OpShape::Test => a.width == b.width,
        OpShape::Join => a.width <= 128 - b.width,
    }
}
