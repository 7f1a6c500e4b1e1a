//! The number of some of a point's bits.
ghost use Rattle.std.specs.Prelude.{◌≡◌, ◌+◌, ◌<◌, ◌≤◌, IfSome, IfNone, length, reverse};
ghost use Rattle.bits_core.specs.declared.number.TheConstants.{MAX_WIDTH};
ghost use Rattle.bits_core.specs.BitList.{number_of};
ghost use Rattle.term_dag.specs.Value.{InputGives};

use bits_core::{Bits, Point};

/// The number of `width` of the point's input bits from `first` on, where it has them.
pub(crate) fn input_value(point: &Point, first: u32, width: u8) -> Option<Bits>
    requires some_bit { 1 ≤ width }
    requires at_most_widest { width ≤ MAX_WIDTH }
    ensures some { IfSome result (InputGives point.now first width) }
    ensures none { IfNone result (length point.now.inputs < first + width) }
{
    let first = first as usize;
    let bits = point.inputs.as_slice().get(first..first + width as usize)?;
    Some(Bits::wrapping(width, number_of_bits(bits)))
}

/// The number with these bits, the first most significant.
fn number_of_bits(bits: &[bool]) -> u128
    requires { length bits.now ≤ MAX_WIDTH }
    ensures { result ≡ number_of (reverse bits.now) }
{
    let mut number = 0;
    for bit in bits {
        number = 2 * number + *bit as u128;
    }
    number
}
