//! Points of eight input bits.
use bits_core::{BitsList, Point};
use sqlite_items::Items;
use std::alloc::{AllocError, Global};

/// The point with the bits of the number, the first most significant, and no read.
pub(crate) fn point_of(alloc: Global, number: u8) -> Result<Point, AllocError> {
    let mut inputs = Items::new(alloc);
    for place in 0..8u8 {
        inputs.push(number >> (7 - place) & 1 == 1)?;
    }
    Ok(Point {
        inputs,
        reads: BitsList::new(alloc),
    })
}
