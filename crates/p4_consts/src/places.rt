//! The places of the bits of a slice.
ghost use Rattle.std.specs.Prelude.{◌<◌};

/// The high one, and the low one. A width of type `u8` counts the bits.
#[derive(Clone, Copy, Debug, PartialEq, Eq)]
pub struct Places {
    pub high: u8,
    pub low: u8,
    pub ghost counted: { high < 255 },
}
