//! The limit of a source's depth.

/// How many counted forms may be open around a token.
pub const MAX_DEPTH: usize = 64;
