//! The limits of a scan.

/// How many tokens and replaced names a source may have.
pub const MAX_WORDS: usize = 1_000_000;

/// What the words and replaced names that come of a source may weigh together, before annotations are dropped. Each
/// weighs its bytes and sixteen more.
pub const MAX_WEIGHT: usize = 67_108_864;
