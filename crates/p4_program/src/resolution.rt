//! What unspecified reads give.
use bits_core::BitsList;
use sqlite_items::Items;

/// What each numbered read of lowered code gives, in the order of their numbers.
pub type Resolution = BitsList;

/// A list of resolutions.
pub type Resolutions = Items<Resolution>;
