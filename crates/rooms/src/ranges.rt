// The ranges of fields.

pub const MOST_OHMS: u32 = 100_000;

pub const MOST_FEMTOFARADS: u32 = 100_000;

pub const MOST_OWN: i64 = 1_000_000_000;

pub const EARLIEST_DUE: i64 = -1_000_000_000_000;

pub const LATEST_DUE: i64 = 1_000_000_000_000;

pub const MOST_PARENT: u32 = 255;

pub const MOST_SITE: u32 = 1;

// A number above the range of every word: a field that is greater is cut to it, and is still out of range.
pub const WORD_CAP: u64 = 2_000_000_000;
