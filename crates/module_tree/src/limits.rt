//! The limits of a module text.

/// The most `(` and `{` that are open at one place.
pub const OPEN_LIMIT: u8 = 128;

/// The largest number of `count`; the least is 1.
pub const COUNT_LIMIT: u64 = 64;
