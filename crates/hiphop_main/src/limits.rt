//! The limits of the commands.

/// The most bytes that an input has.
pub const INPUT_LIMIT: usize = 16_777_216;
