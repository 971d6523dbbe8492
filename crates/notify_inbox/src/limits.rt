//! The limits of an inbox.

/// The places of an inbox, and the most answers that are taken at once.
pub const INBOX_PLACES: usize = 4_096;

/// The most posters that an inbox is made for.
pub const POSTER_LIMIT: u32 = 9;
