//! The limits of kernel programs.

/// The most that the nodes of a program count, with their expressions and texts.
pub const SIZE_LIMIT: u32 = 65_536;

/// The most that they count where the body of each loop stands twice.
pub const COPIED_LIMIT: u32 = 1_048_576;

/// The most nodes one inside another, a loop counting two.
pub const HEIGHT_LIMIT: u32 = 1_024;

/// The most traps round one node.
pub const TRAP_LIMIT: u8 = 32;

/// The most async sites of a program.
pub const SITE_LIMIT: u32 = 1_024;
