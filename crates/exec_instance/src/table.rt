//! The table of effects on running instances.

/// The rows of the table, in their order, but for drops and starts.
#[derive(Clone, Copy)]
pub enum Row {
    More,
    Ended,
    Killed,
    Suspended,
    Resumed,
}
