//! The gates that join a statement to what stands round it.

/// The gates by which a statement is started, resumed, suspended and killed.
#[derive(Clone, Copy)]
pub struct Controls {
    pub go: u32,
    pub resume: u32,
    pub suspend: u32,
    pub kill: u32,
}

/// The gate of a statement's selection, and those of its completion codes: the place in the list is the code.
#[derive(Drop)]
pub struct Ends {
    pub sel: u32,
    pub codes: Vec<Option<u32>>,
}
