//! What a reaction of nets is settled by.

use crate::watchers::Watchers;
use net_list::record::NetRecords;
use net_solution::question::Asked;

/// The nets, what the reaction begins with, and who reads what.
#[derive(Clone, Copy)]
pub struct Task<'a> {
    pub nets: &'a NetRecords,
    pub asked: Asked<'a>,
    pub watchers: &'a Watchers,
}
