//! Reports.
use crate::entry::Entry;
use crate::head::{Mode, PoolLine};
use crate::outcome::Outcome;
use task_model::Seq;

/// All that a report says.
#[derive(Drop)]
pub struct Report {
    /// Its version, 1 or 2.
    pub version: u8,
    /// The mode.
    pub mode: Mode,
    /// The most calls.
    pub calls: u32,
    /// The most states of a search.
    pub states: u32,
    /// How deep entries are supposed.
    pub depth: u8,
    /// The pools.
    pub pools: Seq<PoolLine>,
    /// The transcript.
    pub entries: Seq<Entry>,
    /// What came of it.
    pub outcome: Outcome,
}
