//! What a report begins with.
use task_model::{Name, Seq};

/// How the planner goes about it (PDDLStream 2020; the turns are this project's).
#[derive(Clone, Copy, PartialEq, Eq, Debug)]
pub enum Mode {
    /// Whole levels, until a plan exists.
    Incremental,
    /// The real entries of a dream.
    Focused,
    /// The entries of a dream, as they become real.
    Binding,
    /// Dreams that are kept and taken up again.
    Adaptive,
}

/// Workers that answer for some streams.
#[derive(Drop)]
pub struct Pool {
    /// The number of its first child.
    pub first: u8,
    /// How many workers it has, 1 to 16; they have the numbers from `first` on.
    pub workers: u8,
    /// The streams, by their places in the task.
    pub streams: Seq<u32>,
    /// The program and its words.
    pub argv: Seq<String>,
}

/// What a run was given besides its task.
#[derive(Drop)]
pub struct Head {
    /// The version of protocol and report, 1 or 2.
    pub version: u8,
    /// The mode.
    pub mode: Mode,
    /// The most calls, 1 to 100,000.
    pub calls: u32,
    /// The most states of a search, 1 to 200,000.
    pub states: u32,
    /// How deep entries are supposed, 1 to 8.
    pub depth: u8,
    /// Whether the cheapest plan is asked for; incremental mode alone.
    pub optimal: bool,
    /// The pools.
    pub pools: Seq<Pool>,
}

/// What a report shows of a pool.
#[derive(Drop)]
pub struct PoolLine {
    /// How many workers it has.
    pub workers: u8,
    /// The names of its streams, in the map's order.
    pub streams: Seq<Name>,
}
