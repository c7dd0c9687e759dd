//! The limits that several crates share.

/// The largest cost of an action and value of a function term.
pub const LARGEST_NUMBER: u32 = 1_000_000;

/// The most states that a search may go through.
pub const MOST_STATES: u32 = 200_000;

/// The most instances that may be due in one level: more end a run.
pub const MOST_DUE: usize = 1_000_000;

/// The most entries that may be supposed at a time.
pub const MOST_SUPPOSED: usize = 20_000;

/// The largest count, that of 32 bits: a report has no larger number, and no more is counted of
/// what an instance gave.
pub const LARGEST_COUNT: u32 = u32::MAX;

/// The most objects that stand for an action, an item or a stream: its parameters, or inputs and
/// outputs, and the variables of the `exists` that are open.
pub const SLOTS: usize = 16;
