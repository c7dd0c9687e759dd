//! The limits that a head may have.

/// The most calls of a session, and the largest number that an ask may have.
pub const MOST_CALLS: u32 = 100_000;

/// The greatest depth of a session.
pub const MOST_DEPTH: u8 = 8;

/// The most workers of a pool.
pub const WORKERS: u8 = 16;
