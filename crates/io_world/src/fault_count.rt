// How often an object has failed.
ghost use Rattle.std.specs.Prelude.{◌≡◌, ◌+◌, ◌≤◌, ℕ, min};
ghost use Rattle.io_world.specs.Faults.{last_count};

use std::marker::Model;

/// A count of faults. It never falls, and stops at `FaultCount::LAST`.
#[derive(Drop)]
pub struct FaultCount {
    count: u64,
}

impl Model for FaultCount {
    ghost Value = { ℕ };

    ghost view = { λ s. s.count };

    ghost invariant = { λ s. s.count ≤ last_count };
}

impl FaultCount {
    /// The last value of a count, `2^48 - 1`.
    pub const LAST: u64 = (1 << 48) - 1;

    /// No fault yet.
    pub fn new() -> FaultCount
        ensures { result ≡ 0 }
    {
        FaultCount { count: 0 }
    }

    /// Counts one more fault.
    pub fn raise(&mut self)
        ensures count { self.new ≡ min (self.old + 1) last_count }
        ensures later { self.old ≤ self.new }
    {
        if self.count < FaultCount::LAST {
            self.count += 1;
        }
    }

    /// The number of faults, at most `FaultCount::LAST`.
    pub fn get(&self) -> u64
        ensures count { result ≡ self.now }
        ensures bound { result ≤ last_count }
    {
        self.count
    }
}
