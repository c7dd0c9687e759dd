// Calls that fail by their numbers.
ghost use Rattle.std.specs.Prelude.{◌≡◌, ◌-◌};
ghost use Rattle.io_world.specs.Plans.{Plan, planned, fails_next, after_call};

use std::marker::Model;

/// The numbers, from 0, of the calls that fail, and how many calls there were so far. That number
/// stops at `2^64 - 1`.
#[derive(Drop)]
pub struct Schedule {
    fails: Vec<u64>,
    next: u64,
}

impl Model for Schedule {
    ghost Value = { Plan };

    ghost view = { λ s. record { fails = s.fails.items; next = s.next } };
}

impl Schedule {
    /// No call was made yet.
    pub fn new(fails: Vec<u64>) -> Schedule
        ensures { result ≡ planned fails.items }
    {
        Schedule { fails, next: 0 }
    }

    /// Counts one call, and says whether it fails.
    pub fn call(&mut self) -> bool
        ensures fails { result ≡ fails_next self.old }
        ensures next { self.new ≡ after_call self.old }
    {
        let fails = self.fails.contains(&self.next);
        self.next = self.next.saturating_add(1);
        fails
    }

    /// The number of the next call.
    pub fn next(&self) -> u64
        ensures { result ≡ self.now.next }
    {
        self.next
    }
}
