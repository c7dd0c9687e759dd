// A source in memory.
ghost use Rattle.std.specs.Prelude.{◌≡◌, ◌<◌, ◌≤◌, ◌-◌, Some, length, drop, min, IfOk};
ghost use Rattle.std.specs.Io.{ReadsAtMost};
ghost use Rattle.std.specs.Io.KnownBytes.{ReadConsumes};
ghost use Rattle.io_world.specs.Faults.{last_count, HasCause, Counts};
ghost use Rattle.io_world.specs.Plans.{planned, fails_next, after_call, cut_or, FailsWhere};
ghost use Rattle.io_world.specs.MemSourceState.{MemSourceState};
ghost use Rattle.io_world.specs.declared.source.SourceFault.TheVariants.{Failed};

use crate::fault_count::FaultCount;
use crate::pieces::{cut_at, give};
use crate::schedule::Schedule;
use crate::source::{Source, SourceFault};
use std::marker::Model;

/// A source that gives bytes in stated pieces, and fails where it is told to.
#[derive(Drop)]
pub struct MemSource {
    bytes: Vec<u8>,
    given: usize,
    cuts: Vec<usize>,
    schedule: Schedule,
    faults: FaultCount,
}

impl Model for MemSource {
    ghost Value = { MemSourceState };

    ghost view = { λ s. record {
      left = drop s.given s.bytes.items;
      cuts = s.cuts.items;
      plan = s.schedule;
      faults = s.faults;
    } };

    ghost invariant = { λ s. s.given ≤ length s.bytes.items };
}

impl MemSource {
    /// A source of these bytes. The i-th call of `read`, from 0, gives at most `cuts[i]` bytes,
    /// where such a cut is stated and at least 1. The calls whose numbers stand in `fails` fail.
    pub fn new(bytes: Vec<u8>, cuts: Vec<usize>, fails: Vec<u64>) -> MemSource
        ensures { result ≡ record {
          left = bytes.items;
          cuts = cuts.items;
          plan = planned
              fails.items;
          faults = 0;
        } }
    {
        MemSource {
            bytes,
            given: 0,
            cuts,
            schedule: Schedule::new(fails),
            faults: FaultCount::new(),
        }
    }
}

impl Source for MemSource {
    ghost faults = { λ s. s.faults };

    ghost left = { λ s. Some s.left };

    /// It gives as many bytes as the cut, the room and the rest allow.
    fn read(&mut self, room: &mut [u8]) -> Result<usize, SourceFault>
        requires { 0 < length room.old }
        ensures count { ReadsAtMost result room.new }
        ensures bytes { ReadConsumes (Some self.old.left) (Some self.new.left) result room.new }
        ensures cause { HasCause Failed last_count self.old.faults self.new.faults result }
        ensures counts { Counts Failed last_count self.old.faults self.new.faults result }
        ensures most { IfOk result (λ n. n
            ≡ min (length self.old.left)
            (min (length room.new) (cut_or self.old.cuts self.old.plan.next (length room.new)))) }
        ensures fails { FailsWhere Failed (fails_next self.old.plan) result }
        ensures kept { self.new ≡ record self.old
            { left = self.new.left; plan = after_call self.old.plan; faults = self.new.faults } }
    {
        let cut = cut_at(&self.cuts, self.schedule.next(), room.len());
        if self.schedule.call() {
            self.faults.raise();
            return Err(SourceFault::Failed);
        }
        let count = give(&self.bytes[self.given..], room, cut);
        self.given += count;
        Ok(count)
    }

    fn faults(&self) -> u64 {
        self.faults.get()
    }
}
