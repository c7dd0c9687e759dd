// One child of a host, as an object.
ghost use Rattle.std.specs.Prelude.{◌≡◌, ◌<◌, ◌≤◌, ℕ, Bool, true, false, Option, length, take, option_map, is_ok, IfOk, MatchResult};
ghost use Rattle.io_world.specs.Faults.{last_count, Counts, HasCause};
ghost use Rattle.io_world.specs.Talks.{Talk, silence, wrote_more, heard_more};
ghost use Rattle.io_world.specs.declared.host.HostFault.TheVariants.{Failed};

use io_world::HostFault;

/// One child of a host: a program that is started, written to, read from and stopped.
///
/// It tells whether it runs: from an Ok of `start` until `stop` answers, whatever that answers. It
/// may tell what was said since it was started: an Ok of `start` empties it, an Ok of `send` or
/// `receive` adds the bytes taken or given, and nothing else changes it. Each fault is one more on
/// its count, and every other answer leaves the count.
pub trait Generator: Drop {
    /// How often a call has failed, at most `2^48 - 1`.
    ghost faults: { Self → ℕ };

    /// Whether it runs.
    ghost running: { Self → Bool };

    /// What was said since the start, where it is told.
    ghost spoken: { Self → Option Talk };

    /// Starts it by its program and its words: at least one. It has to be at rest.
    ///
    /// # Errors
    /// `Failed` only where the count of faults rose in this call; `Memory`. It doesn't run then.
    fn start(&mut self, argv: &[String]) -> Result<(), HostFault>
        requires words { 0 < length argv.now }
        requires idle { running self.old ≡ false }
        ensures running { running self.new ≡ is_ok result }
        ensures spoken { MatchResult result
            (λ _. spoken self.new ≡ option_map (λ (talk : Talk). silence) (spoken self.old))
            (λ _. spoken self.new ≡ spoken self.old) }
        ensures cause { HasCause Failed last_count (faults self.old) (faults self.new) result }
        ensures counts { Counts Failed last_count (faults self.old) (faults self.new) result };

    /// Writes the first of these bytes, and answers how many it took: at least 1. There has to be
    /// one, and it has to run.
    ///
    /// # Errors
    /// `Failed` only where the count of faults rose in this call; `Memory`. It still runs.
    fn send(&mut self, bytes: &[u8]) -> Result<usize, HostFault>
        requires some { 0 < length bytes.now }
        requires runs { running self.old ≡ true }
        ensures count { IfOk result (λ n. (0 < n) × (n ≤ length bytes.now)) }
        ensures running { running self.new ≡ true }
        ensures spoken { MatchResult result
            (λ n. spoken self.new ≡ option_map (wrote_more (take n bytes.now)) (spoken self.old))
            (λ _. spoken self.new ≡ spoken self.old) }
        ensures cause { HasCause Failed last_count (faults self.old) (faults self.new) result }
        ensures counts { Counts Failed last_count (faults self.old) (faults self.new) result };

    /// Puts bytes of it at the beginning of the room, and answers how many: at least 1. There has
    /// to be room, and it has to run.
    ///
    /// # Errors
    /// `Failed` only where the count of faults rose in this call, the end of its output being such
    /// a fault; `Memory`. It still runs.
    fn receive(&mut self, room: &mut [u8]) -> Result<usize, HostFault>
        requires some { 0 < length room.old }
        requires runs { running self.old ≡ true }
        ensures count { IfOk result (λ n. (0 < n) × (n ≤ length room.new)) }
        ensures running { running self.new ≡ true }
        ensures spoken { MatchResult result
            (λ n. spoken self.new ≡ option_map (heard_more (take n room.new)) (spoken self.old))
            (λ _. spoken self.new ≡ spoken self.old) }
        ensures cause { HasCause Failed last_count (faults self.old) (faults self.new) result }
        ensures counts { Counts Failed last_count (faults self.old) (faults self.new) result };

    /// Ends it. It has to run, and doesn't run afterwards, whatever the answer.
    ///
    /// # Errors
    /// `Failed` only where the count of faults rose in this call; `Memory`.
    fn stop(&mut self) -> Result<(), HostFault>
        requires runs { running self.old ≡ true }
        ensures running { running self.new ≡ false }
        ensures spoken { spoken self.new ≡ spoken self.old }
        ensures cause { HasCause Failed last_count (faults self.old) (faults self.new) result }
        ensures counts { Counts Failed last_count (faults self.old) (faults self.new) result };

    /// The count of faults. It never falls, and stops at `2^48 - 1`.
    fn faults(&self) -> u64
        ensures count { result ≡ faults self.now }
        ensures bound { result ≤ last_count };
}
