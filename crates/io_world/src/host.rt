// Children, by number: they are started, written to, read from and stopped.
ghost use Rattle.std.specs.Prelude.{◌≡◌, ◌<◌, ◌≤◌, ℕ, Bool, true, false, List, Option, length, take, map, string_bytes, IfOk, MatchResult};
ghost use Rattle.io_world.specs.Faults.{last_count, HasCause};
ghost use Rattle.io_world.specs.Leads.{wants_memory};
ghost use Rattle.io_world.specs.Talks.{Talk, Event, started, wrote, heard, stopped, given, Logs, SpellsTalk, Same, Becomes, Empties, Writes, Hears};
ghost use Rattle.io_world.specs.declared.host.HostFault.TheVariants.{Failed};

/// How many children a host has: their numbers are those below it.
pub const CHILDREN: usize = 17;

/// Why a call on a child was not done.
#[derive(Clone, Copy, Debug, PartialEq, Eq)]
pub enum HostFault {
    /// The child failed. The count of faults rose.
    Failed,
    /// There was no memory.
    Memory,
}

/// Children with the numbers 0 to 16, each a program that is written to and read from.
///
/// Every host tells which children run: a child runs from an Ok of its `start` until its `stop`
/// answers, whatever that answers.
///
/// It may tell what was said with each child since it was started: an Ok of `start` empties it, an
/// Ok of `write` or `read` adds the bytes taken or given, and nothing else changes it. It may tell
/// the log of all calls on all children in order, with their answers. A host that tells its log
/// tells what was said with each child that runs, and that is what the log spells.
///
/// It may say what calls make of it (`leads`), so that who hands a host to generic code knows what
/// became of it there.
pub trait Host {
    /// How often a call has failed, at most `last`.
    ghost faults: { Self → ℕ };

    /// The last value of the count.
    ghost last: { ℕ };

    /// Which children run.
    ghost running: { Self → ℕ → Bool };

    /// What was said with a child since it was started, where that is told.
    ghost spoken: { Self → ℕ → Option Talk };

    /// All calls on all children, where they are told.
    ghost log: { Self → Option (List Event) };

    /// What calls made of a host; the last argument says that one of them may have wanted memory.
    ghost leads: { Self → Self → Bool → Type 0 };

    /// Starts a child that doesn't run, by its program and its words: at least one.
    ///
    /// # Errors
    /// `Failed` only where the count of faults rose in this call; `Memory`. The child doesn't run.
    fn start(&mut self, child: u8, argv: &[String]) -> Result<(), HostFault>
        requires number { child < CHILDREN }
        requires words { 0 < length argv.now }
        requires idle { running self.old child ≡ false }
        ensures running { MatchResult result
            (λ _. Becomes child true (running self.old) (running self.new))
            (λ _. Same (running self.old) (running self.new)) }
        ensures spoken { MatchResult result (λ _. Empties child (spoken self.old) (spoken self.new))
            (λ _. Same (spoken self.old) (spoken self.new)) }
        ensures log { Logs (log self.old) (log self.new)
            (started child (map string_bytes argv.now) result) }
        ensures cause { HasCause Failed last (faults self.old) (faults self.new) result }
        ensures leads { leads self.old self.new (wants_memory result) };

    /// Writes the first of these bytes to a running child, and answers how many it took: at least
    /// 1. There has to be one.
    ///
    /// # Errors
    /// `Failed` only where the count of faults rose in this call; `Memory`. The child still runs.
    fn write(&mut self, child: u8, bytes: &[u8]) -> Result<usize, HostFault>
        requires number { child < CHILDREN }
        requires some { 0 < length bytes.now }
        requires runs { running self.old child ≡ true }
        ensures count { IfOk result (λ n. (0 < n) × (n ≤ length bytes.now)) }
        ensures running { Same (running self.old) (running self.new) }
        ensures spoken { MatchResult result
            (λ n. Writes child (take n bytes.now) (spoken self.old) (spoken self.new))
            (λ _. Same (spoken self.old) (spoken self.new)) }
        ensures log { Logs (log self.old) (log self.new) (wrote child bytes.now result) }
        ensures cause { HasCause Failed last (faults self.old) (faults self.new) result }
        ensures leads { leads self.old self.new (wants_memory result) };

    /// Puts bytes of a running child at the beginning of the room, and answers how many: at least
    /// 1. There has to be room.
    ///
    /// # Errors
    /// `Failed` only where the count of faults rose in this call, the end of the child's output
    /// being such a fault; `Memory`. The child still runs.
    fn read(&mut self, child: u8, room: &mut [u8]) -> Result<usize, HostFault>
        requires number { child < CHILDREN }
        requires some { 0 < length room.old }
        requires runs { running self.old child ≡ true }
        ensures count { IfOk result (λ n. (0 < n) × (n ≤ length room.new)) }
        ensures running { Same (running self.old) (running self.new) }
        ensures spoken { MatchResult result
            (λ n. Hears child (take n room.new) (spoken self.old) (spoken self.new))
            (λ _. Same (spoken self.old) (spoken self.new)) }
        ensures log { Logs (log self.old) (log self.new)
            (heard child (length room.old) (given result room.new)) }
        ensures cause { HasCause Failed last (faults self.old) (faults self.new) result }
        ensures leads { leads self.old self.new (wants_memory result) };

    /// Ends a running child. It doesn't run afterwards, whatever the answer.
    ///
    /// # Errors
    /// `Failed` only where the count of faults rose in this call; `Memory`.
    fn stop(&mut self, child: u8) -> Result<(), HostFault>
        requires number { child < CHILDREN }
        requires runs { running self.old child ≡ true }
        ensures running { Becomes child false (running self.old) (running self.new) }
        ensures spoken { Same (spoken self.old) (spoken self.new) }
        ensures log { Logs (log self.old) (log self.new) (stopped child result) }
        ensures cause { HasCause Failed last (faults self.old) (faults self.new) result }
        ensures leads { leads self.old self.new false };

    /// The count of faults. It never falls.
    fn faults(&self) -> u64
        ensures count { result ≡ faults self.now }
        ensures bound { result ≤ last };

    /// A log that is told says what was said with each child that runs.
    ghost spells: { (host : Self) (child : ℕ) → running host child ≡ true
        → SpellsTalk (log host) child (spoken host child) };

    /// A count stands at its last value only after very many faults.
    ghost high: { last_count ≤ last };

    /// Without a call nothing is made of a host.
    ghost stays: { (h : Self) → leads h h false };

    /// Calls behind others, of which none wanted memory, are calls in a row.
    ghost chains: { (a b c : Self) (m : Bool) → leads a b false → leads b c m → leads a c m };

    /// So are calls that didn't want memory behind others of which one may have wanted it.
    ghost ends: { (a b c : Self) (m : Bool) → leads a b m → leads b c false → leads a c m };
}
