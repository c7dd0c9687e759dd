// Where bytes come from.
ghost use Rattle.std.specs.Prelude.{◌≡◌, ◌<◌, ◌≤◌, ℕ, List, Option, length};
ghost use Rattle.std.specs.Io.{ReadsAtMost};
ghost use Rattle.std.specs.Io.KnownBytes.{ReadConsumes};
ghost use Rattle.io_world.specs.Faults.{last_count, HasCause};
ghost use Rattle.io_world.specs.declared.source.SourceFault.TheVariants.{Failed};

/// Why a source gave nothing.
#[derive(Clone, Copy, Debug, PartialEq, Eq)]
pub enum SourceFault {
    /// The read failed. The count of faults rose.
    Failed,
}

/// Something that gives bytes to an end, such as standard input.
///
/// It may tell the bytes that are left. An Ok then gives the first of them and leaves the rest, and
/// a fault leaves them all.
pub trait Source {
    /// How often a call has failed, at most `2^48 - 1`.
    ghost faults: { Self → ℕ };

    /// The bytes left, where they are told.
    ghost left: { Self → Option (List ℕ) };

    /// Puts bytes at the beginning of the room, and answers how many. 0 is the end of the input,
    /// and where the bytes left are told, it comes exactly where none is left. There has to be
    /// room.
    ///
    /// # Errors
    /// `Failed` only where the count of faults rose in this call.
    fn read(&mut self, room: &mut [u8]) -> Result<usize, SourceFault>
        requires { 0 < length room.old }
        ensures count { ReadsAtMost result room.new }
        ensures bytes { ReadConsumes (left self.old) (left self.new) result room.new }
        ensures cause { HasCause Failed last_count (faults self.old) (faults self.new) result };

    /// The count of faults. It never falls, and stops at `2^48 - 1`.
    fn faults(&self) -> u64
        ensures count { result ≡ faults self.now }
        ensures bound { result ≤ last_count };
}
