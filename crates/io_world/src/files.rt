// Files by path.
ghost use Rattle.std.specs.Prelude.{◌≡◌, ◌<◌, ◌≤◌, [], ◌∷◌, ℕ, List, Option, length, IfOk};
ghost use Rattle.io_world.specs.Faults.{last_count, HasCause, Extends};
ghost use Rattle.io_world.specs.FileMap.{FileMap, AskedPath, answered, ReadsFile};
ghost use Rattle.io_world.specs.declared.files.FileFault.TheVariants.{Failed};

/// Why a file was not read.
#[derive(Clone, Copy, Debug, PartialEq, Eq)]
pub enum FileFault {
    /// The read failed, as for a path that isn't there. The count of faults rose.
    Failed,
    /// The file has more bytes than were asked for.
    TooLong,
    /// There was no memory.
    Memory,
}

/// Files that can be read by their paths.
///
/// It may tell a map from path to bytes, which no call changes, and the list of all calls so far:
/// each path with Ok or the fault that was answered.
pub trait Files {
    /// How often a call has failed, at most `2^48 - 1`.
    ghost faults: { Self → ℕ };

    /// What stands under each path, where it is told.
    ghost told: { Self → Option FileMap };

    /// The paths of all calls so far with their answers, where they are told.
    ghost asked: { Self → Option (List AskedPath) };

    /// All bytes of the file at this path, if they are at most `most`. Where the files are told, Ok
    /// gives the told bytes.
    ///
    /// # Errors
    /// - `Failed` only where the count of faults rose in this call. Where the files are told, a
    ///   path that isn't there is answered neither by Ok nor by `TooLong`.
    /// - `TooLong`: of the calls that answer Ok or this, it comes for exactly those whose file has
    ///   more than `most` bytes.
    /// - `Memory`: there was none.
    fn read(&mut self, path: &str, most: usize) -> Result<Vec<u8>, FileFault>
        ensures count { IfOk result (λ bytes. length bytes.items ≤ most) }
        ensures bytes { ReadsFile (told self.old) path.now most result }
        ensures same { told self.new ≡ told self.old }
        ensures asked { Extends (asked self.old) (asked self.new) (answered path.now result ∷ []) }
        ensures cause { HasCause Failed last_count (faults self.old) (faults self.new) result };

    /// The count of faults. It never falls, and stops at `2^48 - 1`.
    fn faults(&self) -> u64
        ensures count { result ≡ faults self.now }
        ensures bound { result ≤ last_count };
}
