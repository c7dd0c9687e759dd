// Where bytes go.
ghost use Rattle.std.specs.Prelude.{◌≡◌, ◌<◌, ◌≤◌, ℕ, List, Option, length, IfOk};
ghost use Rattle.std.specs.Io.KnownBytes.{WriteAppends};
ghost use Rattle.io_world.specs.Faults.{last_count, HasCause};
ghost use Rattle.io_world.specs.declared.sink.SinkFault.TheVariants.{Failed};

/// Why a sink took nothing.
#[derive(Clone, Copy, Debug, PartialEq, Eq)]
pub enum SinkFault {
    /// The write failed. The count of faults rose.
    Failed,
}

/// Something that takes bytes, such as standard output.
///
/// It may tell the bytes that it took so far. An Ok then adds the first of the handed bytes, as
/// many as it answers, and a fault adds none.
pub trait Sink {
    /// How often a call has failed, at most `2^48 - 1`.
    ghost faults: { Self → ℕ };

    /// The bytes taken so far, where they are told.
    ghost taken: { Self → Option (List ℕ) };

    /// Takes the first of these bytes, and answers how many: at least 1. There has to be one.
    ///
    /// # Errors
    /// `Failed` only where the count of faults rose in this call.
    fn write(&mut self, bytes: &[u8]) -> Result<usize, SinkFault>
        requires { 0 < length bytes.now }
        ensures count { IfOk result (λ n. (0 < n) × (n ≤ length bytes.now)) }
        ensures bytes { WriteAppends (taken self.old) (taken self.new) result bytes.now }
        ensures cause { HasCause Failed last_count (faults self.old) (faults self.new) result };

    /// The count of faults. It never falls, and stops at `2^48 - 1`.
    fn faults(&self) -> u64
        ensures count { result ≡ faults self.now }
        ensures bound { result ≤ last_count };
}
