//! The children of one of two hosts.
ghost use Rattle.std.proofs.Common.{lit≤};
ghost use Rattle.std.specs.Prelude.{◌≡◌, ℕ, ⊤, None, false, if◌then◌else◌};
ghost use Rattle.io_world.specs.Faults.{last_count};

use io_world::{FaultCount, Host, HostFault};

/// The children of one of two hosts. It counts their faults anew, and tells nothing of what is
/// said.
#[derive(Drop)]
pub(crate) struct EitherHost<A, B> {
    first: A,
    second: B,
    is_second: bool,
    faults: FaultCount,
}

impl<A: Host, B: Host> EitherHost<A, B> {
    /// The children of the second host, or else those of the first. No child of either runs.
    pub(crate) fn new(first: A, second: B, is_second: bool) -> EitherHost<A, B>
        requires first { (k : ℕ) → A.running first k ≡ false }
        requires second { (k : ℕ) → B.running second k ≡ false }
        ensures { (k : ℕ) → ⟦<EitherHost<A, B> as Host>⟧.running result k ≡ false }
    {
        EitherHost {
            first,
            second,
            is_second,
            faults: FaultCount::new(),
        }
    }
}

impl<A: Host, B: Host> Host for EitherHost<A, B> {
    ghost faults = { λ s. s.faults };

    ghost last = { last_count };

    ghost running = { λ s k. if s.is_second then B.running s.second k else A.running s.first k };

    ghost spoken = { λ s k. None };

    ghost log = { λ s. None };

    ghost spells = { λ s child runs. tt };

    ghost high = { lit≤ tt };

    ghost leads = { λ old new memory. ⊤ };

    ghost stays = { λ s. tt };

    ghost chains = { λ a b c m first second. tt };

    ghost ends = { λ a b c m first second. tt };

    fn start(&mut self, child: u8, argv: &[String]) -> Result<(), HostFault> {
        let answer = if self.is_second {
            self.second.start(child, argv)
        } else {
            self.first.start(child, argv)
        };
        if let Err(HostFault::Failed) = answer {
            self.faults.raise();
        }
        answer
    }

    fn write(&mut self, child: u8, bytes: &[u8]) -> Result<usize, HostFault> {
        let answer = if self.is_second {
            self.second.write(child, bytes)
        } else {
            self.first.write(child, bytes)
        };
        if let Err(HostFault::Failed) = answer {
            self.faults.raise();
        }
        answer
    }

    fn read(&mut self, child: u8, room: &mut [u8]) -> Result<usize, HostFault> {
        let answer = if self.is_second {
            self.second.read(child, room)
        } else {
            self.first.read(child, room)
        };
        if let Err(HostFault::Failed) = answer {
            self.faults.raise();
        }
        answer
    }

    fn stop(&mut self, child: u8) -> Result<(), HostFault> {
        let answer = if self.is_second {
            self.second.stop(child)
        } else {
            self.first.stop(child)
        };
        if let Err(HostFault::Failed) = answer {
            self.faults.raise();
        }
        answer
    }

    fn faults(&self) -> u64 {
        self.faults.get()
    }
}
