//! Why a run stops before it has an outcome.
ghost use Rattle.std.specs.Prelude.{◌≡◌};
ghost use Rattle.round_run.specs.declared.fault.RunFault.TheVariants.{Memory, Write};

use gen_lines::Why;
use io_world::SinkFault;
use std::alloc::{AllocError, AllocFailed};
use thiserror::Error;

/// Why a run stops before it has an outcome.
#[derive(Clone, Copy, Debug, PartialEq, Eq, Error)]
pub enum RunFault {
    /// The line that answers the request of this number is no answer.
    #[error("the line for request {number} is no answer")]
    Answer {
        /// The request's number.
        number: u32,
        /// Why it is none.
        why: Why,
    },
    /// A generator could not be started, written to or read from; the host's count of faults rose.
    #[error("a generator failed")]
    Generator,
    /// The sink took no more; its count of faults rose.
    #[error("the report could not be written")]
    Write,
    /// Memory is wanting.
    #[error("out of memory")]
    Memory,
}

impl From<AllocError> for RunFault {
    ghost from_gives = { λ _ fault. fault ≡ Memory };

    fn from(_error: AllocError) -> RunFault {
        RunFault::Memory
    }
}

impl<T: Drop> From<AllocFailed<T>> for RunFault {
    ghost from_gives = { λ _ fault. fault ≡ Memory };

    fn from(_error: AllocFailed<T>) -> RunFault {
        RunFault::Memory
    }
}

impl From<SinkFault> for RunFault {
    ghost from_gives = { λ _ fault. fault ≡ Write };

    fn from(_error: SinkFault) -> RunFault {
        RunFault::Write
    }
}
