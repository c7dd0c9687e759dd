//! Why a session does nothing, and what became of a line.
ghost use Rattle.std.specs.Prelude.{◌≡◌};
ghost use Rattle.session_core.specs.declared.fault.CoreFault.TheVariants.{Memory};

use gen_lines::Why;
use std::alloc::{AllocError, AllocFailed};
use thiserror::Error;

/// Why a session does nothing.
#[derive(Clone, Copy, Debug, PartialEq, Eq, Error)]
pub enum CoreFault {
    /// An earlier line was no answer or too long, or an earlier `learn` found no memory.
    #[error("the session has failed")]
    Failed,
    /// Memory is wanting.
    #[error("out of memory")]
    Memory,
}

impl From<AllocError> for CoreFault {
    ghost from_gives = { λ _ e. e ≡ Memory };

    fn from(_e: AllocError) -> CoreFault {
        CoreFault::Memory
    }
}

impl<T: Drop> From<AllocFailed<T>> for CoreFault {
    ghost from_gives = { λ _ e. e ≡ Memory };

    fn from(_e: AllocFailed<T>) -> CoreFault {
        CoreFault::Memory
    }
}

/// What became of a line.
#[derive(Clone, Copy, Debug, PartialEq, Eq)]
pub enum Heard {
    /// It is an answer.
    Taken {
        /// The number of the ask that it answers.
        number: u32,
    },
    /// It is none, and the session has failed.
    Bad {
        /// The number of the ask that waits for an answer.
        number: u32,
        /// Why it is none.
        why: Why,
    },
}
