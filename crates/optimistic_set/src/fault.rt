//! Why there is no list of entries.
ghost use Rattle.std.specs.Prelude.{◌≡◌};
ghost use Rattle.optimistic_set.specs.declared.fault.OptimisticFault.TheVariants.{Memory};
ghost use Rattle.optimistic_set.specs.Faults.{optimistic_fault};

use fact_join::JoinFault;
use std::alloc::{AllocError, AllocFailed};
use thiserror::Error;

/// Why there is no list of what may be supposed.
#[derive(Clone, Copy, Debug, PartialEq, Eq, Error)]
pub enum OptimisticFault {
    /// There would be more than 20,000 entries.
    #[error("more than 20,000 entries may be supposed")]
    TooManyEntries,
    /// Memory is wanting.
    #[error("out of memory")]
    Memory,
}

impl From<AllocError> for OptimisticFault {
    ghost from_gives = { λ _ e. e ≡ Memory };

    fn from(_e: AllocError) -> OptimisticFault {
        OptimisticFault::Memory
    }
}

impl<T: Drop> From<AllocFailed<T>> for OptimisticFault {
    ghost from_gives = { λ _ e. e ≡ Memory };

    fn from(_e: AllocFailed<T>) -> OptimisticFault {
        OptimisticFault::Memory
    }
}

impl From<JoinFault> for OptimisticFault {
    ghost from_gives = { λ fault e. e ≡ optimistic_fault fault };

    fn from(fault: JoinFault) -> OptimisticFault {
        match fault {
            JoinFault::TooMany => OptimisticFault::TooManyEntries,
            JoinFault::Memory => OptimisticFault::Memory,
        }
    }
}
