//! An ask that is due, and why there is no list of them.
ghost use Rattle.std.specs.Prelude.{◌≡◌, IfOk};
ghost use Rattle.instance_queue.specs.declared.due.QueueFault.TheVariants.{Memory};
ghost use Rattle.instance_queue.specs.Faults.{fault_of};

use fact_join::JoinFault;
use std::alloc::{AllocError, AllocFailed};
use task_model::Instance;
use thiserror::Error;

/// An instance that may be asked.
#[derive(Debug, Drop)]
pub struct Due {
    /// The instance.
    pub instance: Instance,
    /// How many tuples it has given before.
    pub turn: u32,
}

impl Due {
    /// An equal value. Fails only where memory is wanting.
    pub fn copy(&self) -> Result<Due, AllocError>
        ensures { IfOk result (λ due. due ≡ self.now) }
    {
        let instance = self.instance.copy()?;
        Ok(Due {
            instance,
            turn: self.turn,
        })
    }
}

/// Why there is no list of the asks that are due.
#[derive(Clone, Copy, Debug, PartialEq, Eq, Error)]
pub enum QueueFault {
    /// More than 1,000,000 instances are due.
    #[error("more than 1,000,000 instances are due")]
    TooManyInstances,
    /// Memory is wanting.
    #[error("out of memory")]
    Memory,
}

impl From<AllocError> for QueueFault {
    ghost from_gives = { λ _ e. e ≡ Memory };

    fn from(_e: AllocError) -> QueueFault {
        QueueFault::Memory
    }
}

impl<T: Drop> From<AllocFailed<T>> for QueueFault {
    ghost from_gives = { λ _ e. e ≡ Memory };

    fn from(_e: AllocFailed<T>) -> QueueFault {
        QueueFault::Memory
    }
}

impl From<JoinFault> for QueueFault {
    ghost from_gives = { λ fault e. e ≡ fault_of fault };

    fn from(fault: JoinFault) -> QueueFault {
        match fault {
            JoinFault::TooMany => QueueFault::TooManyInstances,
            JoinFault::Memory => QueueFault::Memory,
        }
    }
}
