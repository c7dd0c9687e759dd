//! Why a row isn't told.
use instance_queue::QueueFault;
use session_core::CoreFault;
use std::alloc::{AllocError, AllocFailed};

/// Why a row isn't told to its end.
#[derive(Clone, Copy, Debug, PartialEq, Eq)]
pub(crate) enum Fault {
    /// Its texts spell no task.
    NoTask,
    /// A line of it says nothing here.
    Unfit,
    /// The events aren't those of such a round or level.
    Unplayed,
    /// A call of the session answered so.
    Core(CoreFault),
    /// There is no level.
    Queue(QueueFault),
    /// Memory is wanting.
    Memory,
}

impl From<CoreFault> for Fault {
    fn from(fault: CoreFault) -> Fault {
        Fault::Core(fault)
    }
}

impl From<QueueFault> for Fault {
    fn from(fault: QueueFault) -> Fault {
        Fault::Queue(fault)
    }
}

impl From<AllocError> for Fault {
    fn from(_e: AllocError) -> Fault {
        Fault::Memory
    }
}

impl<T: Drop> From<AllocFailed<T>> for Fault {
    fn from(_e: AllocFailed<T>) -> Fault {
        Fault::Memory
    }
}
