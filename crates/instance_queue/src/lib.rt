//! What the instances of streams were told, and which of them may be asked next.
#![tactic(auto)]

mod due;
mod level;
mod queue;

pub use due::{Due, QueueFault};
pub use queue::Queue;
