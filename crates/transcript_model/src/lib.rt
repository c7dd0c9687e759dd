//! Transcripts and reports: what was asked and answered, and what came of it.
#![tactic(auto)]

mod entry;
mod head;
pub mod laws;
mod limits;
mod naming;
mod outcome;
mod report;

pub use entry::{Call, DreamUse, Entry};
pub use head::{Head, Mode, Pool, PoolLine};
pub use limits::{MOST_CALLS, MOST_DEPTH, WORKERS};
pub use naming::{name_instance, name_step};
pub use outcome::{LimitKind, Origin, Outcome};
pub use report::Report;
