//! The text of a report: its lines, their forms, and the first line at which a text is none.
#![tactic(auto)]

mod fault;
mod held_text;
pub mod laws;
mod lines;
mod write_entry;
mod write_head;
mod write_outcome;
mod write_report;

pub use fault::ReportFault;
pub use held_text::{entry_text, head_text, migrated, outcome_text};
pub use lines::{put, put_begun, put_calls, put_field, put_number, put_pair};
pub use write_entry::put_entry;
pub use write_head::put_head;
pub use write_outcome::put_outcome;
pub use write_report::put_report;
