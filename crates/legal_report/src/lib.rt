//! Whether the transcript of a report is legal, and what its answers certify then.
#![tactic(auto)]

mod flaw;
pub mod laws;
mod lines;
mod report;
mod request;
mod right_answers;
mod right_asks;
mod walk;

pub use flaw::ReportFlaw;
pub use lines::lines_of;
pub use report::{Certified, certify, certify_report, line_of};
pub use request::Request;
pub use right_answers::may_answer;
pub use right_asks::asked_by;
