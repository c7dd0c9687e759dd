//! Reports that are read back from their text.
#![tactic(auto)]

mod body_line;
mod body_reader;
mod body_word;
mod bytes;
mod calls;
mod fields;
mod head_reader;
mod lines;
mod numbers;
mod objects;
mod outcome_reader;
mod reader;
mod tuples;
mod whole;

pub use reader::{REPORT_BYTES, read_report};
