//! Rows of text: what programs of tests are given, and how they show bytes.
#![tactic(auto)]

mod byte_text;
mod row_text;
mod words;

pub use byte_text::{marked, shown};
pub use row_text::{Part, Row, read_rows, rows_in};
pub use words::{first_word, number};
