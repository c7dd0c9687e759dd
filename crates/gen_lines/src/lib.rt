//! The lines that a generator answers, and the requests that it is sent.
#![tactic(auto)]

mod answer;
mod fields;
pub mod laws;
mod line_buf;
mod request;
mod spans;
mod values;

pub use answer::{Answer, Wanted, Why, answer_of};
pub use line_buf::{LINE_BYTES, LINE_LENGTH, LineBuf, Seen};
pub use request::request_text;
pub use spans::{Spans, YIELD_TUPLES};
pub use values::{VALUE_BYTES, is_value};
