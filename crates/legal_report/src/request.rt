//! Requests of a report.
use transcript_model::Call;

/// A request as a report tells it.
#[derive(Clone, Copy)]
pub struct Request<'a> {
    /// Its number.
    pub number: u32,
    /// How many tuples its instance has given.
    pub turn: u32,
    /// What is called.
    pub call: &'a Call,
}
