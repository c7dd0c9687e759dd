//! What is found of an entry or of an outcome.
use crate::verdict::BreachKind;

/// What is found of an entry or of an outcome.
#[derive(Clone, Copy, PartialEq, Eq)]
pub enum Finding {
    /// It may stand, and what it says is true.
    Holds,
    /// It is wrong, first in this line, from 0 for its own first.
    Breaks(usize, BreachKind),
    /// It may stand, and its claim can't be decided.
    Open,
}
