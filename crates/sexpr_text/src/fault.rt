//! What can be wrong with a text.
ghost use Rattle.std.specs.Prelude.{◌≡◌};

use std::alloc::AllocError;
use thiserror::Error;

/// Why no tree was read. Each fault of the text has its place, in bytes from the text's beginning.
/// The kinds and their order are this project's.
#[derive(Clone, Copy, Debug, PartialEq, Eq, Error)]
pub enum TextFault {
    /// A byte outside comments that is neither white space nor one of `!` to `~`.
    #[error("byte {0} may not stand in a text")]
    BadByte(usize),
    /// The text ended before its list was closed, or it has no list at all. The place is its
    /// length.
    #[error("the text ends at byte {0} before its list is closed")]
    Unclosed(usize),
    /// A word or parenthesis before or after the list.
    #[error("what stands at byte {0} is outside of the text's one list")]
    Extra(usize),
    /// A `(` that would stand in 64 lists.
    #[error("the list at byte {0} stands in 64 lists already")]
    TooDeep(usize),
    /// Memory ran out, which says nothing of the text.
    #[error("memory ran out")]
    Memory,
}

impl From<AllocError> for TextFault {
    ghost use Rattle.sexpr_text.specs.declared.fault.TextFault.TheVariants.{Memory};

    ghost from_gives = { λ _ r. r ≡ Memory };

    fn from(_: AllocError) -> TextFault {
        TextFault::Memory
    }
}
