//! What can be wrong with a grid file.
ghost use Rattle.std.specs.Prelude.{◌≡◌};

use std::alloc::AllocError;
use thiserror::Error;

/// What is wrong with a line. The kinds and their order are this project's: in one line the first
/// of them is told.
#[derive(Clone, Copy, Debug, PartialEq, Eq)]
pub enum GridKind {
    /// A byte that may not stand, a wrong word or name, or a wrong number of fields.
    Form,
    /// A field that isn't one to four digits, a grid that isn't 1 to 1,000 cells wide and high, or
    /// a size of 0.
    Number,
    /// A rectangle that doesn't lie wholly in the grid.
    Outside,
    /// A second block, or a second region, of one name.
    Duplicate,
    /// More than 100 blocks or regions, or more than 1,000 obstacles.
    TooMany,
}

/// Why no grid was read.
#[derive(Clone, Copy, Debug, PartialEq, Eq, Error)]
pub enum GridFault {
    /// The first line that has a fault, counted from 1, and its first fault. A text without a
    /// `grid` line and without any other line that counts has `Form` at line 1.
    #[error("line {line} of the grid has a fault")]
    At { line: u32, kind: GridKind },
    /// Memory ran out, which says nothing of the text.
    #[error("memory ran out")]
    Memory,
}

impl From<AllocError> for GridFault {
    ghost use Rattle.grid_text.specs.declared.fault.GridFault.TheVariants.{Memory};

    ghost from_gives = { λ _ r. r ≡ Memory };

    fn from(_: AllocError) -> GridFault {
        GridFault::Memory
    }
}
