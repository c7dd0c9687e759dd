//! The grid of blocks as a text: its reader, and the task of each size.
//!
//! [`read_grid`] reads a grid file or refuses it with its first faulty line. [`grid_task`] makes
//! the four texts of a task from a number. The forms are this project's.
#![tactic(auto)]

mod entry;
mod fault;
mod fields;
mod grid;
pub mod laws;
mod lines;
mod numbers;
mod reader;
mod rect;
mod task;

pub use fault::{GridFault, GridKind};
pub use fields::{first_field, four_fields};
pub use grid::{Block, Grid, Region};
pub use lines::{first_feed, without_return};
pub use numbers::number_of;
pub use reader::read_grid;
pub use rect::Rect;
pub use task::{GridTask, grid_task};
