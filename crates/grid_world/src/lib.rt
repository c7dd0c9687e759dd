//! The generator of the grid of blocks: its answers, the generator in the process, and the program
//! over any source and sink.
//!
//! [`grid_answer`] answers one request. [`GridGen`] is a child of a host, [`GridReplies`] answers
//! for children in tests, and [`serve`] is all that the program does. The streams and their answers
//! are this project's.
#![tactic(auto)]

mod answer;
mod answer_line;
mod ask;
mod clear;
mod cover;
mod grasp;
mod grid_gen;
mod held;
mod inputs;
pub mod laws;
mod place;
mod reach;
mod replies;
mod service;
mod status;
mod talk;
mod words;

pub use answer::{GridAnswer, Side};
pub use ask::grid_answer;
pub use grid_gen::GridGen;
pub use grid_text::{
    Block, Grid, GridFault, GridKind, GridTask, Rect, Region, grid_task, read_grid,
};
pub use replies::GridReplies;
pub use service::{MOST_LINES, serve};
pub use status::GridStatus;
pub use words::{Corner, block_named, pose_of, rect_at};
