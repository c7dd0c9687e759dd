//! Texts of words and parentheses, read into trees.
//!
//! [`read_tree`](reader::read_tree) reads a text that is one list in parentheses. It answers the
//! tree that the text spells, or the first fault of the text with its place. Layers above go
//! through a tree by [`front_of`](front::front_of) and [`alone`](front::alone).
//!
//! Places are counted in bytes from 0.
#![tactic(auto)]

mod class;
mod fault;
mod front;
mod nest;
mod reader;
mod scanner;
mod text;
mod tree;

pub use fault::TextFault;
pub use front::{Front, alone, front_of};
pub use reader::read_tree;
pub use tree::{Node, Tree};
