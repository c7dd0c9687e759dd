//! The grid as what answers the children of a host.
ghost use Rattle.std.specs.Prelude.{◌≡◌, ◌-◌, ◌<◌, length, take};
ghost use Rattle.grid_world.specs.AnswerLines.{reply_line};

use crate::answer_line::answer_line;
use crate::ask::grid_answer;
use grid_text::{Grid, without_return};
use io_world::AnswerBy;
use std::alloc::{AllocError, Global};

/// Answers each request line as [`GridGen`](crate::GridGen) and [`serve`](crate::serve) do: one
/// carriage return at its end is dropped first. With it a host that answers by a function plays the
/// grid.
#[derive(Clone, Copy)]
pub struct GridReplies<'a> {
    grid: &'a Grid,
}

impl<'a> GridReplies<'a> {
    /// What answers by this grid.
    pub fn new(grid: &'a Grid) -> GridReplies<'a>
        ensures { ⟦<GridReplies<'a> as AnswerBy>⟧.answers result ≡ reply_line grid.now }
    {
        GridReplies { grid }
    }
}

impl<'a> AnswerBy for GridReplies<'a> {
    ghost answers = { λ s. reply_line s.grid.now };

    fn answer(&self, alloc: Global, request: &[u8]) -> Result<Vec<u8>, AllocError> {
        let line = answer_line(grid_answer(self.grid, without_return(request)));
        let text = Vec::from_slice(alloc, without_last(line.as_str().as_bytes()))?;
        Ok(text)
    }
}

fn without_last(bytes: &[u8]) -> &[u8]
    requires { 0 < length bytes.now }
    ensures { result.now ≡ take (length bytes.now - 1) bytes.now }
{
    &bytes[..bytes.len() - 1]
}
