//! Requests and their answers.
ghost use Rattle.std.specs.Prelude.{◌≡◌};
ghost use Rattle.gen_lines.specs.Reply.{fields};
ghost use Rattle.grid_world.specs.Answers as specs;

use crate::answer::GridAnswer;
use crate::clear::clear_answer;
use crate::grasp::grasp_answer;
use crate::place::place_answer;
use crate::reach::reach_answer;
use crate::words::{Stream, stream_of};
use grid_text::{Grid, first_field, number_of};
use std::marker::Model;

/// A request: which answer is wanted, from 0, the stream, and the rest of the line.
#[derive(Drop)]
pub(crate) struct Ask<'a> {
    turn: u32,
    stream: Stream,
    inputs: &'a [u8],
}

impl<'a> Model for Ask<'a> {
    ghost use Rattle.gen_lines.specs.Reply.{fields};
    ghost use Rattle.grid_world.specs.Asks.{Ask};

    ghost Value = { Ask };

    ghost view = { λ a. record { turn = a.turn; stream = a.stream; inputs = fields a.inputs.now } };
}

/// The answer to a request, which is a line without its line feed: `next K STREAM INPUTS`. It is
/// the K-th answer, from 0, of the stream with these inputs, and `End` where there are no more and
/// where the line isn't such a request.
pub fn grid_answer(grid: &Grid, request: &[u8]) -> GridAnswer
    ensures { result ≡ specs.answer_in grid.now request.now }
{
    let Some(ask) = ask_of(request) else {
        return GridAnswer::End;
    };
    match ask.stream {
        Stream::Place => place_answer(grid, ask.turn, ask.inputs),
        Stream::Grasp => grasp_answer(grid, ask.turn, ask.inputs),
        Stream::Reach => reach_answer(grid, ask.turn, ask.inputs),
        Stream::Clear => clear_answer(grid, ask.turn, ask.inputs),
    }
}

#[tactic(auto, unfolding(crate::specs::Asks::is_next))]
fn ask_of(line: &[u8]) -> Option<Ask<'_>>
    ensures { result ≡ specs.ask_of (fields line.now) }
{
    let (next, rest) = first_field(line)?;
    let (turn, rest) = first_field(rest)?;
    let (stream, inputs) = first_field(rest)?;
    if next != b"next".as_slice() {
        return None;
    }
    let turn = number_of(turn)?;
    let stream = stream_of(stream)?;
    Some(Ask {
        turn,
        stream,
        inputs,
    })
}
