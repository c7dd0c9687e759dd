//! Sides of blocks.
ghost use Rattle.std.specs.Prelude.{◌≡◌};
ghost use Rattle.gen_lines.specs.Reply.{fields};
ghost use Rattle.grid_world.specs.Answers.{all_sides, grasps_of, nth};
ghost use Rattle.grid_world.specs.Inputs.{one_of};

use crate::answer::{GridAnswer, Side};
use crate::inputs::one_field;
use crate::words::block_named;
use grid_text::Grid;

/// The answer for `BLOCK`: one of the four sides.
pub(crate) fn grasp_answer(grid: &Grid, turn: u32, inputs: &[u8]) -> GridAnswer
    ensures { result ≡ nth turn (grasps_of grid.now (one_of (fields inputs.now))) }
{
    let Some(name) = one_field(inputs) else {
        return GridAnswer::End;
    };
    let Some(_) = block_named(grid, name) else {
        return GridAnswer::End;
    };
    side_at(turn)
}

#[tactic(auto, using(crate::proofs::AnswersLemmas::no_fifth_side))]
fn side_at(turn: u32) -> GridAnswer
    ensures { result ≡ nth turn all_sides }
{
    match turn {
        0 => GridAnswer::Side(Side::N),
        1 => GridAnswer::Side(Side::E),
        2 => GridAnswer::Side(Side::S),
        3 => GridAnswer::Side(Side::W),
        _ => GridAnswer::End,
    }
}
