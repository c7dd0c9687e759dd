//! Whether blocks at poses are clear of each other.
ghost use Rattle.std.specs.Prelude.{◌≡◌, option_to_list};
ghost use Rattle.gen_lines.specs.Reply.{fields};
ghost use Rattle.grid_text.specs.Entries.{four_of};
ghost use Rattle.grid_world.specs.Answers as specs;

use crate::answer::GridAnswer;
use crate::reach::at_turn;
use crate::words::posed;
use grid_text::{Grid, four_fields};

/// The answer for `BLOCK POSE BLOCK POSE`: whether both blocks lie in the grid and share no cell.
pub(crate) fn clear_answer(grid: &Grid, turn: u32, inputs: &[u8]) -> GridAnswer
    ensures { result ≡ specs.nth turn
        (option_to_list (specs.clear_of grid.now (four_of (fields inputs.now)))) }
{
    at_turn(turn, clear_of(grid, inputs))
}

fn clear_of(grid: &Grid, inputs: &[u8]) -> Option<GridAnswer>
    ensures { result ≡ specs.clear_of grid.now (four_of (fields inputs.now)) }
{
    let (block, pose, other, second) = four_fields(inputs)?;
    let first = posed(grid, block, pose)?;
    let second = posed(grid, other, second)?;
    let area = grid.area();
    if !first.is_within(&area) {
        return None;
    }
    if !second.is_within(&area) {
        return None;
    }
    if first.meets(&second) {
        return None;
    }
    Some(GridAnswer::Yes)
}
