//! Cells from which blocks are reached.
ghost use Rattle.std.specs.Prelude.{◌≡◌, option_map, option_to_list};
ghost use Rattle.std.specs.List.{list_any};
ghost use Rattle.gen_lines.specs.Reply.{fields};
ghost use Rattle.grid_world.specs.Answers as specs;
ghost use Rattle.grid_world.specs.Inputs.{three_of};

use crate::answer::{GridAnswer, Side};
use crate::inputs::three_fields;
use crate::words::{posed, side_of};
use grid_text::{Grid, Rect};

/// A cell, which may lie outside of the grid.
#[derive(Clone, Copy, Debug, PartialEq, Eq)]
pub(crate) struct WideCell {
    x: u64,
    y: u64,
}

/// The answer for `BLOCK POSE SIDE`: the cell beside the block from which it is reached, if it lies
/// in the grid and in no obstacle.
pub(crate) fn reach_answer(grid: &Grid, turn: u32, inputs: &[u8]) -> GridAnswer
    ensures { result ≡ specs.nth turn
        (option_to_list (specs.hand_of grid.now (three_of (fields inputs.now)))) }
{
    at_turn(turn, hand_of(grid, inputs))
}

/// The answer at a turn of a request that has one answer at most.
#[tactic(auto, using(crate::proofs::AnswersLemmas::none_later))]
pub(crate) fn at_turn(turn: u32, answer: Option<GridAnswer>) -> GridAnswer
    ensures { result ≡ specs.nth turn (option_to_list answer) }
{
    if turn > 0 {
        return GridAnswer::End;
    }
    answer.unwrap_or(GridAnswer::End)
}

fn hand_of(grid: &Grid, inputs: &[u8]) -> Option<GridAnswer>
    ensures { result ≡ specs.hand_of grid.now (three_of (fields inputs.now)) }
{
    let (block, pose, side) = three_fields(inputs)?;
    let rect = posed(grid, block, pose)?;
    let side = side_of(side)?;
    if !rect.is_within(&grid.area()) {
        return None;
    }
    let cell = cell_beside(&rect, side)?;
    hand_at(grid, cell)
}

/// The cell beside a block; none where it would lie west or north of all cells.
fn cell_beside(rect: &Rect, side: Side) -> Option<WideCell>
    ensures { option_map specs.cell_at result ≡ specs.cell_beside rect.now side }
{
    let x = u64::from(rect.x);
    let y = u64::from(rect.y);
    match side {
        Side::N => north(x, y),
        Side::E => Some(WideCell { x: rect.right(), y }),
        Side::S => Some(WideCell {
            x,
            y: rect.bottom(),
        }),
        Side::W => west(x, y),
    }
}

fn north(x: u64, y: u64) -> Option<WideCell>
    ensures { option_map specs.cell_at result ≡ specs.north_of x y }
{
    if y == 0 {
        return None;
    }
    Some(WideCell { x, y: y - 1 })
}

fn west(x: u64, y: u64) -> Option<WideCell>
    ensures { option_map specs.cell_at result ≡ specs.west_of x y }
{
    if x == 0 {
        return None;
    }
    Some(WideCell { x: x - 1, y })
}

/// The hand at a cell, if the cell lies in the grid and in no obstacle.
#[tactic(auto, unfolding(crate::specs::Answers::is_open_cell))]
fn hand_at(grid: &Grid, cell: WideCell) -> Option<GridAnswer>
    ensures { result ≡ specs.hand_in grid.now (specs.cell_at cell) }
{
    if cell.x >= u64::from(grid.width()) {
        return None;
    }
    if cell.y >= u64::from(grid.height()) {
        return None;
    }
    if is_covered(grid.obstacles(), cell) {
        return None;
    }
    Some(GridAnswer::Hand {
        x: cell.x as u32,
        y: cell.y as u32,
    })
}

fn is_covered(obstacles: &[Rect], cell: WideCell) -> bool
    ensures { result ≡ list_any (λ obstacle. specs.covers obstacle (specs.cell_at cell))
        obstacles.now }
{
    obstacles.iter().any(|obstacle| covers(obstacle, cell))
}

#[tactic(auto, unfolding(crate::specs::Answers::covers))]
fn covers(rect: &Rect, cell: WideCell) -> bool
    ensures { result ≡ specs.covers rect.now (specs.cell_at cell) }
{
    u64::from(rect.x) <= cell.x
        && cell.x < rect.right()
        && u64::from(rect.y) <= cell.y
        && cell.y < rect.bottom()
}
