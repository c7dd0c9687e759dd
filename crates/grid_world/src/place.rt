//! Poses of blocks in regions.
ghost use Rattle.std.specs.Prelude.{◌≡◌, ◌+◌, ◌<◌, ◌&&◌, nat_lt, not, slice_index};
ghost use Rattle.gen_lines.specs.Reply.{fields};
ghost use Rattle.grid_text.specs.Rects.{LiesInLargest, is_within};
ghost use Rattle.grid_world.specs.Answers as specs;
ghost use Rattle.grid_world.specs.Covers.{corner_in};
ghost use Rattle.grid_world.specs.Inputs.{two_of};
ghost use Rattle.grid_world.specs.Rows.{IsPoseRow};
ghost use Rattle.grid_world.specs.Words.{rect_at};

use crate::answer::GridAnswer;
use crate::cover::{MOST_COLUMNS, row_cover};
use crate::inputs::two_fields;
use crate::words::{Corner, block_named, rect_at, region_named};
use grid_text::{Block, Grid, Rect};

/// The answer for `BLOCK REGION`: a corner with which the block lies wholly in the region and
/// shares no cell with an obstacle, by y and then by x.
pub(crate) fn place_answer(grid: &Grid, turn: u32, inputs: &[u8]) -> GridAnswer
    ensures { result ≡ specs.nth turn (specs.poses_of grid.now (two_of (fields inputs.now))) }
{
    let Some((block, region)) = two_fields(inputs) else {
        return GridAnswer::End;
    };
    let Some(block) = block_named(grid, block) else {
        return GridAnswer::End;
    };
    let Some(region) = region_named(grid, region) else {
        return GridAnswer::End;
    };
    pose_in(grid, block, &region.rect(), turn)
}

/// The pose with this number, from 0, among those in a region.
fn pose_in(grid: &Grid, block: &Block, region: &Rect, turn: u32) -> GridAnswer
    requires { LiesInLargest region.now }
    ensures { result ≡ specs.nth turn
        (specs.poses_at grid.now block.now region.now (specs.corners region.now)) }
{
    let mut left = turn;
    for row in 0..region.h {
        match pose_in_row(grid, block, region, region.y + row, left) {
            InRow::Here(answer) => return answer,
            InRow::Left(more) => left = more,
        }
    }
    GridAnswer::End
}

/// What was found in a row of corners.
#[derive(Clone, Copy, Debug, PartialEq, Eq)]
pub(crate) enum InRow {
    /// The answer.
    Here(GridAnswer),
    /// How many more poses come before the answer, behind this row.
    Left(u32),
}

/// The pose with this number, from 0, among those with their corners in a row of the region.
fn pose_in_row(grid: &Grid, block: &Block, region: &Rect, y: u32, turn: u32) -> InRow
    requires { LiesInLargest region.now }
    ensures { IsPoseRow (specs.poses_at grid.now block.now region.now
        (specs.row_corners region.now.x region.now.w y)) turn result }
{
    let ends = row_cover(grid.obstacles(), block, region, y);
    let mut left = turn;
    for column in 0..region.w {
        if is_free(&ends, block, region, y, column) {
            if left == 0 {
                return InRow::Here(GridAnswer::Pose {
                    x: region.x + column,
                    y,
                });
            }
            left -= 1;
        }
    }
    InRow::Left(left)
}

/// Whether the block with its corner in this column lies wholly in the region, and no number past
/// the column is noted there.
fn is_free(ends: &[u64; MOST_COLUMNS], block: &Block, region: &Rect, y: u32, column: u32) -> bool
    requires small { LiesInLargest region.now }
    requires within { column < region.now.w }
    ensures { result ≡ (is_within (rect_at block.now (corner_in region.now y column)) region.now
        && not (nat_lt column (slice_index ends.now column))) }
{
    let corner = Corner {
        x: region.x + column,
        y,
    };
    rect_at(block, corner).is_within(region) && ends[column as usize] <= u64::from(column)
}
