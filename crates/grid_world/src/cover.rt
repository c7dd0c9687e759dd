//! Which corners of a row obstacles keep a block from.
ghost use Rattle.std.specs.Prelude.{◌≡◌, ℕ, ◌<◌, ◌&&◌, ◌||◌, nat_le, nat_lt, slice_index};
ghost use Rattle.grid_text.specs.Rects.{meets};
ghost use Rattle.grid_world.specs.Covers.{CoversColumns, corner_in, reaches};
ghost use Rattle.grid_world.specs.Words.{rect_at};

use grid_text::{Block, Rect};

/// The most corners of a row: a grid is at most so many cells wide.
pub(crate) const MOST_COLUMNS: usize = 1000;

/// For each column of a row of corners in a region, a column before which the block can't lie: if
/// it is past the column itself, the block with its corner there meets an obstacle, and else it
/// meets none.
pub(crate) fn row_cover(
    obstacles: &[Rect],
    block: &Block,
    region: &Rect,
    y: u32,
) -> [u64; MOST_COLUMNS]
    ensures { CoversColumns result obstacles.now block.now region.now y }
{
    let mut ends = [0; MOST_COLUMNS];
    for obstacle in obstacles {
        mark(&mut ends, obstacle, block, region, y);
    }
    spread(&mut ends);
    ends
}

/// Notes at the first column from which the block meets the obstacle up to which column it does.
fn mark(ends: &mut [u64; MOST_COLUMNS], obstacle: &Rect, block: &Block, region: &Rect, y: u32)
    ensures { (column : ℕ) → column < MOST_COLUMNS → reaches ends.new column
        ≡ (reaches ends.old column
        || meets (rect_at block.now (corner_in region.now y column)) obstacle.now) }
{
    if u64::from(y) >= obstacle.bottom() {
        return;
    }
    if u64::from(obstacle.y) >= u64::from(y) + u64::from(block.h) {
        return;
    }
    let before = u64::from(region.x) + u64::from(block.w);
    let begin = (u64::from(obstacle.x) + 1).saturating_sub(before);
    if begin >= MOST_COLUMNS as u64 {
        return;
    }
    let end = obstacle.right().saturating_sub(u64::from(region.x));
    raise(ends, begin as usize, end);
}

fn raise(ends: &mut [u64; MOST_COLUMNS], begin: usize, end: u64)
    requires { begin < MOST_COLUMNS }
    ensures { (column : ℕ) → column < MOST_COLUMNS → reaches ends.new column
        ≡ (reaches ends.old column || (nat_le begin column && nat_lt column end)) }
{
    ends[begin] = ends[begin].max(end);
}

/// Each column gets the furthest of what is noted up to it.
fn spread(ends: &mut [u64; MOST_COLUMNS])
    ensures { (column : ℕ) → column < MOST_COLUMNS → nat_lt column (slice_index ends.new column)
        ≡ reaches ends.old column }
{
    let mut furthest = 0;
    for end in ends.iter_mut() {
        furthest = (*end).max(furthest);
        *end = furthest;
    }
}
