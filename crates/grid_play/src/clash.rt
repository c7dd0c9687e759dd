//! Blocks that share a cell.
ghost use Rattle.std.specs.Prelude.{◌≡◌, ◌+◌, ◌<◌};
ghost use Rattle.grid_play.specs.Faults as specs;
ghost use Rattle.grid_play.specs.Clashes.{IsFirstClash, LeastBefore, is_before, is_clash};

use grid_text::{Block, Grid, Rect};
use grid_world::{Corner, rect_at};
use std::cmp::Ordering;

/// The first two blocks by names that aren't held and share a cell, by their places in the grid's
/// list: the lesser name first, and of all such pairs the least. It takes no memory.
pub(crate) fn first_clash(grid: &Grid, world: &[Option<Corner>]) -> Option<(usize, usize)>
    ensures { IsFirstClash grid.now world.now result }
{
    let mut best = None;
    for one in 0..grid.blocks().len() {
        best = with_clashes_of(grid, world, one, best);
    }
    best
}

/// The least of a pair and the clashes of a block.
fn with_clashes_of(
    grid: &Grid,
    world: &[Option<Corner>],
    one: usize,
    before: Option<(usize, usize)>,
) -> Option<(usize, usize)>
    requires { LeastBefore grid.now world.now one 0 before }
    ensures { LeastBefore grid.now world.now (one + 1) 0 result }
{
    let mut best = before;
    for other in 0..grid.blocks().len() {
        if clashes(grid, world, one, other) && comes_first(grid, (one, other), best) {
            best = Some((one, other));
        }
    }
    best
}

/// Whether two blocks aren't held and share a cell, and the first has no greater name.
fn clashes(grid: &Grid, world: &[Option<Corner>], one: usize, other: usize) -> bool
    ensures { result ≡ is_clash grid.now world.now one other }
{
    one != other && share(grid, world, one, other) && compare(grid, one, other) != Ordering::Greater
}

/// Whether two blocks aren't held and share a cell.
fn share(grid: &Grid, world: &[Option<Corner>], one: usize, other: usize) -> bool
    ensures { result ≡ specs.share grid.now world.now one other }
{
    match (cells_of(grid, world, one), cells_of(grid, world, other)) {
        (Some(first), Some(second)) => first.meets(&second),
        _ => false,
    }
}

/// The cells of a block that isn't held.
fn cells_of(grid: &Grid, world: &[Option<Corner>], block: usize) -> Option<Rect>
    ensures { result ≡ specs.cells_of grid.now world.now block }
{
    match (grid.blocks().get(block), world.get(block)) {
        (Some(block), Some(Some(corner))) => Some(rect_at(block, *corner)),
        _ => None,
    }
}

/// The name of the block at this place, or no bytes where there is none.
pub(crate) fn name_of(grid: &Grid, block: usize) -> &[u8]
    ensures { result.now ≡ specs.block_name grid.now block }
{
    match grid.blocks().get(block) {
        Some(block) => block.name.bytes(),
        None => &[],
    }
}

/// Compares the names of two blocks.
fn compare(grid: &Grid, one: usize, other: usize) -> Ordering
    ensures { result ≡ specs.name_cmp (specs.block_name grid.now one)
        (specs.block_name grid.now other) }
{
    name_of(grid, one).cmp(&name_of(grid, other))
}

/// Whether a pair of blocks comes before another by their names, or there is no other.
fn comes_first(grid: &Grid, pair: (usize, usize), other: Option<(usize, usize)>) -> bool
    ensures { result ≡ is_before grid.now pair other }
{
    let Some(other) = other else {
        return true;
    };
    match compare(grid, pair.0, other.0) {
        Ordering::Less => true,
        Ordering::Equal => compare(grid, pair.1, other.1) == Ordering::Less,
        Ordering::Greater => false,
    }
}
