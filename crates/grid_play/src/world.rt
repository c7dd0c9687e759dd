//! Where the blocks of a grid are.
ghost use Rattle.std.specs.Prelude.{◌≡◌, IfOk, unwrap_or};
ghost use Rattle.std.specs.List.{list_any};
ghost use Rattle.std.specs.Option.{is_none, is_some};
ghost use Rattle.grid_play.specs.Worlds as specs;

use crate::moves::Move;
use grid_text::Grid;
use grid_world::Corner;
use std::alloc::{AllocError, Global};

/// Each block at its first corner. Fails only where memory is wanting.
pub(crate) fn home_world(alloc: Global, grid: &Grid) -> Result<Vec<Option<Corner>>, AllocError>
    ensures { IfOk result (λ world. world.items ≡ specs.home_world grid.now) }
{
    grid.blocks()
        .iter()
        .map(|b| Some(Corner { x: b.x, y: b.y }))
        .collect(alloc)
}

/// Makes a move, if it may be made.
pub(crate) fn make(world: &mut [Option<Corner>], step: Move) -> bool
    ensures made { result ≡ is_some (specs.after_move world.old step) }
    ensures world { world.new ≡ unwrap_or (specs.after_move world.old step) world.old }
{
    match step {
        Move::Pick { block, corner } => {
            if !is_at(world, block, corner) || holds_one(world) {
                return false;
            }
            world[block] = None;
        }
        Move::Put { block, corner } => {
            if !is_held(world, block) {
                return false;
            }
            world[block] = Some(corner);
        }
    }
    true
}

/// Whether the block is at this corner.
fn is_at(world: &[Option<Corner>], block: usize, corner: Corner) -> bool
    ensures { result ≡ specs.is_at world.now block corner }
{
    match world.get(block) {
        Some(Some(at)) => at.x == corner.x && at.y == corner.y,
        _ => false,
    }
}

/// Whether the block is held.
fn is_held(world: &[Option<Corner>], block: usize) -> bool
    ensures { result ≡ specs.is_held world.now block }
{
    match world.get(block) {
        Some(None) => true,
        _ => false,
    }
}

/// Whether some block is held.
fn holds_one(world: &[Option<Corner>]) -> bool
    ensures { result ≡ list_any is_none world.now }
{
    world.iter().any(|at| at.is_none())
}
