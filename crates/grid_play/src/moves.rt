//! Steps of a plan as moves of blocks.
ghost use Rattle.std.specs.Prelude.{◌≡◌, position};
ghost use Rattle.std.specs.Str.{bytes_eq};
ghost use Rattle.grid_text.specs.Entries.{four_of};
ghost use Rattle.grid_play.specs.Worlds as specs;

use grid_text::Grid;
use grid_world::{Corner, pose_of};
use task_model::Name;
use transcript_model::Call;

/// What a step does with a block, which is told by its place in the grid's list.
#[derive(Clone, Copy, Debug, PartialEq, Eq)]
pub enum Move {
    /// It is taken up from this corner.
    Pick {
        /// The block.
        block: usize,
        /// The corner.
        corner: Corner,
    },
    /// It is laid down at this corner.
    Put {
        /// The block.
        block: usize,
        /// The corner.
        corner: Corner,
    },
}

/// The move of a step `pick B P G C` or `put B P G C`, where B is a block of the grid and P a word
/// for a corner.
#[tactic(auto, unfolding(crate::specs::Worlds::move_of))]
pub(crate) fn move_of(grid: &Grid, call: &Call) -> Option<Move>
    ensures { result ≡ specs.move_of grid.now call.now }
{
    if call.name.bytes() == b"pick".as_slice() {
        let (block, corner) = target_of(grid, call.args.as_slice())?;
        return Some(Move::Pick { block, corner });
    }
    if call.name.bytes() == b"put".as_slice() {
        let (block, corner) = target_of(grid, call.args.as_slice())?;
        return Some(Move::Put { block, corner });
    }
    None
}

/// The block and the corner of which four words tell.
fn target_of(grid: &Grid, words: &[Name]) -> Option<(usize, Corner)>
    ensures { result ≡ specs.target_of grid.now (four_of words.now) }
{
    let [block, pose, _, _] = words else {
        return None;
    };
    let place = place_of(grid, block.bytes())?;
    let corner = pose_of(grid, pose.bytes())?;
    Some((place, corner))
}

/// The place of the block of this name.
fn place_of(grid: &Grid, name: &[u8]) -> Option<usize>
    ensures { result ≡ position (λ b. bytes_eq b.name name.now) grid.now.blocks }
{
    grid.blocks().iter().position(|b| b.name.bytes() == name)
}
