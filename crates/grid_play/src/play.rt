//! A plan acted out.
ghost use Rattle.std.specs.Prelude.{◌^◌, ◌<◌, length, IfOk};
ghost use Rattle.grid_play.specs.Faults.{IsActedOut};

use crate::scene::{Scene, play_out};
use grid_text::Grid;
use std::alloc::{AllocError, Global};
use task_model::{Name, Seq};
use transcript_model::Call;

/// What a step did. Steps are numbered from 1.
#[derive(Debug, Drop)]
pub enum Mark {
    /// A block was taken up.
    Held {
        /// The step.
        step: u32,
        /// The block's name.
        block: Name,
    },
    /// A block was laid down.
    Placed {
        /// The step.
        step: u32,
        /// The block's name.
        block: Name,
        /// The least x of its cells.
        x: u32,
        /// The least y of its cells.
        y: u32,
    },
}

/// The first fault, by step and then in this order, or that there is none.
#[derive(Debug, Drop)]
pub enum PlayVerdict {
    /// Nothing is wrong.
    Safe,
    /// The step is no move of a block of the grid, or can't be made: a block is taken up where it
    /// is while none is held, and laid down while it is held.
    Strange {
        /// The step.
        step: u32,
    },
    /// The step leaves the block with a cell outside of the grid.
    Outside {
        /// The step.
        step: u32,
        /// The block's name.
        block: Name,
    },
    /// The step leaves the block on a cell of an obstacle.
    Obstacle {
        /// The step.
        step: u32,
        /// The block's name.
        block: Name,
    },
    /// After the step, or at first where it is 0, two blocks that aren't held share a cell.
    Clash {
        /// The step.
        step: u32,
        /// The lesser of their names, by bytes: of all such pairs the least, by this name and then
        /// by the other.
        first: Name,
        /// The other's name.
        second: Name,
    },
}

/// What came of a plan that was acted out.
#[derive(Debug, Drop)]
pub struct Play {
    /// What the steps up to the first fault did, in order; a strange step did nothing.
    pub marks: Seq<Mark>,
    /// The first fault.
    pub verdict: PlayVerdict,
}

/// Acts a plan out on the grid (this project): each block stands at its first corner, and `pick B P
/// G C` and `put B P G C` move the block B from and to the corner that the word P means. It is
/// `Safe` exactly where no step has a fault. Fails only where memory is wanting.
pub fn act(alloc: Global, grid: &Grid, steps: &[Call]) -> Result<Play, AllocError>
    requires { length steps.now < 2 ^ 32 }
    ensures { IfOk result (IsActedOut grid.now steps.now) }
{
    let mut scene = Scene::new(alloc, grid)?;
    match play_out(alloc, grid, steps, &mut scene) {
        Ok(verdict) => Ok(Play {
            marks: Seq::from_vec(scene.marks),
            verdict,
        }),
        Err(fault) => Err(fault),
    }
}
