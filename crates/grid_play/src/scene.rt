//! The scene in which a plan is acted out.
ghost use Rattle.std.specs.Prelude.{◌≡◌, ◌^◌, ◌<◌, ◌++◌, [], ◌∷◌, length, Some, IfOk};
ghost use Rattle.grid_play.specs.Faults as specs;
ghost use Rattle.grid_play.specs.Steps.{IsClashVerdict, IsPutVerdict, IsStepVerdict, marks_for};
ghost use Rattle.grid_world.specs.Answers.{is_blocked as blocked};
ghost use Rattle.grid_play.specs.Worlds.{home_world, step_world};
ghost use Rattle.grid_play.specs.declared.play.PlayVerdict.TheVariants.{Safe};

use crate::clash::{first_clash, name_of};
use crate::moves::{Move, move_of};
use crate::play::{Mark, PlayVerdict};
use crate::world::{home_world as blocks_at_home, make};
use grid_text::{Grid, Rect};
use grid_world::{Corner, rect_at};
use std::alloc::{AllocError, Global};
use task_model::Name;
use transcript_model::Call;

/// Where the blocks are, and what the steps did so far.
#[derive(Drop)]
pub(crate) struct Scene {
    pub(crate) world: Vec<Option<Corner>>,
    pub(crate) marks: Vec<Mark>,
}

impl Scene {
    /// Each block stands at its first corner.
    pub(crate) fn new(alloc: Global, grid: &Grid) -> Result<Scene, AllocError>
        ensures world { IfOk result (λ scene. scene.world.items ≡ home_world grid.now) }
        ensures marks { IfOk result (λ scene. scene.marks.items ≡ []) }
    {
        let world = blocks_at_home(alloc, grid)?;
        Ok(Scene {
            world,
            marks: Vec::new(alloc),
        })
    }
}

/// Whether two blocks share a cell after this step. Fails only where memory is wanting.
fn clash_after(
    alloc: Global,
    grid: &Grid,
    world: &[Option<Corner>],
    step: u32,
) -> Result<PlayVerdict, AllocError>
    ensures { IfOk result (IsClashVerdict grid.now world.now step) }
{
    let Some((one, other)) = first_clash(grid, world) else {
        return Ok(PlayVerdict::Safe);
    };
    let first = Name::from_slice(alloc, name_of(grid, one))?;
    let second = Name::from_slice(alloc, name_of(grid, other))?;
    Ok(PlayVerdict::Clash {
        step,
        first,
        second,
    })
}

/// Whether obstacles cover one of these cells.
fn is_blocked(grid: &Grid, cells: &Rect) -> bool
    ensures { result ≡ blocked grid.now cells.now }
{
    grid.obstacles()
        .iter()
        .any(|obstacle| cells.meets(obstacle))
}

/// What is wrong with where a move leaves its block, if it lays it down. Fails only where memory is
/// wanting.
fn laid_down(alloc: Global, grid: &Grid, step: u32, action: Move) -> Result<PlayVerdict, AllocError>
    ensures { IfOk result (IsPutVerdict grid.now step action) }
{
    let Move::Put { block, corner } = action else {
        return Ok(PlayVerdict::Safe);
    };
    let Some(block) = grid.blocks().get(block) else {
        return Ok(PlayVerdict::Safe);
    };
    let cells = rect_at(block, corner);
    if !cells.is_within(&grid.area()) {
        let block = Name::from_slice(alloc, block.name.bytes())?;
        return Ok(PlayVerdict::Outside { step, block });
    }
    if is_blocked(grid, &cells) {
        let block = Name::from_slice(alloc, block.name.bytes())?;
        return Ok(PlayVerdict::Obstacle { step, block });
    }
    Ok(PlayVerdict::Safe)
}

/// What a move does. Fails only where memory is wanting.
fn mark_of(alloc: Global, grid: &Grid, step: u32, action: Move) -> Result<Mark, AllocError>
    ensures { IfOk result (λ mark. mark ∷ [] ≡ specs.mark_in grid.now step (Some action)) }
{
    match action {
        Move::Pick { block, .. } => {
            let block = Name::from_slice(alloc, name_of(grid, block))?;
            Ok(Mark::Held { step, block })
        }
        Move::Put { block, corner } => {
            let block = Name::from_slice(alloc, name_of(grid, block))?;
            let Corner { x, y } = corner;
            Ok(Mark::Placed { step, block, x, y })
        }
    }
}

/// Takes a step, and says what is wrong with it first. Fails only where memory is wanting.
fn take_step(
    alloc: Global,
    grid: &Grid,
    step: u32,
    call: &Call,
    scene: &mut Scene,
) -> Result<PlayVerdict, AllocError>
    ensures verdict { IfOk result (IsStepVerdict grid.now scene.old.world.items step call.now) }
    ensures world { IfOk result (λ verdict. verdict ≡ Safe
        → step_world grid.now scene.old.world.items call.now ≡ Some scene.new.world.items) }
    ensures marks { IfOk result (λ verdict. scene.new.marks.items
        ≡ scene.old.marks.items ++ marks_for grid.now step call.now verdict) }
{
    let Some(action) = move_of(grid, call) else {
        return Ok(PlayVerdict::Strange { step });
    };
    if !make(scene.world.as_mut_slice(), action) {
        return Ok(PlayVerdict::Strange { step });
    }
    let mark = mark_of(alloc, grid, step, action)?;
    scene.marks.push(mark)?;
    match laid_down(alloc, grid, step, action)? {
        PlayVerdict::Safe => clash_after(alloc, grid, scene.world.as_slice(), step),
        fault => Ok(fault),
    }
}

/// Takes the steps one after another up to the first fault, and tells it. Fails only where memory
/// is wanting.
pub(crate) fn play_out(
    alloc: Global,
    grid: &Grid,
    steps: &[Call],
    scene: &mut Scene,
) -> Result<PlayVerdict, AllocError>
    requires few { length steps.now < 2 ^ 32 }
    requires world { scene.old.world.items ≡ home_world grid.now }
    requires marks { scene.old.marks.items ≡ [] }
    ensures { IfOk result (λ verdict. specs.IsActedOut grid.now steps.now
        (record { marks = scene.new.marks.items; verdict = verdict })) }
{
    match clash_after(alloc, grid, scene.world.as_slice(), 0)? {
        PlayVerdict::Safe => {}
        fault => return Ok(fault),
    }
    for (place, call) in steps.iter().enumerate() {
        match take_step(alloc, grid, place as u32 + 1, call, scene)? {
            PlayVerdict::Safe => {}
            fault => return Ok(fault),
        }
    }
    Ok(PlayVerdict::Safe)
}
