//! A round, before anything was sent.
ghost use Rattle.std.specs.Prelude.{◌≡◌, ◌≤◌, ◌+◌, ◌^◌, ◌<◌, ◌++◌, [], IfOk, IfSome, IfNone, None, length, All, Some, slice_get, vec_capacity, option_copied};
ghost use Rattle.gen_lines.specs.Request.{IsNamed};
ghost use Rattle.gen_lines.specs.Told.{IsNarrow};
ghost use Rattle.instance_queue.specs.Level.{due_instances};
ghost use Rattle.task_model.specs.Fit.{IsFit};
ghost use Rattle.pools.specs.Pools.{IsChild, child_for, asked_streams};
ghost use Rattle.session_core.specs.Slots.{wanted_at, ask_for as ask_of, asks_from, slots_from, slot_for, answers_of, slot_of, all_answered};
ghost use Rattle.session_core.specs.Slots.{AreFitChildren};

use crate::cell::Cell;
use fact_store::Facts;
use gen_lines::{Wanted, request_text};
use instance_queue::Due;
use pools::{Workers, child_of};
use std::alloc::{AllocError, Global};
use task_model::{Instance, Task};
use transcript_model::{Entry, name_instance};

/// The requests of a round as entries, their instances, and what is heard, side by side.
#[derive(Drop)]
pub(crate) struct Round {
    pub(crate) asks: Vec<Entry>,
    pub(crate) instances: Vec<Instance>,
    pub(crate) cells: Vec<Cell>,
}

impl Round {
    /// The round of no dues, which takes no memory.
    pub(crate) fn empty(alloc: Global) -> Round
        ensures asks { result.asks.items ≡ [] }
        ensures instances { result.instances.items ≡ [] }
        ensures cells { result.cells.items ≡ [] }
    {
        Round {
            asks: Vec::new(alloc),
            instances: Vec::new(alloc),
            cells: Vec::new(alloc),
        }
    }
}

/// What a round's requests are made of.
#[derive(Drop)]
pub(crate) struct Scene<'a> {
    pub(crate) alloc: Global,
    pub(crate) task: &'a Task,
    pub(crate) facts: &'a Facts,
    pub(crate) pools: &'a [Workers],
    pub(crate) version: u8,
}

/// What a request to an instance of this stream may be answered.
fn wanted_for(scene: &Scene<'_>, stream: u32) -> Wanted
    requires { IsFit scene.now.task.now }
    ensures wanted { result ≡ wanted_at scene.now.task.now scene.now.version stream }
    ensures narrow { IsNarrow result }
{
    match scene.task.streams.as_slice().get(stream as usize) {
        Some(stream) if stream.worth.is_none() => Wanted::Outputs {
            width: stream.outputs.len(),
            several: scene.version != 1,
        },
        _ => Wanted::Number,
    }
}

/// The request of this number as an entry.
fn ask_for(scene: &Scene<'_>, number: u32, due: &Due) -> Result<Entry, AllocError>
    requires { IsNamed scene.now.task.now scene.now.facts.now.known.names due.now.instance }
    ensures { IfOk result (λ ask. ask
        ≡ ask_of scene.now.task.now scene.now.facts.now.known.names number due.now) }
{
    let call = name_instance(scene.alloc, scene.task, scene.facts, &due.instance)?;
    Ok(Entry::Ask {
        number,
        turn: due.turn,
        call,
    })
}

/// The cell of the ask of this number, after these dues of the same round.
fn cell_for(scene: &Scene<'_>, number: u32, before: &[Due], due: &Due) -> Result<Cell, AllocError>
    requires fit { IsFit scene.now.task.now }
    requires named { IsNamed scene.now.task.now scene.now.facts.now.known.names due.now.instance }
    requires child { IsChild (child_for scene.now.pools.now (asked_streams before.now)
        due.now.instance.stream) }
    ensures { IfOk result (λ cell. cell
        ≡ slot_for scene.now.task.now scene.now.facts.now.known.names scene.now.version
        scene.now.pools.now number (asked_streams before.now) due.now) }
{
    let request = request_text(
        scene.alloc,
        scene.task,
        scene.facts,
        due.turn,
        &due.instance,
    )?;
    let child = child_of(scene.pools, before, due.instance.stream);
    let wanted = wanted_for(scene, due.instance.stream);
    Cell::new(scene.alloc, number, child, request, wanted)
}

/// The round of these dues, the first of which has this number.
pub(crate) fn round_of(scene: &Scene<'_>, first: u32, dues: &[Due]) -> Result<Round, AllocError>
    requires fit { IsFit scene.now.task.now }
    requires few { first + length dues.now < 2 ^ 32 }
    requires named { All (λ d. IsNamed scene.now.task.now scene.now.facts.now.known.names
        d.instance) dues.now }
    requires children { AreFitChildren scene.now.pools.now dues.now }
    ensures asks { IfOk result (λ round. round.asks.items
        ≡ asks_from scene.now.task.now scene.now.facts.now.known.names first dues.now) }
    ensures instances { IfOk result (λ round. round.instances.items ≡ due_instances dues.now) }
    ensures cells { IfOk result (λ round. round.cells.items
        ≡ slots_from scene.now.task.now scene.now.facts.now.known.names scene.now.version
        scene.now.pools.now first [] dues.now) }
{
    let mut asks = Vec::new(scene.alloc);
    let mut instances = Vec::new(scene.alloc);
    let mut cells = Vec::new(scene.alloc);
    for (place, due) in dues.iter().enumerate() {
        let number = first + place as u32;
        asks.push(ask_for(scene, number, due)?)?;
        instances.push(due.instance.copy()?)?;
        cells.push(cell_for(scene, number, &dues[..place], due)?)?;
    }
    Ok(Round {
        asks,
        instances,
        cells,
    })
}

/// Where the cell of the child stands.
pub(crate) fn place_of(cells: &[Cell], child: u8) -> Option<usize>
    ensures found { IfSome result (λ place. slice_get cells.now place ≡ slot_of cells.now child) }
    ensures none { IfNone result (slot_of cells.now child ≡ None) }
{
    for (place, cell) in cells.iter().enumerate() {
        if cell.child() == child {
            return Some(place);
        }
    }
    None
}

/// The cell of the child.
pub(crate) fn cell_of(cells: &[Cell], child: u8) -> Option<&Cell>
    ensures { option_copied result ≡ slot_of cells.now child }
{
    for cell in cells {
        if cell.child() == child {
            return Some(cell);
        }
    }
    None
}

/// Whether each of the cells has its answer.
pub(crate) fn are_answered(cells: &[Cell]) -> bool
    ensures { result ≡ all_answered cells.now }
{
    for cell in cells {
        if !cell.is_answered() {
            return false;
        }
    }
    true
}

/// Puts the answers behind these entries, for which there is room.
pub(crate) fn put_answers(entries: &mut Vec<Entry>, cells: Vec<Cell>)
    requires { length entries.old.items + length cells.items ≤ vec_capacity entries.old }
    ensures { entries.new.items ≡ entries.old.items ++ answers_of cells.items }
{
    for cell in cells {
        if let Some(answer) = cell.into_answer() {
            entries.push_reserved(answer);
        }
    }
}
