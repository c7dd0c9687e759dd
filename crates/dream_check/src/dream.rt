//! Whether a dream that a report shows is one.
ghost use Rattle.std.specs.Prelude.{◌≡◌, ℕ, ◌<◌, List, [], length, All, IfOk};
ghost use Rattle.dream_check.specs.Judged.{IsDreamJudged};
ghost use Rattle.dream_check.specs.Listed.{IsPartJudged, IsJudgedOver, known_at};
ghost use Rattle.dreaming.specs.Parts.{IsListed, IsListing};
ghost use Rattle.dreaming.specs.Thinning.{IsPartAt};
ghost use Rattle.shown_steps.specs.Plans.{IsPlan};
ghost use Rattle.learning.specs.Knowledge.{IsKnowledge};
ghost use Rattle.transcript_model.specs.Rounds.{Limits};
ghost use Rattle.transcript_model.specs.declared.entry.Entry.{Entry as AnyEntry};

use crate::needed::are_needed;
use crate::point::Point;
use crate::steps::{Followed, follow};
use crate::table::Table;
use crate::uses::take_uses;
use dreaming::{Listing, Part, entries_of};
use optimistic_set::{OptEntry, OptimisticFault, Supposed, optimistic};
use std::alloc::{AllocError, Global};
use task_model::Task;
use transcript_model::{Call, DreamUse};

/// What is found of a dream.
#[derive(Drop)]
pub enum Dreamed {
    /// It is one, with these entries.
    Right(Vec<OptEntry>),
    /// The use at this place, from 0, is the first that names no entry that may be used.
    Use(usize),
    /// The uses are right, and the step at this place, from 0, is the first that can't be taken.
    Step(usize),
    /// All can be taken, but the goal isn't reached or an entry can be left out, which is told of
    /// the last line.
    Last,
}

/// Judges steps that reach the goal with the entries at these places.
fn judge_plan(
    listing: &Listing<'_>,
    table: &Table<'_>,
    places: &[usize],
    steps: &[Call],
) -> Result<Dreamed, AllocError>
    requires listing { IsListing listing.now }
    requires names { table.now ≡ listing.now.supposed.now.known.names }
    requires below { All (λ place. place < length listing.now.supposed.now.list) places.now }
    requires plan { (cost : ℕ) × IsPlan listing.now.task.now
        (known_at listing.now.task.now listing.now.supposed.now places.now) steps.now cost }
    ensures { IfOk result (IsPartJudged listing.now.task.now listing.now.supposed.now places.now
        steps.now) }
{
    if !are_needed(listing, table, places, steps)? {
        return Ok(Dreamed::Last);
    }
    let entries = entries_of(listing.alloc, listing.supposed, places)?;
    Ok(Dreamed::Right(entries))
}

/// Judges the steps with the entries that are used.
fn judge_part(
    listing: &Listing<'_>,
    table: &Table<'_>,
    part: &Part<'_>,
    steps: &[Call],
) -> Result<Dreamed, AllocError>
    requires listing { IsListing listing.now }
    requires names { table.now ≡ listing.now.supposed.now.known.names }
    requires part { IsPartAt listing.now.task.now listing.now.supposed.now part.now.places
        part.now }
    ensures { IfOk result (IsPartJudged listing.now.task.now listing.now.supposed.now
        part.now.places steps.now) }
{
    match follow(listing, table, part, steps)? {
        Followed::Stops(place) => Ok(Dreamed::Step(place)),
        Followed::Misses => Ok(Dreamed::Last),
        Followed::Reaches => judge_plan(listing, table, part.places(), steps),
    }
}

/// Judges a dream over a list, and puts the entries that it uses into the part, which has none
/// before.
fn judge_by(
    listing: &Listing<'_>,
    table: &Table<'_>,
    part: &mut Part<'_>,
    uses: &[DreamUse],
    steps: &[Call],
) -> Result<Dreamed, AllocError>
    requires listing { IsListing listing.now }
    requires names { table.now ≡ listing.now.supposed.now.known.names }
    requires part { IsPartAt listing.now.task.now listing.now.supposed.now [] part.old }
    ensures { IfOk result (IsJudgedOver listing.now.task.now listing.now.supposed.now uses.now
        steps.now) }
{
    match take_uses(listing, table, part, uses)? {
        Some(place) => Ok(Dreamed::Use(place)),
        None => judge_part(listing, table, part, steps),
    }
}

/// Judges a dream over a list.
fn judge_over(
    alloc: Global,
    task: &Task,
    supposed: &Supposed<'_>,
    uses: &[DreamUse],
    steps: &[Call],
) -> Result<Dreamed, AllocError>
    requires listed { IsListed task.now supposed.now }
    ensures { IfOk result (IsJudgedOver task.now supposed.now uses.now steps.now) }
{
    let listing = Listing {
        alloc,
        task,
        supposed,
    };
    let table = Box::new(alloc, Table::of(alloc, supposed)?)?;
    let mut part = Box::new(alloc, Part::new(alloc, supposed))?;
    judge_by(&listing, &table, &mut part, uses, steps)
}

/// Judges a dream at a point of a transcript: its uses, of which there are some, and its steps, as a
/// report shows them.
///
/// `Right` comes exactly where it is a dream (PDDLStream 2020; what may be left out is this
/// project's). Else the first of its lines that is wrong is told: a use that is no entry of the
/// list that may be supposed, by number and call, in its order and with support; a step that can't
/// be taken with the entries used; the last line, where the goal isn't reached or an entry can be
/// left out. Fails only where memory is wanting.
pub fn judge_dream(
    alloc: Global,
    point: &Point<'_>,
    uses: &[DreamUse],
    steps: &[Call],
) -> Result<Dreamed, AllocError>
    requires knowledge { (version : ℕ) × (before : List AnyEntry)
        × IsKnowledge version point.now.task.now before point.now.knowledge.now }
    requires some { 0 < length uses.now }
    ensures { (limits : Limits) (before : List AnyEntry) → limits.depth ≡ point.now.depth
        → IsKnowledge limits.version point.now.task.now before point.now.knowledge.now
        → IfOk result (IsDreamJudged limits point.now.task.now before point.now.tried.now uses.now
        steps.now) }
{
    let knowledge = point.knowledge;
    let depth = u32::from(point.depth);
    match optimistic(
        alloc,
        point.task,
        &knowledge.facts,
        &knowledge.queue,
        point.tried,
        depth,
    ) {
        Ok(supposed) => judge_over(alloc, point.task, &supposed, uses, steps),
        Err(OptimisticFault::TooManyEntries) => Ok(Dreamed::Use(0)),
        Err(OptimisticFault::Memory) => Err(AllocError),
    }
}
