//! Whether a plan needs each of the entries that it uses.
ghost use Rattle.std.specs.Prelude.{◌≡◌, ◌<◌, ◌↔◌, [], IsTrue, All, length, IfOk};
ghost use Rattle.dream_check.specs.Listed.{AreEntriesNeeded, IsEntryNeeded};
ghost use Rattle.dreaming.specs.Parts.{IsListing};
ghost use Rattle.dreaming.specs.Thinning.{IsPartAt};

use crate::table::Table;
use dreaming::{Listing, Part, fill};
use shown_steps::is_plan;
use std::alloc::AllocError;
use transcript_model::Call;

/// Whether the steps are no plan without the entry at this place of those that are used, and
/// without those that lack support then. The part, which has no entries before, gets the others.
fn is_needed_by(
    listing: &Listing<'_>,
    table: &Table<'_>,
    part: &mut Part<'_>,
    places: &[usize],
    steps: &[Call],
    place: usize,
) -> Result<bool, AllocError>
    requires listing { IsListing listing.now }
    requires names { table.now ≡ listing.now.supposed.now.known.names }
    requires part { IsPartAt listing.now.task.now listing.now.supposed.now [] part.old }
    requires below { All (λ place. place < length listing.now.supposed.now.list) places.now }
    requires place { place < length places.now }
    ensures { IfOk result (λ yes. IsTrue yes ↔ IsEntryNeeded listing.now.task.now
        listing.now.supposed.now places.now steps.now place) }
{
    fill(listing, part, &places[..place], &places[place + 1..])?;
    let stays = is_plan(listing.alloc, listing.task, &part.look(), table, steps)?;
    Ok(!stays)
}

/// Whether the steps are no plan without the entry at this place of those that are used, and
/// without those that lack support then.
fn is_needed(
    listing: &Listing<'_>,
    table: &Table<'_>,
    places: &[usize],
    steps: &[Call],
    place: usize,
) -> Result<bool, AllocError>
    requires listing { IsListing listing.now }
    requires names { table.now ≡ listing.now.supposed.now.known.names }
    requires below { All (λ place. place < length listing.now.supposed.now.list) places.now }
    requires place { place < length places.now }
    ensures { IfOk result (λ yes. IsTrue yes ↔ IsEntryNeeded listing.now.task.now
        listing.now.supposed.now places.now steps.now place) }
{
    let mut part = Box::new(listing.alloc, Part::new(listing.alloc, listing.supposed))?;
    is_needed_by(listing, table, &mut part, places, steps, place)
}

/// Whether each of the entries that are used is needed. Fails only where memory is wanting.
pub(crate) fn are_needed(
    listing: &Listing<'_>,
    table: &Table<'_>,
    places: &[usize],
    steps: &[Call],
) -> Result<bool, AllocError>
    requires listing { IsListing listing.now }
    requires names { table.now ≡ listing.now.supposed.now.known.names }
    requires below { All (λ place. place < length listing.now.supposed.now.list) places.now }
    ensures { IfOk result (λ yes. IsTrue yes ↔ AreEntriesNeeded listing.now.task.now
        listing.now.supposed.now places.now steps.now) }
{
    for place in 0..places.len() {
        if !is_needed(listing, table, places, steps, place)? {
            return Ok(false);
        }
    }
    Ok(true)
}
