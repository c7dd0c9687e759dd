//! Parts of a list that have some of its entries.
ghost use Rattle.std.specs.Prelude.{◌<◌, ◌∷◌, [], length, All, OnOk};
ghost use Rattle.dreaming.specs.Parts.{IsListing};
ghost use Rattle.dreaming.specs.Thinning.{IsFilled, IsPartAt, supported_places};

use crate::part::Part;
use optimistic_set::Supposed;
use std::alloc::{AllocError, Global};
use task_model::Task;

/// A list of supposed entries of a task's streams.
#[derive(Drop)]
pub struct Listing<'a> {
    /// Where memory is taken.
    pub alloc: Global,
    /// The task.
    pub task: &'a Task,
    /// The list.
    pub supposed: &'a Supposed<'a>,
}

/// Takes the entries at these places. Fails only where memory is wanting; then the part is no
/// longer one.
fn take_all(listing: &Listing<'_>, part: &mut Part<'_>, places: &[usize]) -> Result<(), AllocError>
    requires listing { IsListing listing.now }
    requires part { IsPartAt listing.now.task.now listing.now.supposed.now [] part.old }
    requires below { All (λ place. place < length listing.now.supposed.now.list) places.now }
    ensures { OnOk result (IsPartAt listing.now.task.now listing.now.supposed.now places.now
        part.new) }
{
    for place in places {
        part.take(listing.alloc, listing.task, *place)?;
    }
    Ok(())
}

/// Takes besides the entry at this place, if it has support.
fn take_one(listing: &Listing<'_>, part: &mut Part<'_>, place: usize) -> Result<(), AllocError>
    requires listing { IsListing listing.now }
    requires part { IsPartAt listing.now.task.now listing.now.supposed.now part.old.places
        part.old }
    requires place { place < length listing.now.supposed.now.list }
    ensures { OnOk result (IsPartAt listing.now.task.now listing.now.supposed.now
        (supported_places listing.now.task.now listing.now.supposed.now.base
        listing.now.supposed.now.list part.old.places (place ∷ [])) part.new) }
{
    if part.supports(listing.alloc, listing.task, place) {
        part.take(listing.alloc, listing.task, place)
    } else {
        Ok(())
    }
}

/// Takes besides, one after another, those of these entries that have support by then. Fails only
/// where memory is wanting; then the part is no longer one.
fn take_supported(
    listing: &Listing<'_>,
    part: &mut Part<'_>,
    places: &[usize],
) -> Result<(), AllocError>
    requires listing { IsListing listing.now }
    requires part { IsPartAt listing.now.task.now listing.now.supposed.now part.old.places
        part.old }
    requires below { All (λ place. place < length listing.now.supposed.now.list) places.now }
    ensures { OnOk result (IsPartAt listing.now.task.now listing.now.supposed.now
        (supported_places listing.now.task.now listing.now.supposed.now.base
        listing.now.supposed.now.list part.old.places places.now) part.new) }
{
    for place in places {
        take_one(listing, part, *place)?;
    }
    Ok(())
}

/// Takes the entries at the first places and behind them, one after another, those of the others
/// that have support by then. The part has none before. Fails only where memory is wanting; then
/// the part is no longer one.
pub fn fill(
    listing: &Listing<'_>,
    part: &mut Part<'_>,
    first: &[usize],
    others: &[usize],
) -> Result<(), AllocError>
    requires listing { IsListing listing.now }
    requires part { IsPartAt listing.now.task.now listing.now.supposed.now [] part.old }
    requires first { All (λ place. place < length listing.now.supposed.now.list) first.now }
    requires others { All (λ place. place < length listing.now.supposed.now.list) others.now }
    ensures { OnOk result (IsFilled listing.now.task.now listing.now.supposed.now first.now
        others.now part.new) }
{
    take_all(listing, part, first)?;
    take_supported(listing, part, others)
}
