//! The entries that a dream uses, one after another.
ghost use Rattle.std.specs.Prelude.{◌≡◌, ◌<◌, ◌↔◌, [], IsTrue, List, length, slice_get, Some, IfOk};
ghost use Rattle.dream_check.specs.Listed.{AreTaken, IsNext, MayBeNext, AreUsed};
ghost use Rattle.dreaming.specs.Parts.{IsListing};
ghost use Rattle.dreaming.specs.Thinning.{IsPartAt};
ghost use Rattle.task_model.specs.Dreams.{SupposedEntry as AnyEntry};
ghost use Rattle.transcript_model.specs.Names.{call_of_instance};
ghost use Rattle.transcript_model.specs.declared.entry.DreamUse.{DreamUse as AnyUse};

use crate::table::Table;
use dreaming::{Listing, Part};
use shown_steps::instance_of;
use std::alloc::AllocError;
use transcript_model::{Call, DreamUse};

/// Whether the call shows the entry at this place of the list.
fn is_shown(
    listing: &Listing<'_>,
    table: &Table<'_>,
    place: usize,
    call: &Call,
) -> Result<bool, AllocError>
    requires listing { IsListing listing.now }
    requires names { table.now ≡ listing.now.supposed.now.known.names }
    requires place { place < length listing.now.supposed.now.list }
    ensures { (e : AnyEntry) → slice_get listing.now.supposed.now.list place ≡ Some e
        → IfOk result (λ yes. IsTrue yes
        ↔ (call.now ≡ call_of_instance listing.now.task.now table.now e.instance)) }
{
    let entry = listing.supposed.entry(place);
    let instance = entry.instance();
    match instance_of(listing.alloc, listing.task, table, call)? {
        Some(other) => Ok(other == *instance),
        None => Ok(false),
    }
}

/// The place of the entry that is used next, if it may be: it stands at `next` or behind, is shown
/// so, and has support.
fn used_entry(
    listing: &Listing<'_>,
    table: &Table<'_>,
    part: &Part<'_>,
    next: usize,
    used: &DreamUse,
) -> Result<Option<usize>, AllocError>
    requires listing { IsListing listing.now }
    requires names { table.now ≡ listing.now.supposed.now.known.names }
    requires part { IsPartAt listing.now.task.now listing.now.supposed.now part.now.places
        part.now }
    requires next { IsNext part.now.places next }
    ensures { (uses : List AnyUse)
        → AreUsed listing.now.task.now listing.now.supposed.now uses part.now.places
        → IfOk result (MayBeNext listing.now.task.now listing.now.supposed.now uses
        part.now.places used.now) }
{
    let number = used.number as usize;
    if number <= next || listing.supposed.len() < number {
        return Ok(None);
    }
    let place = number - 1;
    if !is_shown(listing, table, place, &used.call)? {
        return Ok(None);
    }
    if !part.supports(listing.alloc, listing.task, place) {
        return Ok(None);
    }
    Ok(Some(place))
}

/// Takes the entries that the uses name, one after another, into the part, which has none before.
/// Answers the place, from 0, of the first use that names no entry that may be used; those before
/// it do. Fails only where memory is wanting; then the part is no longer one.
pub(crate) fn take_uses(
    listing: &Listing<'_>,
    table: &Table<'_>,
    part: &mut Part<'_>,
    uses: &[DreamUse],
) -> Result<Option<usize>, AllocError>
    requires listing { IsListing listing.now }
    requires names { table.now ≡ listing.now.supposed.now.known.names }
    requires part { IsPartAt listing.now.task.now listing.now.supposed.now [] part.old }
    ensures { IfOk result (AreTaken listing.now.task.now listing.now.supposed.now uses.now
        part.new) }
{
    let mut next = 0;
    for (place, used) in uses.iter().enumerate() {
        let Some(entry) = used_entry(listing, table, part, next, used)? else {
            return Ok(Some(place));
        };
        part.take(listing.alloc, listing.task, entry)?;
        next = entry + 1;
    }
    Ok(None)
}
