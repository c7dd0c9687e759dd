//! The steps of a dream, taken with the entries that it uses.
ghost use Rattle.std.specs.Prelude.{◌≡◌, IfOk};
ghost use Rattle.dream_check.specs.Listed.{IsFollowed};
ghost use Rattle.dreaming.specs.Parts.{IsListing};
ghost use Rattle.dreaming.specs.Thinning.{IsPartAt};

use crate::table::Table;
use dreaming::{Listing, Part};
use shown_steps::{Ran, run_steps};
use std::alloc::AllocError;
use transcript_model::Call;

/// Where steps lead.
#[derive(Clone, Copy)]
pub enum Followed {
    /// The one at this place, from 0, can't be taken; those before it can.
    Stops(usize),
    /// All can be, but the goal isn't true behind them.
    Misses,
    /// All can be, and they reach the goal.
    Reaches,
}

/// Takes the steps by what is known with the entries. Fails only where memory is wanting.
pub(crate) fn follow(
    listing: &Listing<'_>,
    table: &Table<'_>,
    part: &Part<'_>,
    steps: &[Call],
) -> Result<Followed, AllocError>
    requires listing { IsListing listing.now }
    requires names { table.now ≡ listing.now.supposed.now.known.names }
    requires part { IsPartAt listing.now.task.now listing.now.supposed.now part.now.places
        part.now }
    ensures { IfOk result (IsFollowed listing.now.task.now part.now.known steps.now) }
{
    let look = part.look();
    let run = match run_steps(listing.alloc, listing.task, &look, table, steps)? {
        Ran::Stops(place) => return Ok(Followed::Stops(place)),
        Ran::Ends(run) => run,
    };
    if run.reaches_goal(listing.task, &look) {
        Ok(Followed::Reaches)
    } else {
        Ok(Followed::Misses)
    }
}
