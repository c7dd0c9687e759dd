//! Whether a plan stays valid with fewer entries.
ghost use Rattle.std.specs.Prelude.{ℕ, [], ◌<◌, ◌≤◌, length, All, IfOk, IfSome, IfNone, OnOk};
ghost use Rattle.task_model.specs.Plans.{IsValid};
ghost use Rattle.std.specs.Ordering.{nat_cmp};
ghost use Rattle.lemmas.specs.Lists.{AreAscending};
ghost use Rattle.dreaming.specs.Thinning.{IsFilled, IsTrial, IsTried, IsPartAt, TrialKeeps, TrialNeeds};

use crate::part::Part;
use crate::taken::{Listing, fill};
use crate::wanted::Wanted;
use plan_check::{CheckFault, check};
use std::alloc::AllocError;
use task_model::Plan;

/// A plan over a list of supposed entries.
#[derive(Drop)]
pub(crate) struct Trial<'a> {
    pub(crate) listing: Listing<'a>,
    pub(crate) plan: &'a Plan,
    /// What the plan wants of the entries.
    pub(crate) wanted: &'a Wanted,
}

impl<'a> Trial<'a> {
    ghost use Rattle.std.specs.Prelude.{◌≡◌, ◌<◌, ℕ, true, length, All, Contains};
    ghost use Rattle.dreaming.specs.Thinning.{HasWanted};

    /// Whether one of the entries at these places has an output that is wanted.
    fn wants_some(&self, places: &[usize]) -> bool
        requires { All (λ place. place < length self.now.listing.supposed.now.list) places.now }
        ensures { result ≡ true → (place : ℕ) × Contains places.now place
            × HasWanted self.now.listing.supposed.now self.now.wanted.now place }
    {
        for place in places {
            let entry = self.listing.supposed.entry(*place);
            if self.wanted.has_some(entry.outputs()) {
                return true;
            }
        }
        false
    }
}

/// The places of entries with which a plan is valid, and what it costs then.
#[derive(Drop)]
pub(crate) struct Kept {
    pub(crate) places: Vec<usize>,
    pub(crate) cost: u64,
}

/// What the plan costs with these entries, if it is valid.
fn cost_with(trial: &Trial<'_>, part: &Part<'_>) -> Result<Option<u64>, AllocError>
    requires trial { IsTrial trial.now }
    requires part { IsPartAt trial.now.listing.task.now trial.now.listing.supposed.now
        part.now.places part.now }
    ensures some { IfOk result (λ found. IfSome found
        (IsValid trial.now.listing.task.now part.now.known trial.now.plan.now.steps)) }
    ensures none { IfOk result (λ found. IfNone found ((cost : ℕ)
        → ¬ (IsValid trial.now.listing.task.now part.now.known trial.now.plan.now.steps cost))) }
{
    let listing = &trial.listing;
    match check(listing.alloc, listing.task, &part.look(), trial.plan) {
        Ok(cost) => Ok(Some(cost)),
        Err(fault) => match fault {
            CheckFault::Memory => Err(AllocError),
            _ => Ok(None),
        },
    }
}

/// What the plan costs with the entries at the first places and those of the others that have
/// support behind them, if it is valid. The part, which has none before, gets these.
fn cost_filled(
    trial: &Trial<'_>,
    part: &mut Part<'_>,
    first: &[usize],
    others: &[usize],
) -> Result<Option<u64>, AllocError>
    requires trial { IsTrial trial.now }
    requires part { IsPartAt trial.now.listing.task.now trial.now.listing.supposed.now [] part.old }
    requires first { All (λ place. place < length trial.now.listing.supposed.now.list) first.now }
    requires others { All (λ place. place < length trial.now.listing.supposed.now.list) others.now }
    ensures part { OnOk result (IsFilled trial.now.listing.task.now
        trial.now.listing.supposed.now first.now others.now part.new) }
    ensures some { IfOk result (λ found. IfSome found
        (IsValid trial.now.listing.task.now part.new.known trial.now.plan.now.steps)) }
    ensures none { IfOk result (λ found. IfNone found ((cost : ℕ)
        → ¬ (IsValid trial.now.listing.task.now part.new.known trial.now.plan.now.steps cost))) }
{
    fill(&trial.listing, part, first, others)?;
    let cost = cost_with(trial, part)?;
    Ok(cost)
}

/// What is kept of the entries at the first places and of the others, one after another those that
/// have support by then, if the plan is valid with them.
fn kept_with(
    trial: &Trial<'_>,
    first: &[usize],
    others: &[usize],
) -> Result<Option<Kept>, AllocError>
    requires trial { IsTrial trial.now }
    requires first { All (λ place. place < length trial.now.listing.supposed.now.list) first.now }
    requires others { All (λ place. place < length trial.now.listing.supposed.now.list) others.now }
    ensures { IfOk result (IsTried trial.now first.now others.now) }
{
    let listing = &trial.listing;
    let mut part = Box::new(listing.alloc, Part::new(listing.alloc, listing.supposed))?;
    match cost_filled(trial, &mut part, first, others)? {
        Some(cost) => Ok(Some(Kept {
            places: Box::into_inner(part).into_places(),
            cost,
        })),
        None => Ok(None),
    }
}

/// What is kept of the entries at these places, one after another those that have support by then,
/// if the plan is valid with them.
pub(crate) fn kept_of(trial: &Trial<'_>, places: &[usize]) -> Result<Option<Kept>, AllocError>
    requires trial { IsTrial trial.now }
    requires below { All (λ place. place < length trial.now.listing.supposed.now.list) places.now }
    requires ascend { AreAscending nat_cmp places.now }
    ensures { IfOk result (λ found. IfSome found (TrialKeeps trial.now)) }
{
    kept_with(trial, &[], places)
}

/// What is kept without the entries from one place on up to another, and without those that lack
/// support then, if the plan is valid with the others. It isn't where one of those entries has a
/// wanted output, which needs no trial.
pub(crate) fn without(
    trial: &Trial<'_>,
    kept: &Kept,
    from: usize,
    to: usize,
) -> Result<Option<Kept>, AllocError>
    requires trial { IsTrial trial.now }
    requires kept { TrialKeeps trial.now kept.now }
    requires from { from < to }
    requires to { to ≤ length kept.now.places.items }
    ensures kept { IfOk result (λ found. IfSome found (TrialKeeps trial.now)) }
    ensures fewer { IfOk result (λ found. IfSome found
        (λ fewer. length fewer.places.items < length kept.now.places.items)) }
    ensures needed { IfOk result (λ found. IfNone found
        (TrialNeeds trial.now kept.now.places.items from to)) }
{
    let places = kept.places.as_slice();
    if trial.wants_some(&places[from..to]) {
        return Ok(None);
    }
    kept_with(trial, &places[..from], &places[to..])
}
