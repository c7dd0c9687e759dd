//! Dreams after a transcript.
ghost use Rattle.std.specs.Prelude.{◌≡◌, ◌≤◌, length, false, IfOk};
ghost use Rattle.task_model.specs.Plans.{IsValid};
ghost use Rattle.task_model.specs.declared.limits.TheConstants.{MOST_STATES};
ghost use Rattle.session_core.specs.Session.{IsSession, IsLearnt};
ghost use Rattle.transcript_model.specs.Rounds.{Limits};
ghost use Rattle.dreaming.specs.Answers.{IsDreamed, IsKnownPlan, HasFewDreamSteps, IsSureNone, IsThinDream, ComesOfList};
ghost use Rattle.dreaming.specs.Parts.{IsListed};
ghost use Rattle.dreaming.specs.Thinning.{IsTrial, TrialKeeps, IsThinOf};
ghost use Rattle.shown_plan.specs.Shown.{AreNamedSteps};

use crate::shown::{all_places, entries_of, uses_of};
use crate::taken::Listing;
use crate::thin::thin;
use crate::trial::{Kept, Trial, kept_of};
use crate::wanted::{Wanted, places_named};
use best_first::{Found, MOST_CANDIDATES, RelaxedPlan, out_of_reach, search};
use grounder::StepFinder;
use optimistic_set::{OptEntry, OptimisticFault, Supposed, Tried, optimistic};
use session_core::Session;
use shown_plan::name_steps;
use std::alloc::{AllocError, Global};
use task_model::{Plan, Seq, Task};
use transcript_model::{Call, DreamUse};

/// What is found over all that may be supposed.
#[derive(Drop)]
pub enum Dreamt {
    /// A plan with the entries that it needs. Where it needs none it is valid by what is known.
    Dream {
        /// The entries as they are shown, in the order of the list.
        uses: Seq<DreamUse>,
        /// The steps as they are shown.
        steps: Seq<Call>,
        /// The entries.
        entries: Vec<OptEntry>,
        /// The plan.
        plan: Plan,
        /// What it costs with these entries.
        cost: u64,
    },
    /// No plan rests on what may be supposed, or it isn't found within the states.
    Empty,
}

/// What is kept before any entry is left out: what has support of the entries that the plan's steps
/// name, if the plan is valid with them, else all entries, with which it costs so much.
fn kept_first(trial: &Trial<'_>, cost: u64) -> Result<Kept, AllocError>
    requires trial { IsTrial trial.now }
    requires valid { IsValid trial.now.listing.task.now trial.now.listing.supposed.now.known
        trial.now.plan.now.steps cost }
    ensures { IfOk result (TrialKeeps trial.now) }
{
    let listing = &trial.listing;
    let named = places_named(listing.alloc, listing.supposed, trial.wanted)?;
    match kept_of(trial, named.as_slice())? {
        Some(kept) => Ok(kept),
        None => {
            let places = all_places(listing.alloc, listing.supposed.len())?;
            Ok(Kept { places, cost })
        }
    }
}

/// The places of the entries that the plan needs, and what it costs with them.
fn needed(
    alloc: Global,
    task: &Task,
    supposed: &Supposed<'_>,
    plan: &Plan,
    cost: u64,
) -> Result<Kept, AllocError>
    requires listed { IsListed task.now supposed.now }
    requires few { length plan.now.steps ≤ MOST_STATES }
    requires valid { IsValid task.now supposed.now.known plan.now.steps cost }
    ensures { IfOk result (IsThinOf task.now supposed.now plan.now.steps) }
{
    let wanted = Wanted::of(alloc, supposed, plan)?;
    let listing = Listing {
        alloc,
        task,
        supposed,
    };
    let trial = Trial {
        listing,
        plan,
        wanted: &wanted,
    };
    let mut kept = kept_first(&trial, cost)?;
    thin(&trial, &mut kept)?;
    Ok(kept)
}

/// The plan with the entries that are kept for it.
fn shown(
    alloc: Global,
    task: &Task,
    supposed: &Supposed<'_>,
    plan: Plan,
    kept: &Kept,
) -> Result<Dreamt, AllocError>
    requires listed { IsListed task.now supposed.now }
    requires thin { IsThinOf task.now supposed.now plan.steps kept.now }
    requires steps { AreNamedSteps task.now supposed.now.known.names plan.steps }
    ensures { IfOk result (IsThinDream task.now supposed.now plan.steps) }
{
    let places = kept.places.as_slice();
    let steps = name_steps(alloc, task, &supposed.look(), plan.steps.as_slice())?;
    let uses = uses_of(alloc, task, supposed, places)?;
    let entries = entries_of(alloc, supposed, places)?;
    Ok(Dreamt::Dream {
        uses,
        steps,
        entries,
        plan,
        cost: kept.cost,
    })
}

/// The plan that was found over the list, with the entries that it needs.
fn thinned(
    alloc: Global,
    task: &Task,
    supposed: &Supposed<'_>,
    plan: Plan,
    cost: u64,
) -> Result<Dreamt, AllocError>
    requires listed { IsListed task.now supposed.now }
    requires few { length plan.steps ≤ MOST_STATES }
    requires valid { IsValid task.now supposed.now.known plan.steps cost }
    ensures { IfOk result (IsThinDream task.now supposed.now plan.steps) }
{
    let kept = needed(alloc, task, supposed, &plan, cost)?;
    shown(alloc, task, supposed, plan, &kept)
}

/// The dream over a list.
fn dream_over(
    alloc: Global,
    task: &Task,
    supposed: &Supposed<'_>,
    states: u32,
) -> Result<Dreamt, AllocError>
    requires listed { IsListed task.now supposed.now }
    requires some { 1 ≤ states }
    requires few { states ≤ MOST_STATES }
    ensures { IfOk result (ComesOfList task.now supposed.now states) }
{
    let look = supposed.look();
    let finder = Box::new(alloc, StepFinder::new(alloc, task, &look, MOST_CANDIDATES)?)?;
    let mut estimate = Box::new(alloc, RelaxedPlan::new(alloc, task, &look, &finder)?)?;
    if out_of_reach(alloc, task, &look, &*estimate)? {
        return Ok(Dreamt::Empty);
    }
    match search(alloc, task, &look, &finder, states, &mut *estimate)? {
        Found::Plan(plan, cost) => thinned(alloc, task, supposed, plan, cost),
        Found::Nothing => Ok(Dreamt::Empty),
        Found::Limit => Ok(Dreamt::Empty),
    }
}

/// Looks for a plan over all entries that may be supposed after the transcript, all of whose
/// answers are learnt, within `states` states, from 1 to 200,000, and leaves out entries one after
/// another, each with those that lose support, until none can be left out and the plan still be
/// valid (PDDLStream 2020; what is left out is this project's).
///
/// The plan has at most `states` steps. Where it needs no entry it is valid by what is known.
/// `Empty` comes only where more than 20,000 entries might be supposed, where no plan is valid over
/// them, and where more than `states` states are reached over them, and so many also within the
/// steps of any plan. Fails only where memory is wanting.
pub fn dream(
    alloc: Global,
    task: &Task,
    session: &Session,
    tried: &Tried,
    depth: u8,
    states: u32,
) -> Result<Dreamt, AllocError>
    requires session { IsSession task.now session.now }
    requires working { session.now.failed ≡ false }
    requires learnt { IsLearnt session.now }
    requires some { 1 ≤ states }
    requires states { states ≤ MOST_STATES }
    ensures dream { (limits : Limits) → limits.depth ≡ depth
        → IfOk result (IsDreamed limits task.now session.now.entries tried.now) }
    ensures known { IfOk result (IsKnownPlan task.now session.now.entries) }
    ensures few { IfOk result (HasFewDreamSteps states) }
    ensures empty { (limits : Limits) → limits.depth ≡ depth → limits.states ≡ states
        → IfOk result (IsSureNone limits task.now session.now.entries tried.now) }
{
    match optimistic(
        alloc,
        task,
        session.facts(),
        session.queue(),
        tried,
        u32::from(depth),
    ) {
        Ok(supposed) => dream_over(alloc, task, &supposed, states),
        Err(OptimisticFault::TooManyEntries) => Ok(Dreamt::Empty),
        Err(OptimisticFault::Memory) => Err(AllocError),
    }
}
