//! What outcomes claim, besides plans.
ghost use Rattle.std.specs.Prelude.{◌≡◌, ◌↔◌, ℕ, List, IfOk, IsTrue};
ghost use Rattle.replay_check.specs.Claims.{IsJudged, claim_of};
ghost use Rattle.learning.specs.Knowledge.{IsKnowledge};
ghost use Rattle.replay_check.specs.Standings.{AreBounds, limits_by};
ghost use Rattle.task_model.specs.Streams.{NothingIsDue};
ghost use Rattle.transcript_model.specs.Legal.{HasNoneOpen};
ghost use Rattle.transcript_model.specs.Transcript.{known_of, notes_of};
ghost use Rattle.transcript_model.specs.declared.entry.Entry.{Entry as AnyEntry};
ghost use Rattle.transcript_model.specs.declared.head.Mode.TheVariants.{Incremental};
ghost use Rattle.transcript_model.specs.declared.outcome.LimitKind.TheVariants.{Calls, Instances, States};
ghost use Rattle.transcript_model.specs.declared.outcome.Outcome.TheVariants as outcome;

use crate::bounds::Bounds;
use best_first::{exceeds, is_solvable_within};
use learning::{Knowledge, dues_of};
use std::alloc::AllocError;
use transcript_model::Mode;

/// What is said of a claim.
#[derive(Clone, Copy, PartialEq, Eq)]
pub enum Claim {
    /// It is true.
    True,
    /// It is false.
    False,
    /// It can't be decided.
    Open,
}

/// A claim that is true or false.
fn decided(is_true: bool) -> Claim
    ensures { result ≡ claim_of is_true }
{
    if is_true { Claim::True } else { Claim::False }
}

/// Whether nothing is due.
fn is_nothing_due(bounds: &Bounds<'_>, knowledge: &Knowledge) -> Result<bool, AllocError>
    requires bounds { AreBounds bounds.now }
    ensures { (entries : List AnyEntry)
        → IsKnowledge bounds.now.version bounds.now.task.now entries knowledge.now
        → IfOk result (λ yes. IsTrue yes ↔ NothingIsDue bounds.now.task.now
        (known_of bounds.now.task.now entries) (notes_of bounds.now.task.now entries)) }
{
    match dues_of(bounds.task, knowledge)? {
        Some(dues) => Ok(dues.as_slice().is_empty()),
        None => Ok(false),
    }
}

/// That there is no plan, and nothing is due.
pub(crate) fn judge_no_plan(bounds: &Bounds<'_>, knowledge: &Knowledge) -> Result<Claim, AllocError>
    requires bounds { AreBounds bounds.now }
    ensures { (entries : List AnyEntry)
        → IsKnowledge bounds.now.version bounds.now.task.now entries knowledge.now → HasNoneOpen entries
        → IfOk result (IsJudged (limits_by bounds.now) bounds.now.limit bounds.now.task.now entries
        outcome.NoPlan) }
{
    if !is_nothing_due(bounds, knowledge)? {
        return Ok(Claim::False);
    }
    match is_solvable_within(bounds.alloc, bounds.task, &knowledge.facts, bounds.limit)? {
        None => Ok(Claim::Open),
        Some(solvable) => Ok(decided(!solvable)),
    }
}

/// That all calls are made and answered, and an instance is still due.
pub(crate) fn judge_calls(bounds: &Bounds<'_>, knowledge: &Knowledge) -> Result<Claim, AllocError>
    requires bounds { AreBounds bounds.now }
    ensures { (limit : ℕ) (entries : List AnyEntry)
        → IsKnowledge bounds.now.version bounds.now.task.now entries knowledge.now
        → IfOk result (IsJudged (limits_by bounds.now) limit bounds.now.task.now entries
        (outcome.Limit Calls)) }
{
    if knowledge.asked.len() != bounds.calls as usize
        || !knowledge.unanswered.as_slice().is_empty()
    {
        return Ok(Claim::False);
    }
    let Some(dues) = dues_of(bounds.task, knowledge)? else {
        return Ok(Claim::True);
    };
    Ok(decided(!dues.as_slice().is_empty()))
}

/// Whether it may be claimed that too many states are reached, as far as what is due goes: in
/// incremental mode that doesn't matter, and in the others nothing may be due.
fn may_be_past_states(bounds: &Bounds<'_>, knowledge: &Knowledge) -> Result<bool, AllocError>
    requires bounds { AreBounds bounds.now }
    ensures { (entries : List AnyEntry)
        → IsKnowledge bounds.now.version bounds.now.task.now entries knowledge.now
        → IfOk result (λ yes. IsTrue yes ↔ (¬ (bounds.now.mode ≡ Incremental)
        → NothingIsDue bounds.now.task.now (known_of bounds.now.task.now entries)
        (notes_of bounds.now.task.now entries))) }
{
    if bounds.mode == Mode::Incremental {
        return Ok(true);
    }
    is_nothing_due(bounds, knowledge)
}

/// That more states are reached than the report's limit allows, and, outside incremental mode, that
/// nothing is due.
pub(crate) fn judge_states(bounds: &Bounds<'_>, knowledge: &Knowledge) -> Result<Claim, AllocError>
    requires bounds { AreBounds bounds.now }
    ensures { (entries : List AnyEntry)
        → IsKnowledge bounds.now.version bounds.now.task.now entries knowledge.now → HasNoneOpen entries
        → IfOk result (IsJudged (limits_by bounds.now) bounds.now.limit bounds.now.task.now entries
        (outcome.Limit States)) }
{
    if !may_be_past_states(bounds, knowledge)? {
        return Ok(Claim::False);
    }
    if bounds.limit >= bounds.states {
        let more = exceeds(bounds.alloc, bounds.task, &knowledge.facts, bounds.states)?;
        return Ok(decided(more));
    }
    if exceeds(bounds.alloc, bounds.task, &knowledge.facts, bounds.limit)? {
        return Ok(Claim::Open);
    }
    Ok(Claim::False)
}

/// That more than 1,000,000 instances are due.
pub(crate) fn judge_instances(
    bounds: &Bounds<'_>,
    knowledge: &Knowledge,
) -> Result<Claim, AllocError>
    requires bounds { AreBounds bounds.now }
    ensures { (limit : ℕ) (entries : List AnyEntry)
        → IsKnowledge bounds.now.version bounds.now.task.now entries knowledge.now
        → IfOk result (IsJudged (limits_by bounds.now) limit bounds.now.task.now entries
        (outcome.Limit Instances)) }
{
    let Some(dues) = dues_of(bounds.task, knowledge)? else {
        return Ok(Claim::True);
    };
    drop(dues);
    Ok(Claim::False)
}
