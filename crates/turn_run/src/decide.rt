//! What a turn does: it ends the run, or asks a level.
ghost use Rattle.std.specs.Prelude.{IfOk, MatchOption};
ghost use Rattle.turn_run.specs.Deciding.{FindsIn, IsDecidedIn, IsNeededIn, IsPastIn};
ghost use Rattle.turn_run.specs.Deciding.{MayDecideAt, MayDecideIn, MayEndIn, NothingIsDueIn};
ghost use Rattle.turn_run.specs.Deciding.{SeeksPlan, known_in};
ghost use Rattle.turn_run.specs.Turns.{IsDecidedAt};
ghost use Rattle.task_model.specs.Plans.{IsSolvable};

use crate::plans::known_plan;
use crate::search::PlanSearch;
use crate::situation::{Situation, situation_on};
use best_first::{Found, exceeds};
use instance_queue::{Due, QueueFault};
use round_run::Desk;
use std::alloc::AllocError;
use transcript_model::{LimitKind, Mode, Outcome};

/// What is to be done next.
#[derive(Drop)]
pub enum Decision {
    /// The run ends with this outcome.
    Ends(Outcome),
    /// These instances are asked.
    Asks(Vec<Due>),
}

/// What is to be done next: a plan, a limit or that there is no plan ends the run; else what is due
/// is asked. Fails only where memory is wanting.
pub(crate) fn decide<S: PlanSearch>(desk: &Desk<'_>, mode: &S) -> Result<Decision, AllocError>
    requires may { MayDecideAt desk.now }
    requires seeks { SeeksPlan S.cheapest desk.now.head }
    ensures { IfOk result (IsDecidedAt desk.now) }
{
    choose(&situation_on(desk), mode)
}

/// The same of what lies on the desk.
fn choose<S: PlanSearch>(situation: &Situation<'_>, mode: &S) -> Result<Decision, AllocError>
    requires may { MayDecideIn situation.now }
    requires seeks { SeeksPlan S.cheapest situation.now.head.now }
    ensures { IfOk result (IsDecidedIn situation.now) }
{
    match mode.find(situation)? {
        Some(found) => decide_found(situation, found),
        None => decide_hopeless(situation),
    }
}

/// What is to be done where a search came to this.
fn decide_found(situation: &Situation<'_>, found: Found) -> Result<Decision, AllocError>
    requires may { MayDecideIn situation.now }
    requires seeks { SeeksPlan situation.now.head.now.optimal situation.now.head.now }
    requires finds { FindsIn situation.now.head.now.optimal situation.now found }
    ensures { IfOk result (IsDecidedIn situation.now) }
{
    match found {
        Found::Plan(plan, cost) => {
            let shown = known_plan(situation, &plan, cost)?;
            Ok(Decision::Ends(shown))
        }
        Found::Limit => decide_far(situation),
        Found::Nothing => decide_dues(situation, Outcome::NoPlan),
    }
}

/// What is to be done where the goal is out of reach: only where nothing is due it counts how many
/// states are reached.
fn decide_hopeless(situation: &Situation<'_>) -> Result<Decision, AllocError>
    requires may { MayDecideIn situation.now }
    requires none { ¬ (IsSolvable situation.now.task.now (known_in situation.now)) }
    ensures { IfOk result (IsDecidedIn situation.now) }
{
    match decide_asks(situation)? {
        Some(decision) => Ok(decision),
        None => Ok(Decision::Ends(end_of_hopeless(situation)?)),
    }
}

/// What a run ends with where the goal is out of reach and nothing is due.
fn end_of_hopeless(situation: &Situation<'_>) -> Result<Outcome, AllocError>
    requires may { MayDecideIn situation.now }
    requires none { ¬ (IsSolvable situation.now.task.now (known_in situation.now)) }
    requires settled { NothingIsDueIn situation.now }
    ensures { IfOk result (MayEndIn situation.now) }
{
    let facts = situation.session.facts();
    if exceeds(
        situation.alloc,
        situation.task,
        facts,
        situation.head.states,
    )? {
        Ok(Outcome::Limit(LimitKind::States))
    } else {
        Ok(Outcome::NoPlan)
    }
}

/// What is to be done where the search was past the limit of states: in incremental mode the run
/// ends.
fn decide_far(situation: &Situation<'_>) -> Result<Decision, AllocError>
    requires may { MayDecideIn situation.now }
    requires seeks { SeeksPlan situation.now.head.now.optimal situation.now.head.now }
    requires past { IsPastIn situation.now }
    ensures { IfOk result (IsDecidedIn situation.now) }
{
    let states = Outcome::Limit(LimitKind::States);
    match situation.head.mode {
        Mode::Incremental => Ok(Decision::Ends(states)),
        Mode::Focused | Mode::Binding | Mode::Adaptive => decide_dues(situation, states),
    }
}

/// What is to be done where a turn is needed: the run ends with `last` where nothing is due.
fn decide_dues(situation: &Situation<'_>, last: Outcome) -> Result<Decision, AllocError>
    requires may { MayDecideIn situation.now }
    requires needed { IsNeededIn situation.now }
    requires last { NothingIsDueIn situation.now → MayEndIn situation.now last }
    ensures { IfOk result (IsDecidedIn situation.now) }
{
    match decide_asks(situation)? {
        Some(decision) => Ok(decision),
        None => Ok(Decision::Ends(last)),
    }
}

/// What is to be done where a turn is needed, or None where nothing is due.
fn decide_asks(situation: &Situation<'_>) -> Result<Option<Decision>, AllocError>
    requires may { MayDecideIn situation.now }
    requires needed { IsNeededIn situation.now }
    ensures { IfOk result (λ decision. MatchOption decision (NothingIsDueIn situation.now)
        (IsDecidedIn situation.now)) }
{
    let session = situation.session;
    let head = situation.head;
    let dues = match session.due(situation.task) {
        Ok(dues) => dues,
        Err(QueueFault::TooManyInstances) => {
            return Ok(Some(Decision::Ends(Outcome::Limit(LimitKind::Instances))));
        }
        Err(QueueFault::Memory) => return Err(AllocError),
    };
    if dues.as_slice().is_empty() {
        return Ok(None);
    }
    if session.asks() == head.calls {
        return Ok(Some(Decision::Ends(Outcome::Limit(LimitKind::Calls))));
    }
    Ok(Some(Decision::Asks(dues)))
}
