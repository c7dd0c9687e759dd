//! Searches by an estimate.
ghost use Rattle.std.specs.Prelude.{◌≤◌};
ghost use Rattle.task_model.specs.Fit.{IsFit};

use crate::fault::Fault;
use crate::plans::push_steps;
use best_first::{
    Additive, Blind, Estimate, Found, GoalCount, MOST_CANDIDATES, RelaxedPlan, exceeds,
    out_of_reach, search,
};
use fact_store::Facts;
use grounder::{StepFinder, applicable};
use optimal_search::{Fewest, Shares};
use plan_check::initial;
use std::alloc::{AllocError, Global};
use std::fmt::Write;
use task_model::Task;
use test_rows::{first_word, number};

/// What a search comes to by the estimate of this name, within so many states.
fn found_by(
    alloc: Global,
    task: &Task,
    facts: &Facts,
    name: &[u8],
    limit: u32,
) -> Result<Box<Found>, Fault>
    requires fit { IsFit task.now }
    requires some { 1 ≤ limit }
    requires few { limit ≤ 200000 }
{
    let finder = Box::new(alloc, StepFinder::new(alloc, task, facts, MOST_CANDIDATES)?)?;
    let found = match name {
        b"blind" => search(alloc, task, facts, &finder, limit, &mut Blind)?,
        b"goals" => search(alloc, task, facts, &finder, limit, &mut GoalCount)?,
        b"additive" => {
            let mut estimate = Box::new(alloc, Additive::new(alloc, task, facts)?)?;
            search(alloc, task, facts, &finder, limit, &mut *estimate)?
        }
        b"relaxed" => {
            let mut estimate = Box::new(alloc, RelaxedPlan::new(alloc, task, facts, &finder)?)?;
            search(alloc, task, facts, &finder, limit, &mut *estimate)?
        }
        _ => return Err(Fault::Unfit),
    };
    Ok(Box::new(alloc, found)?)
}

/// What a search comes to, as a line says: `ESTIMATE STATES`.
fn found_of(alloc: Global, task: &Task, facts: &Facts, line: &[u8]) -> Result<Box<Found>, Fault>
    requires { IsFit task.now }
{
    let (name, limit) = first_word(line);
    let limit = number(limit);
    if limit < 1 || limit > 200_000 {
        return Err(Fault::Unfit);
    }
    found_by(alloc, task, facts, name, limit)
}

/// Adds what a search comes to: how many steps the plan has and what it costs, that there is none,
/// or that the limit is met.
pub(crate) fn add_search(
    alloc: Global,
    task: &Task,
    facts: &Facts,
    line: &[u8],
    out: &mut String,
) -> Result<(), Fault>
    requires { IsFit task.now }
{
    let found = found_of(alloc, task, facts, line)?;
    Ok(push_found(out, &found)?)
}

/// Adds what a search came to: how many steps the plan has and what it costs, that there is none, or
/// that the limit is met.
pub(crate) fn push_found(out: &mut String, found: &Found) -> Result<(), AllocError> {
    match found {
        Found::Plan(plan, cost) => {
            let count = plan.steps.len();
            write!(out, "plan of {count} steps, cost {cost}\n")
        }
        Found::Nothing => out.push_str("nothing\n"),
        Found::Limit => out.push_str("limit\n"),
    }
}

/// Adds whether a search finds a plan, or that there is none, or meets its limit.
pub(crate) fn add_outcome(
    alloc: Global,
    task: &Task,
    facts: &Facts,
    line: &[u8],
    out: &mut String,
) -> Result<(), Fault>
    requires { IsFit task.now }
{
    let found = found_of(alloc, task, facts, line)?;
    let outcome = match &*found {
        Found::Plan(..) => "plan\n",
        Found::Nothing => "nothing\n",
        Found::Limit => "limit\n",
    };
    Ok(out.push_str(outcome)?)
}

/// Adds the steps of the plan that a search finds.
pub(crate) fn add_found_steps(
    alloc: Global,
    task: &Task,
    facts: &Facts,
    line: &[u8],
    out: &mut String,
) -> Result<(), Fault>
    requires { IsFit task.now }
{
    let found = found_of(alloc, task, facts, line)?;
    match &*found {
        Found::Plan(plan, _) => Ok(push_steps(out, task, facts, plan.steps.as_slice())?),
        Found::Nothing | Found::Limit => Err(Fault::Unfit),
    }
}

/// Adds whether more states are reached.
pub(crate) fn add_exceeds(
    alloc: Global,
    task: &Task,
    facts: &Facts,
    limit: u32,
    out: &mut String,
) -> Result<(), Fault>
    requires { IsFit task.now }
{
    if limit < 1 || limit > 200_000 {
        return Err(Fault::Unfit);
    }
    let more = exceeds(alloc, task, facts, limit)?;
    Ok(write!(out, "{more}\n")?)
}

/// Adds whether the goal is seen to be out of reach.
pub(crate) fn add_out_of_reach(
    alloc: Global,
    task: &Task,
    facts: &Facts,
    out: &mut String,
) -> Result<(), Fault>
    requires { IsFit task.now }
{
    let finder = Box::new(alloc, StepFinder::new(alloc, task, facts, MOST_CANDIDATES)?)?;
    let estimate = Box::new(alloc, RelaxedPlan::new(alloc, task, facts, &finder)?)?;
    let is_out = out_of_reach(alloc, task, facts, &*estimate)?;
    Ok(write!(out, "{is_out}\n")?)
}

/// What the estimate says of the initial state.
fn estimate_of<E: Estimate>(
    alloc: Global,
    task: &Task,
    facts: &Facts,
    estimate: &mut E,
) -> Result<u64, AllocError>
    requires { IsFit task.now }
{
    let state = Box::new(alloc, initial(alloc, task)?)?;
    Ok(estimate.estimate(task, facts, &state))
}

/// Adds what the estimate of this name says of the initial state.
pub(crate) fn add_estimate(
    alloc: Global,
    task: &Task,
    facts: &Facts,
    name: &[u8],
    out: &mut String,
) -> Result<(), Fault>
    requires { IsFit task.now }
{
    let value = match name {
        b"blind" => estimate_of(alloc, task, facts, &mut Blind)?,
        b"goals" => estimate_of(alloc, task, facts, &mut GoalCount)?,
        b"additive" => {
            let mut estimate = Box::new(alloc, Additive::new(alloc, task, facts)?)?;
            estimate_of(alloc, task, facts, &mut *estimate)?
        }
        b"relaxed" => {
            let finder = Box::new(alloc, StepFinder::new(alloc, task, facts, MOST_CANDIDATES)?)?;
            let mut estimate = Box::new(alloc, RelaxedPlan::new(alloc, task, facts, &finder)?)?;
            estimate_of(alloc, task, facts, &mut *estimate)?
        }
        b"fewest" => {
            let mut estimate = Box::new(alloc, Fewest::new(alloc, task)?)?;
            estimate_of(alloc, task, facts, &mut *estimate)?
        }
        b"shares" => {
            let mut estimate = Box::new(alloc, Shares::new(alloc, task, facts)?)?;
            estimate_of(alloc, task, facts, &mut *estimate)?
        }
        _ => return Err(Fault::Unfit),
    };
    Ok(write!(out, "{value}\n")?)
}

/// Adds the steps of the initial state that the estimate by relaxed plans wants early.
pub(crate) fn add_wanted(
    alloc: Global,
    task: &Task,
    facts: &Facts,
    out: &mut String,
) -> Result<(), Fault>
    requires { IsFit task.now }
{
    let finder = Box::new(alloc, StepFinder::new(alloc, task, facts, MOST_CANDIDATES)?)?;
    let mut estimate = Box::new(alloc, RelaxedPlan::new(alloc, task, facts, &finder)?)?;
    estimate_of(alloc, task, facts, &mut *estimate)?;
    let state = Box::new(alloc, initial(alloc, task)?)?;
    let mut wanted = Vec::new(alloc);
    for step in applicable(alloc, task, facts, &state)? {
        if estimate.wants(finder.candidates(), &step) {
            wanted.push(step)?;
        }
    }
    Ok(push_steps(out, task, facts, wanted.as_slice())?)
}
