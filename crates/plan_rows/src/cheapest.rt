//! Searches for a cheapest plan.
ghost use Rattle.std.specs.Prelude.{◌≤◌};
ghost use Rattle.task_model.specs.Fit.{IsFit};

use crate::fault::Fault;
use crate::plans::push_steps;
use crate::searches::push_found;
use best_first::{Blind, Found};
use fact_store::Facts;
use optimal_search::{Fewest, Shares, cheapest};
use std::alloc::Global;
use task_model::Task;
use test_rows::{first_word, number};

/// What the search comes to by the estimate of this name, within so many states.
fn cheapest_by(
    alloc: Global,
    task: &Task,
    facts: &Facts,
    name: &[u8],
    limit: u32,
) -> Result<Box<Found>, Fault>
    requires fit { IsFit task.now }
    requires some { 1 ≤ limit }
    requires few { limit ≤ 200000 }
{
    let found = match name {
        b"blind" => cheapest(alloc, task, facts, limit, &mut Blind)?,
        b"fewest" => {
            let mut estimate = Fewest::new(alloc, task)?;
            cheapest(alloc, task, facts, limit, &mut estimate)?
        }
        b"shares" => {
            let mut estimate = Shares::new(alloc, task, facts)?;
            cheapest(alloc, task, facts, limit, &mut estimate)?
        }
        _ => return Err(Fault::Unfit),
    };
    Ok(Box::new(alloc, found)?)
}

/// What the search comes to, as a line says: `ESTIMATE STATES`.
fn cheapest_of(alloc: Global, task: &Task, facts: &Facts, line: &[u8]) -> Result<Box<Found>, Fault>
    requires { IsFit task.now }
{
    let (name, limit) = first_word(line);
    let limit = number(limit);
    if limit < 1 || limit > 200_000 {
        return Err(Fault::Unfit);
    }
    cheapest_by(alloc, task, facts, name, limit)
}

/// Adds what the search comes to: how many steps the plan has and what it costs, that there is none,
/// or that the limit is met.
pub(crate) fn add_cheapest(
    alloc: Global,
    task: &Task,
    facts: &Facts,
    line: &[u8],
    out: &mut String,
) -> Result<(), Fault>
    requires { IsFit task.now }
{
    let found = cheapest_of(alloc, task, facts, line)?;
    Ok(push_found(out, &found)?)
}

/// Adds the steps of the plan that the search finds.
pub(crate) fn add_cheapest_steps(
    alloc: Global,
    task: &Task,
    facts: &Facts,
    line: &[u8],
    out: &mut String,
) -> Result<(), Fault>
    requires { IsFit task.now }
{
    let found = cheapest_of(alloc, task, facts, line)?;
    match &*found {
        Found::Plan(plan, _) => Ok(push_steps(out, task, facts, plan.steps.as_slice())?),
        Found::Nothing | Found::Limit => Err(Fault::Unfit),
    }
}
