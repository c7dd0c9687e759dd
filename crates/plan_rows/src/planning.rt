//! What is known and noted of a task, and what follows of it.
ghost use Rattle.task_model.specs.Fit.{IsFit};

use crate::cheapest::{add_cheapest, add_cheapest_steps};
use crate::fault::Fault;
use crate::plans::{
    add_applicable, add_applied, add_checked, add_goal, add_kept, add_kept_orders, add_order,
};
use crate::queue::tell_queue;
use crate::searches::{
    add_estimate, add_exceeds, add_found_steps, add_out_of_reach, add_outcome, add_search,
    add_wanted,
};
use crate::store::tell_store;
use fact_store::Facts;
use instance_queue::Queue;
use std::alloc::Global;
use task_model::Task;
use test_rows::{Part, number};

/// Answers what a part of a row asks of plans.
fn answer_part(
    alloc: Global,
    task: &Task,
    facts: &Facts,
    part: &Part,
    out: &mut String,
) -> Result<(), Fault>
    requires { IsFit task.now }
{
    let line = part.rest.as_slice();
    match part.key.as_str() {
        "domain" | "problem" | "streams" => Ok(()),
        "goal" => add_goal(alloc, task, facts, out),
        "check" => add_checked(alloc, task, facts, part.text.as_slice(), out),
        "order" => add_order(alloc, task, facts, part.text.as_slice(), out),
        "keeps" => add_kept_orders(alloc, task, facts, line, part.text.as_slice(), out),
        "apply" => add_applied(alloc, task, facts, line, out),
        "applicable" => add_applicable(alloc, task, facts, line, false, out),
        "applicable_count" => add_applicable(alloc, task, facts, line, true, out),
        "kept" => add_kept(alloc, task, facts, number(line), out),
        "search" => add_search(alloc, task, facts, line, out),
        "finds" => add_outcome(alloc, task, facts, line, out),
        "steps" => add_found_steps(alloc, task, facts, line, out),
        "cheapest" => add_cheapest(alloc, task, facts, line, out),
        "cheapest_steps" => add_cheapest_steps(alloc, task, facts, line, out),
        "exceeds" => add_exceeds(alloc, task, facts, number(line), out),
        "out_of_reach" => add_out_of_reach(alloc, task, facts, out),
        "estimate" => add_estimate(alloc, task, facts, line, out),
        "wanted" => add_wanted(alloc, task, facts, out),
        _ => Err(Fault::Unfit),
    }
}

/// Does and answers what one part of a row says.
fn tell_part(
    alloc: Global,
    task: &Task,
    facts: &mut Facts,
    queue: &mut Queue,
    part: &Part,
    out: &mut String,
) -> Result<(), Fault>
    requires { IsFit task.now }
{
    if tell_store(alloc, task, facts, part, out)? {
        return Ok(());
    }
    if tell_queue(alloc, task, facts, queue, part, out)? {
        return Ok(());
    }
    answer_part(alloc, task, facts, part, out)
}

/// Adds what comes of the parts of a row, one after another, over what is known of the task at
/// first.
pub(crate) fn tell_planning(
    alloc: Global,
    task: &Task,
    parts: &[Part],
    out: &mut String,
) -> Result<(), Fault>
    requires { IsFit task.now }
{
    let mut facts = Box::new(alloc, Facts::new(alloc, task)?)?;
    let mut queue = Box::new(alloc, Queue::new(alloc, task)?)?;
    for part in parts {
        tell_part(alloc, task, &mut facts, &mut queue, part, out)?;
    }
    Ok(())
}
