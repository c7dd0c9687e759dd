//! Truth, steps and plans over what is known.
ghost use Rattle.task_model.specs.Fit.{IsFit};

use crate::fault::Fault;
use crate::print::{Names, push_atoms, push_step};
use crate::words::{numbers_of, step_of};
use fact_store::Facts;
use formula_eval::{Env, holds};
use formula_memo::{Memo, holds_memo, holds_once};
use grounder::{Candidates, StepFinder, applicable};
use plan_check::{apply, check, initial};
use plan_deorder::{Order, deorder, keeps};
use std::alloc::{AllocError, Global};
use std::fmt::Write;
use task_model::{GroundAction, Plan, Seq, State, Task};
use test_rows::number;

/// Whether the goal is true in the state, as every judge says. Where two of them differ, this
/// fails.
fn is_true_in(alloc: Global, task: &Task, facts: &Facts, state: &State) -> Result<bool, Fault>
    requires { IsFit task.now }
{
    let goal = &task.problem.goal;
    let mut env = Env::new(&[]);
    let mut memo = Memo::new(alloc)?;
    let remembered = holds_memo(task, facts, state, &mut memo, goal, &mut env)?;
    memo.clear();
    let anew = holds_memo(task, facts, state, &mut memo, goal, &mut env)?;
    let plain = holds(task, facts, state, goal, &mut env);
    if remembered == plain
        && anew == plain
        && holds_once(task, facts, state, goal, &mut env) == plain
    {
        Ok(plain)
    } else {
        Err(Fault::Unfit)
    }
}

/// Adds whether the goal is true at first.
pub(crate) fn add_goal(
    alloc: Global,
    task: &Task,
    facts: &Facts,
    out: &mut String,
) -> Result<(), Fault>
    requires { IsFit task.now }
{
    let state = Box::new(alloc, initial(alloc, task)?)?;
    let goal = is_true_in(alloc, task, facts, &state)?;
    Ok(write!(out, "{goal}\n")?)
}

/// The plan of these lines, a step each.
fn plan_of(alloc: Global, lines: &[u8]) -> Result<Box<Plan>, AllocError> {
    let mut steps = Vec::new(alloc);
    for line in lines.split(|byte| *byte == b'\n') {
        if !line.is_empty() {
            steps.push(Box::into_inner(step_of(alloc, line)?))?;
        }
    }
    let steps = Seq::from_vec(steps);
    Ok(Box::new(alloc, Plan { steps })?)
}

/// Adds what the plan of these lines costs, or its first fault. It has at most nine steps.
pub(crate) fn add_checked(
    alloc: Global,
    task: &Task,
    facts: &Facts,
    lines: &[u8],
    out: &mut String,
) -> Result<(), Fault>
    requires { IsFit task.now }
{
    let plan = plan_of(alloc, lines)?;
    if plan.steps.len() > 9 {
        return Err(Fault::Unfit);
    }
    match check(alloc, task, facts, &plan) {
        Ok(cost) => Ok(write!(out, "cost {cost}\n")?),
        Err(fault) => Ok(write!(out, "{fault:?}\n")?),
    }
}

/// The order of the plan of these lines, which has at most nine steps. Where the plan has a fault,
/// that is added, and there is none.
fn order_of(
    alloc: Global,
    task: &Task,
    facts: &Facts,
    lines: &[u8],
    out: &mut String,
) -> Result<Option<Order>, Fault>
    requires { IsFit task.now }
{
    let boxed = plan_of(alloc, lines)?;
    let plan: &Plan = &boxed;
    if plan.steps.len() > 9 {
        return Err(Fault::Unfit);
    }
    match check(alloc, task, facts, plan) {
        Ok(_) => match deorder(alloc, task, facts, plan) {
            Ok(order) => Ok(Some(order)),
            Err(_) => Err(Fault::Unfit),
        },
        Err(fault) => {
            write!(out, "{fault:?}\n")?;
            Ok(None)
        }
    }
}

/// Adds the pairs of steps that must stay in order, and then the stage of each step.
fn push_order(order: &Order, out: &mut String) -> Result<(), Fault> {
    for (first, second) in order.pairs.as_slice() {
        write!(out, "{first} before {second}\n")?;
    }
    write!(out, "stages")?;
    for stage in order.stages.as_slice() {
        write!(out, " {stage}")?;
    }
    Ok(out.push('\n')?)
}

/// Adds the order of the plan of these lines, or the plan's first fault. It has at most nine steps.
pub(crate) fn add_order(
    alloc: Global,
    task: &Task,
    facts: &Facts,
    lines: &[u8],
    out: &mut String,
) -> Result<(), Fault>
    requires { IsFit task.now }
{
    match order_of(alloc, task, facts, lines, out)? {
        Some(order) => push_order(&order, out),
        None => Ok(()),
    }
}

/// Adds whether each of the listings, which commas part, keeps the order.
fn push_kept(alloc: Global, order: &Order, listings: &[u8], out: &mut String) -> Result<(), Fault> {
    for line in listings.split(|byte| *byte == b',') {
        let listing = numbers_of(alloc, line)?;
        let kept = keeps(alloc, order, listing.as_slice())?;
        write!(out, "{kept}\n")?;
    }
    Ok(())
}

/// Adds whether each of the listings, which commas part, keeps the order of the plan of these
/// lines; or the plan's first fault. It has at most nine steps.
pub(crate) fn add_kept_orders(
    alloc: Global,
    task: &Task,
    facts: &Facts,
    listings: &[u8],
    lines: &[u8],
    out: &mut String,
) -> Result<(), Fault>
    requires { IsFit task.now }
{
    match order_of(alloc, task, facts, lines, out)? {
        Some(order) => push_kept(alloc, &order, listings, out),
        None => Ok(()),
    }
}

/// Adds what the step of a line costs at first, and the atoms behind it; or why it can't be taken.
pub(crate) fn add_applied(
    alloc: Global,
    task: &Task,
    facts: &Facts,
    line: &[u8],
    out: &mut String,
) -> Result<(), Fault>
    requires { IsFit task.now }
{
    let state = Box::new(alloc, initial(alloc, task)?)?;
    let step = step_of(alloc, line)?;
    match apply(task, facts, &state, &step) {
        Ok(applied) => {
            let applied = Box::new(alloc, applied)?;
            let cost = applied.cost;
            write!(out, "cost {cost}\n")?;
            Ok(push_atoms(out, applied.state.as_slice())?)
        }
        Err(fault) => Ok(write!(out, "{fault:?}\n")?),
    }
}

/// The steps that can be taken in the state, by candidates of which at most so many are kept.
fn kept_applicable(
    alloc: Global,
    task: &Task,
    facts: &Facts,
    state: &State,
    most: u32,
) -> Result<Vec<GroundAction>, AllocError>
    requires { IsFit task.now }
{
    let finder = Box::new(alloc, StepFinder::new(alloc, task, facts, most as usize)?)?;
    finder.applicable(alloc, task, facts, state)
}

/// The steps that can be taken at first: by candidates of which at most so many are kept as the
/// line says, if it says so.
fn first_steps(
    alloc: Global,
    task: &Task,
    facts: &Facts,
    line: &[u8],
) -> Result<Vec<GroundAction>, AllocError>
    requires { IsFit task.now }
{
    let state = Box::new(alloc, initial(alloc, task)?)?;
    if line.is_empty() {
        applicable(alloc, task, facts, &state)
    } else {
        kept_applicable(alloc, task, facts, &state, number(line))
    }
}

/// Adds steps, a line each.
pub(crate) fn push_steps(
    out: &mut String,
    task: &Task,
    facts: &Facts,
    steps: &[GroundAction],
) -> Result<(), AllocError> {
    let names = Names::of_facts(facts);
    for step in steps {
        push_step(out, task, names, step)?;
    }
    Ok(())
}

/// Adds the steps that can be taken at first, or how many there are.
pub(crate) fn add_applicable(
    alloc: Global,
    task: &Task,
    facts: &Facts,
    line: &[u8],
    counts: bool,
    out: &mut String,
) -> Result<(), Fault>
    requires { IsFit task.now }
{
    let steps = first_steps(alloc, task, facts, line)?;
    if counts {
        let count = steps.len();
        return Ok(write!(out, "{count} steps\n")?);
    }
    Ok(push_steps(out, task, facts, steps.as_slice())?)
}

/// Adds how many candidates of each action are kept where so many may be, a line each.
pub(crate) fn add_kept(
    alloc: Global,
    task: &Task,
    facts: &Facts,
    most: u32,
    out: &mut String,
) -> Result<(), Fault>
    requires { IsFit task.now }
{
    let candidates = Box::new(alloc, Candidates::new(alloc, task, facts, most as usize)?)?;
    for rows in candidates.actions.as_slice() {
        match rows {
            Some(rows) => {
                let count = rows.len();
                write!(out, "{count}\n")?;
            }
            None => out.push_str("none\n")?,
        }
    }
    Ok(())
}
