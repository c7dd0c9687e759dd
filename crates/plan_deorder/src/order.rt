//! The order that a plan's steps must keep, and its stages.
ghost use Rattle.std.specs.Prelude.{◌≡◌, ◌++◌, ◌+◌, ◌<◌, ◌≤◌, ℕ, IfOk, IfErr, OnOk, length};
ghost use Rattle.std.specs.List.{flat_map};
ghost use Rattle.lemmas.specs.Lists.{numbers_from};
ghost use Rattle.task_model.specs.Fit.{IsFit};
ghost use Rattle.task_model.specs.Plans.{IsValid};
ghost use Rattle.plan_deorder.specs.Clashes.{AreStepsNamed, AreTouched, pairs_from, stage_of, stages_of};
ghost use Rattle.plan_deorder.specs.Laws.{KeepsMeaning};
ghost use Rattle.plan_deorder.specs.Orders.{IsOrder};
ghost use Rattle.plan_deorder.specs.declared.order.OrderFault.TheVariants.{TooLong};
ghost use Rattle.plan_deorder.specs.declared.order.TheConstants.{MOST_STEPS};

use crate::conflict::conflict;
use crate::predicates::edges_of;
use crate::touched::{Touched, touched_by};
use std::alloc::{AllocError, Global};
use task_model::{GroundAction, Look, Plan, Seq, Task};
use thiserror::Error;

/// The most steps of a plan whose order is told.
pub const MOST_STEPS: usize = 2000;

/// The order that a plan's steps must keep. Steps are numbered from 1.
#[derive(Debug, Drop)]
pub struct Order {
    /// The pairs of steps of which the first must stay before the second, ascending.
    pub pairs: Seq<(u32, u32)>,
    /// The stage of each step, from 1: one more than the greatest stage of those that must stay
    /// before it.
    pub stages: Seq<u32>,
}

/// Why no order is told.
#[derive(Clone, Copy, Debug, PartialEq, Eq, Error)]
pub enum OrderFault {
    /// The plan has more steps than `MOST_STEPS`.
    #[error("the plan has more than 2,000 steps")]
    TooLong,
    /// Memory is wanting.
    #[error("not enough memory")]
    Memory,
}

/// What the steps write and read, one after another. Fails only where memory is wanting.
fn touched_by_each(
    alloc: Global,
    task: &Task,
    steps: &[GroundAction],
) -> Result<Vec<Touched>, AllocError>
    requires fit { IsFit task.now }
    requires named { AreStepsNamed task.now steps.now }
    ensures { IfOk result (λ touched. AreTouched task.now steps.now touched.items) }
{
    let edges = edges_of(alloc, &task.domain)?;
    let mut touched = Vec::with_capacity(alloc, steps.len())?;
    for step in steps {
        touched.push(touched_by(alloc, task, edges.as_slice(), step)?)?;
    }
    Ok(touched)
}

/// Puts the pairs of a step with later ones behind others.
fn put_row(touched: &[Touched], first: usize, pairs: &mut Vec<(u32, u32)>) -> Result<(), AllocError>
    requires few { length touched.now ≤ MOST_STEPS }
    requires within { first < length touched.now }
    ensures { OnOk result (pairs.new.items ≡ pairs.old.items ++ pairs_from touched.now first) }
{
    for second in first + 1..touched.len() {
        if conflict(&touched[first], &touched[second]) {
            pairs.push((first as u32 + 1, second as u32 + 1))?;
        }
    }
    Ok(())
}

/// The pairs of steps that conflict. Fails only where memory is wanting.
fn pairs_of(alloc: Global, touched: &[Touched]) -> Result<Vec<(u32, u32)>, AllocError>
    requires few { length touched.now ≤ MOST_STEPS }
    ensures { IfOk result (λ pairs. pairs.items
        ≡ flat_map (pairs_from touched.now) (numbers_from 0 (length touched.now))) }
{
    let mut pairs = Vec::new(alloc);
    for first in 0..touched.len() {
        put_row(touched, first, &mut pairs)?;
    }
    Ok(pairs)
}

/// The stage of a step, from those of the steps before it.
fn stage(touched: &[Touched], stages: &[u32], place: usize) -> u32
    requires few { length touched.now ≤ MOST_STEPS }
    requires within { place < length touched.now }
    requires stages { stages.now ≡ stages_of touched.now place }
    ensures { result ≡ stage_of touched.now stages.now place }
{
    let mut greatest = 0;
    for earlier in 0..place {
        if conflict(&touched[earlier], &touched[place]) {
            greatest = stages[earlier].max(greatest);
        }
    }
    greatest + 1
}

/// The stages of the steps. Fails only where memory is wanting.
fn all_stages(alloc: Global, touched: &[Touched]) -> Result<Vec<u32>, AllocError>
    requires few { length touched.now ≤ MOST_STEPS }
    ensures { IfOk result (λ stages. stages.items ≡ stages_of touched.now (length touched.now)) }
{
    let mut stages = Vec::with_capacity(alloc, touched.len())?;
    for place in 0..touched.len() {
        let next = stage(touched, stages.as_slice(), place);
        stages.push(next)?;
    }
    Ok(stages)
}

/// The order of steps that are given by what they write and read. Fails only where memory is
/// wanting.
fn order_of(alloc: Global, task: &Task, steps: &[GroundAction]) -> Result<Order, AllocError>
    requires fit { IsFit task.now }
    requires named { AreStepsNamed task.now steps.now }
    requires few { length steps.now ≤ MOST_STEPS }
    ensures { IfOk result (λ order. IsOrder task.now steps.now order.pairs order.stages) }
{
    let touched = touched_by_each(alloc, task, steps)?;
    let pairs = pairs_of(alloc, touched.as_slice())?;
    let stages = all_stages(alloc, touched.as_slice())?;
    Ok(Order {
        pairs: Seq::from_vec(pairs),
        stages: Seq::from_vec(stages),
    })
}

/// The order that a valid plan's steps must keep: the pairs of steps that conflict, since the one
/// adds what the other deletes, or writes what the other reads; and the stages that follow (this
/// project; PDDL 2.1 has a stricter rule for actions that are taken at once).
///
/// Each listing of the steps that keeps the order leads to the same state at the same cost. Fails
/// where the plan has more than 2,000 steps, and where memory is wanting.
pub fn deorder<L: Look>(
    alloc: Global,
    task: &Task,
    look: &L,
    plan: &Plan,
) -> Result<Order, OrderFault>
    requires fit { IsFit task.now }
    requires valid { (cost : ℕ) × IsValid task.now (L.known look.now) plan.now.steps cost }
    ensures order { IfOk result (λ order. IsOrder task.now plan.now.steps order.pairs order.stages) }
    ensures kept { IfOk result (λ order. KeepsMeaning task.now (L.known look.now) plan.now.steps
        order.pairs) }
    ensures short { IfOk result (λ _. length plan.now.steps ≤ MOST_STEPS) }
    ensures fault { IfErr result (λ why. why ≡ TooLong → MOST_STEPS < length plan.now.steps) }
{
    if plan.steps.len() > MOST_STEPS {
        return Err(OrderFault::TooLong);
    }
    match order_of(alloc, task, plan.steps.as_slice()) {
        Ok(order) => Ok(order),
        Err(AllocError) => Err(OrderFault::Memory),
    }
}
