//! What is out of reach.
ghost use Rattle.std.specs.Prelude.{◌≡◌, ◌≤◌, [], IfOk, IsTrue, length, true};
ghost use Rattle.std.specs.List.{list_all};
ghost use Rattle.formula_eval.specs.Readable.{is_readable};
ghost use Rattle.grounder.specs.Candidates.{AreCandidateRows};
ghost use Rattle.task_model.specs.Fit.{IsFit, is_fit_action};
ghost use Rattle.task_model.specs.Plans.{IsSolvable};
ghost use Rattle.task_model.specs.State.{contains};
ghost use Rattle.best_first.specs.Reach.{IsClosed, IsMissed, LeadsWithin, StaysWithin};
ghost use Rattle.best_first.specs.Steady.{has_steady_items};
ghost use Rattle.task_model.specs.declared.limits.TheConstants.{SLOTS};

use crate::explore::MOST_CANDIDATES;
use crate::relaxed_plan::RelaxedPlan;
use crate::steady::{is_steady, steady_predicates};
use formula_eval::Env;
use formula_memo::holds_once;
use grounder::{Candidates, fluent_atom, tops};
use plan_check::{changes_of, initial, step_cost};
use std::alloc::{AllocError, Global};
use task_model::{Action, Atom, Formula, Look, Obj, State, Task, Wide};

/// A task over what is known, and atoms out of which no step may lead.
#[derive(Drop)]
struct Bounds<'a, L: Look> {
    alloc: Global,
    task: &'a Task,
    look: &'a L,
    atoms: &'a State,
}

/// Whether some atom of a fluent at the top of the condition is not there, so that the condition is
/// false in each state within the atoms.
fn lacks_atom<L: Look>(bounds: &Bounds<'_, L>, condition: &Formula, objects: &[Obj]) -> bool
    requires fit { IsFit bounds.now.task.now }
    requires readable { is_readable bounds.now.task.now.domain condition.now ≡ true }
    requires few { length objects.now ≤ SLOTS }
    ensures { IsTrue result → IsMissed bounds.now.task.now.domain (L.known bounds.now.look.now)
        bounds.now.atoms.now condition.now objects.now }
{
    let env = Env::new(objects);
    for part in tops(condition) {
        if let Some(atom) = fluent_atom(bounds.alloc, &bounds.task.domain, part, &env) {
            if !bounds.atoms.has(&atom) {
                return true;
            }
        }
    }
    false
}

/// Whether all of these are in the state.
fn has_all(state: &State, atoms: &[Atom]) -> bool
    ensures { result ≡ list_all (λ atom. contains state.now atom) atoms.now }
{
    atoms.iter().all(|atom| state.has(atom))
}

/// Whether the action with these objects surely leads from no state within the atoms out of them.
/// Fails only where memory is wanting.
fn stays_within<L: Look>(
    bounds: &Bounds<'_, L>,
    action: &Action,
    objects: &[Obj],
) -> Result<bool, AllocError>
    requires fit { IsFit bounds.now.task.now }
    requires action { is_fit_action bounds.now.task.now.domain action.now ≡ true }
    requires few { length objects.now ≤ SLOTS }
    ensures { IfOk result (λ stays. IsTrue stays → StaysWithin bounds.now.task.now
        (L.known bounds.now.look.now) bounds.now.atoms.now action.now objects.now) }
{
    if lacks_atom(bounds, &action.condition, objects) {
        return Ok(true);
    }
    if step_cost(bounds.task, bounds.look, bounds.atoms, action, objects).is_none() {
        return Ok(true);
    }
    let changes = changes_of(bounds.alloc, action, objects)?;
    Ok(has_all(bounds.atoms, changes.come.as_slice()))
}

/// The same of all these rows of objects.
fn all_stay_within<L: Look>(
    bounds: &Bounds<'_, L>,
    action: &Action,
    rows: &[Wide],
) -> Result<bool, AllocError>
    requires fit { IsFit bounds.now.task.now }
    requires action { is_fit_action bounds.now.task.now.domain action.now ≡ true }
    requires rows { AreCandidateRows bounds.now.task.now.domain (L.known bounds.now.look.now)
        action.now rows.now }
    ensures { IfOk result (λ stay. IsTrue stay → LeadsWithin bounds.now.task.now
        (L.known bounds.now.look.now) bounds.now.atoms.now action.now) }
{
    for objects in rows {
        if !stays_within(bounds, action, objects.as_slice())? {
            return Ok(false);
        }
    }
    Ok(true)
}

/// Whether surely no step leads from a state within the atoms out of them, nor is the initial state
/// outside. Fails only where memory is wanting.
fn are_closed<L: Look>(bounds: &Bounds<'_, L>) -> Result<bool, AllocError>
    requires { IsFit bounds.now.task.now }
    ensures { IfOk result (λ closed. IsTrue closed → IsClosed bounds.now.task.now
        (L.known bounds.now.look.now) bounds.now.atoms.now) }
{
    let task = bounds.task;
    let state = initial(bounds.alloc, task)?;
    if !has_all(bounds.atoms, state.as_slice()) {
        return Ok(false);
    }
    let candidates = Candidates::new(bounds.alloc, task, bounds.look, MOST_CANDIDATES)?;
    for (number, action) in task.domain.actions.as_slice().iter().enumerate() {
        let Some(rows) = &candidates.actions.as_slice()[number] else {
            return Ok(false);
        };
        if !all_stay_within(bounds, action, rows.as_slice())? {
            return Ok(false);
        }
    }
    Ok(true)
}

/// Whether a steady part at the top of the goal is false in the atoms, so that the goal is false in
/// each state within them.
fn is_goal_missed<L: Look>(bounds: &Bounds<'_, L>, marks: &[bool]) -> bool
    requires fit { IsFit bounds.now.task.now }
    requires steady { has_steady_items bounds.now.task.now.domain marks.now ≡ true }
    ensures { IsTrue result → IsMissed bounds.now.task.now.domain (L.known bounds.now.look.now)
        bounds.now.atoms.now bounds.now.task.now.problem.goal [] }
{
    let domain = &bounds.task.domain;
    for part in tops(&bounds.task.problem.goal) {
        let mut env = Env::new(&[]);
        if is_steady(domain, marks, false, part)
            && !holds_once(bounds.task, bounds.look, bounds.atoms, part, &mut env)
        {
            return true;
        }
    }
    false
}

/// Whether the goal is surely out of reach: a part at its top, in which `not` stands over static
/// atoms alone, also in what derived atoms follow by, is false where all atoms of fluents are true
/// that are reached where deletes are ignored and of conditions the fluent atoms at the top count
/// alone. False says nothing: there may be no plan all the same. The estimate is that of this task.
/// Fails only where memory is wanting.
pub fn out_of_reach<L: Look>(
    alloc: Global,
    task: &Task,
    look: &L,
    estimate: &RelaxedPlan,
) -> Result<bool, AllocError>
    requires { IsFit task.now }
    ensures { IfOk result (λ out. IsTrue out → ¬ (IsSolvable task.now (L.known look.now))) }
{
    let Some(atoms) = estimate.reached(alloc)? else {
        return Ok(false);
    };
    let bounds = Bounds {
        alloc,
        task,
        look,
        atoms: &atoms,
    };
    let marks = steady_predicates(alloc, &task.domain)?;
    if !is_goal_missed(&bounds, marks.as_slice()) {
        return Ok(false);
    }
    are_closed(&bounds)
}
