//! One state's successors.
ghost use Rattle.std.specs.Prelude.{◌≡◌, ◌+◌, ◌<◌, ◌≤◌, ◌↔◌, length, IsTrue, IfOk, OnOk, Some, slice_get};
ghost use Rattle.grounder.specs.Applicable.{IsApplicable, AreApplicable};
ghost use Rattle.grounder.specs.Finder.{FindsSteps};
ghost use Rattle.task_model.specs.Fit.{IsFit};
ghost use Rattle.task_model.specs.State.{Atoms, with_atoms, without_atoms};
ghost use Rattle.task_model.specs.Steps.{IsStep};
ghost use Rattle.task_model.specs.declared.limits.TheConstants.{MOST_STATES};
ghost use Rattle.best_first.specs.Explored.{ExploringEnds, GrowsByStep, IsExplored, IsGrown, LeadsToState, Comes};

use crate::tree::{Link, Tree};
use grounder::StepFinder;
use plan_check::{Changes, changes_of, meets_goal, step_cost};
use state_store::StateStore;
use std::alloc::{AllocError, Global};
use task_model::{GroundAction, Look, State, Task};

/// What is explored: a task, up to a number of states, and whether a state that meets the goal ends
/// it.
#[derive(Drop)]
pub(crate) struct Scene<'a, L: Look> {
    pub(crate) task: &'a Task,
    pub(crate) look: &'a L,
    pub(crate) limit: u32,
    pub(crate) seeks_goal: bool,
}

/// How it goes on.
#[derive(Clone, Copy, PartialEq, Eq, Debug)]
pub(crate) enum Turn {
    /// Nothing ends it so far.
    On,
    /// The last state meets the goal.
    Goal,
    /// More states are reached than the limit allows.
    More,
}

/// Whether the state at this place ends the search.
pub(crate) fn ends<L: Look>(
    scene: &Scene<'_, L>,
    store: &StateStore,
    id: u32,
) -> Result<bool, AllocError>
    requires fit { IsFit scene.now.task.now }
    requires there { id < length store.now }
    ensures { IfOk result (λ ends. (s : Atoms) → slice_get store.now id ≡ Some s → IsTrue ends
        ↔ ExploringEnds scene.now.task.now (L.known scene.now.look.now) scene.now.seeks_goal s) }
{
    Ok(scene.seeks_goal && meets_goal(scene.task, scene.look, &store.get(id)?))
}

/// What a step that can be taken does to a state, and what it costs.
#[derive(Drop)]
pub struct Taken {
    /// The atoms that go and come.
    pub changes: Changes,
    /// What the step costs.
    pub cost: u64,
}

/// What a step does that can be taken in the state. Fails only where memory is wanting.
pub fn take_step<L: Look>(
    task: &Task,
    look: &L,
    state: &State,
    step: &GroundAction,
) -> Result<Taken, AllocError>
    requires fit { IsFit task.now }
    requires can { IsApplicable task.now (L.known look.now) state.now step.now }
    ensures step { IfOk result (λ taken. IsStep task.now (L.known look.now) state.now step.now
        (with_atoms (without_atoms state.now taken.changes.gone.items) taken.changes.come.items)
        taken.cost) }
    ensures small { IfOk result (λ taken. taken.cost ≤ 262144000000) }
{
    let action = &task.domain.actions.as_slice()[step.action as usize];
    let args = step.args.as_slice();
    let Some(cost) = step_cost(task, look, state, action, args) else {
        unreachable!()
    };
    let changes = changes_of(state.allocator(), action, args)?;
    Ok(Taken { changes, cost })
}

/// Takes a step from the state at `from`, and adds the state to which it leads, if that is new: its
/// place and what the step costs are answered then. Fails only where memory is wanting.
pub(crate) fn grow<L: Look>(
    scene: &Scene<'_, L>,
    tree: &mut Tree,
    from: u32,
    state: &State,
    step: &GroundAction,
) -> Result<Option<(u32, u64)>, AllocError>
    requires fit { IsFit scene.now.task.now }
    requires few { length tree.old.store ≤ MOST_STATES }
    requires here { slice_get tree.old.store from ≡ Some state.now }
    requires can { IsApplicable scene.now.task.now (L.known scene.now.look.now) state.now step.now }
    ensures { IfOk result (GrowsByStep scene.now.task.now (L.known scene.now.look.now) tree.old.store
        tree.old.links.items from state.now step.now tree.new.store tree.new.links.items) }
{
    let taken = take_step(scene.task, scene.look, state, step)?;
    let gone = taken.changes.gone.as_slice();
    let come = taken.changes.come.as_slice();
    let (id, fresh) = tree.store.intern_after(from, gone, come)?;
    if !fresh {
        return Ok(None);
    }
    let step = step.copy()?;
    tree.links.push(Link {
        parent: from,
        step,
        cost: taken.cost,
    })?;
    Ok(Some((id, taken.cost)))
}

/// How it goes on after the last state was added.
fn settle<L: Look>(
    scene: &Scene<'_, L>,
    tree: &Tree,
    from: u32,
    id: u32,
) -> Result<Turn, AllocError>
    requires fit { IsFit scene.now.task.now }
    requires grown { IsGrown scene.now.task.now (L.known scene.now.look.now) scene.now.seeks_goal
        scene.now.limit tree.now.store tree.now.links.items from id }
    ensures { IfOk result (Comes scene.now.task.now (L.known scene.now.look.now)
        scene.now.seeks_goal scene.now.limit tree.now.store tree.now.links.items from) }
{
    if ends(scene, &tree.store, id)? {
        return Ok(Turn::Goal);
    }
    if id < scene.limit {
        Ok(Turn::On)
    } else {
        Ok(Turn::More)
    }
}

/// Takes a step from the state at `from`, and adds the state to which it leads, if that is new.
fn visit<L: Look>(
    scene: &Scene<'_, L>,
    tree: &mut Tree,
    from: u32,
    state: &State,
    step: &GroundAction,
) -> Result<Turn, AllocError>
    requires fit { IsFit scene.now.task.now }
    requires limit { scene.now.limit ≤ MOST_STATES }
    requires explored { IsExplored scene.now.task.now (L.known scene.now.look.now)
        scene.now.seeks_goal scene.now.limit tree.old.store tree.old.links.items from }
    requires here { slice_get tree.old.store from ≡ Some state.now }
    requires can { IsApplicable scene.now.task.now (L.known scene.now.look.now) state.now step.now }
    ensures comes { IfOk result (Comes scene.now.task.now (L.known scene.now.look.now)
        scene.now.seeks_goal scene.now.limit tree.new.store tree.new.links.items from) }
    ensures leads { OnOk result (LeadsToState scene.now.task.now (L.known scene.now.look.now)
        tree.old.store state.now step.now tree.new.store) }
{
    match grow(scene, tree, from, state, step)? {
        Some((id, _)) => settle(scene, tree, from, id),
        None => Ok(Turn::On),
    }
}

/// Takes all the steps from the state at `from`, as long as nothing ends it. They are all that can
/// be taken.
fn visit_all<L: Look>(
    scene: &Scene<'_, L>,
    tree: &mut Tree,
    from: u32,
    state: &State,
    steps: &[GroundAction],
) -> Result<Turn, AllocError>
    requires fit { IsFit scene.now.task.now }
    requires limit { scene.now.limit ≤ MOST_STATES }
    requires explored { IsExplored scene.now.task.now (L.known scene.now.look.now)
        scene.now.seeks_goal scene.now.limit tree.old.store tree.old.links.items from }
    requires here { slice_get tree.old.store from ≡ Some state.now }
    requires steps { AreApplicable scene.now.task.now (L.known scene.now.look.now) state.now
        steps.now }
    ensures { IfOk result (Comes scene.now.task.now (L.known scene.now.look.now)
        scene.now.seeks_goal scene.now.limit tree.new.store tree.new.links.items (from + 1)) }
{
    for step in steps {
        match visit(scene, tree, from, state, step)? {
            Turn::On => {}
            Turn::Goal => return Ok(Turn::Goal),
            Turn::More => return Ok(Turn::More),
        }
    }
    Ok(Turn::On)
}

/// Takes all steps from the state at `from`, and adds the states to which they lead, as long as
/// nothing ends it. Fails only where memory is wanting.
pub(crate) fn expand<L: Look>(
    alloc: Global,
    scene: &Scene<'_, L>,
    finder: &StepFinder,
    tree: &mut Tree,
    from: u32,
) -> Result<Turn, AllocError>
    requires fit { IsFit scene.now.task.now }
    requires limit { scene.now.limit ≤ MOST_STATES }
    requires explored { IsExplored scene.now.task.now (L.known scene.now.look.now)
        scene.now.seeks_goal scene.now.limit tree.old.store tree.old.links.items from }
    requires there { from < length tree.old.store }
    requires finds { FindsSteps scene.now.task.now (L.known scene.now.look.now) finder.now }
    ensures { IfOk result (Comes scene.now.task.now (L.known scene.now.look.now)
        scene.now.seeks_goal scene.now.limit tree.new.store tree.new.links.items (from + 1)) }
{
    let state = tree.store.get(from)?;
    let steps = finder.applicable(alloc, scene.task, scene.look, &state)?;
    visit_all(scene, tree, from, &state, steps.as_slice())
}
