//! All states that are reached, those first that an estimate puts near the goal.
ghost use Rattle.std.specs.Prelude.{◌≡◌, ◌∷◌, [], ◌≤◌, IfOk, OnOk, Some, slice_get};
ghost use Rattle.std.specs.BinaryHeap.{heap_items};
ghost use Rattle.grounder.specs.Applicable.{IsApplicable, AreApplicable};
ghost use Rattle.grounder.specs.Finder.{FindsSteps};
ghost use Rattle.task_model.specs.Fit.{IsFit};
ghost use Rattle.task_model.specs.declared.limits.TheConstants.{MOST_STATES};
ghost use Rattle.best_first.specs.Explored.{LeadsToState};
ghost use Rattle.best_first.specs.Frontiers.{IsFrontier, IsWidened, Spreads, in_heap};
ghost use Rattle.best_first.specs.Outcome.{BeginsAt, ComesWithin, explored_as};

use crate::estimate::Estimate;
use crate::expand::{Scene, Turn, grow};
use crate::explore::{End, Explored};
use crate::tree::Tree;
use grounder::StepFinder;
use plan_check::meets_goal;
use std::alloc::{AllocError, Global};
use std::cmp::Reverse;
use std::collections::BinaryHeap;
use task_model::{GroundAction, Look, State, Task};

/// A state that is open: it was reached, and a step from it wasn't taken yet. The least rank goes
/// first, and of equal ones the oldest.
#[derive(Clone, Copy, PartialEq, Eq, PartialOrd, Ord, Debug)]
struct Open {
    /// What it costs to come to the state, and the estimate from there.
    rank: u64,
    /// The state's place.
    place: u32,
    /// What it costs to come to the state, by its links.
    cost: u64,
    /// Whether the steps that the estimate wants early were taken.
    later: bool,
}

/// Which steps from the state that is expanded are taken in this turn.
#[derive(Drop)]
struct Choice {
    /// The place of the state that was estimated last.
    judged: u32,
    /// Of each of the steps, whether it is taken.
    taken: Vec<bool>,
    /// The place behind the last one that is.
    end: usize,
}

/// The states that were reached, and those of them that are open.
#[derive(Drop)]
struct Frontier {
    tree: Tree,
    queue: BinaryHeap<Reverse<Open>>,
    choice: Choice,
}

impl Frontier {
    /// The initial state alone, which isn't open yet. Fails only where memory is wanting.
    fn new(alloc: Global, task: &Task) -> Result<Frontier, AllocError>
        requires { IsFit task.now }
        ensures begins { IfOk result (λ frontier. BeginsAt task.now frontier.tree) }
        ensures none { IfOk result (λ frontier. heap_items frontier.queue ≡ []) }
    {
        let tree = Tree::new(alloc, task)?;
        Ok(Frontier {
            tree,
            queue: BinaryHeap::new(alloc),
            choice: Choice {
                judged: 0,
                taken: Vec::new(alloc),
                end: 0,
            },
        })
    }
}

impl Choice {
    /// Chooses from the steps of a state that was taken out: all of them, or those that the estimate
    /// wants early. Fails only where memory is wanting.
    fn choose<L: Look, E: Estimate>(
        &mut self,
        scene: &Scene<'_, L>,
        finder: &StepFinder,
        estimate: &mut E,
        from: Open,
        state: &State,
        steps: &[GroundAction],
    ) -> Result<(), AllocError>
        requires { IsFit scene.now.task.now }
    {
        let is_asked = !from.later && estimate.delay() > 0;
        if is_asked && self.judged != from.place {
            estimate.estimate(scene.task, scene.look, state);
            self.judged = from.place;
        }
        self.taken.clear();
        self.end = 0;
        for step in steps {
            let is_taken = !is_asked || estimate.wants(finder.candidates(), step);
            self.taken.push(is_taken)?;
            if is_taken {
                self.end = self.taken.len();
            }
        }
        Ok(())
    }
}

/// Whether more states are there than so many links, an open state goes before this one, and a step
/// behind the one at this place is still to be taken in this turn.
fn is_overtaken(frontier: &Frontier, from: Open, links: usize, index: usize) -> bool {
    frontier.tree.links.len() > links
        && index.saturating_add(1) < frontier.choice.end
        && frontier
            .queue
            .peek()
            .is_some_and(|first| first.0.rank < from.rank)
}

/// How it goes on after the state at this place was added, by a step from the one that is expanded:
/// it is open, unless it ends the search.
fn widen<L: Look, E: Estimate>(
    scene: &Scene<'_, L>,
    estimate: &mut E,
    frontier: &mut Frontier,
    from: Open,
    place: u32,
    cost: u64,
) -> Result<Turn, AllocError>
    requires fit { IsFit scene.now.task.now }
    requires widened { IsWidened scene.now.task.now (L.known scene.now.look.now) scene.now.limit
        frontier.old.tree.store frontier.old.tree.links.items
        (in_heap from ∷ heap_items frontier.old.queue) place cost }
    ensures spreads { IfOk result (Spreads scene.now.task.now (L.known scene.now.look.now)
        scene.now.limit frontier.new.tree.store frontier.new.tree.links.items
        (in_heap from ∷ heap_items frontier.new.queue)) }
    ensures same { frontier.new.tree.store ≡ frontier.old.tree.store }
{
    let state = frontier.tree.store.get(place)?;
    if meets_goal(scene.task, scene.look, &state) {
        return Ok(Turn::Goal);
    }
    if place >= scene.limit {
        return Ok(Turn::More);
    }
    let cost = from.cost.saturating_add(cost);
    let rank = cost.saturating_add(estimate.estimate(scene.task, scene.look, &state));
    frontier.choice.judged = place;
    let later = false;
    frontier.queue.push(Reverse(Open {
        rank,
        place,
        cost,
        later,
    }))?;
    Ok(Turn::On)
}

/// Takes a step from the state that is expanded, and adds the state to which it leads, if that is
/// new.
fn visit<L: Look, E: Estimate>(
    scene: &Scene<'_, L>,
    estimate: &mut E,
    frontier: &mut Frontier,
    from: Open,
    state: &State,
    step: &GroundAction,
) -> Result<Turn, AllocError>
    requires fit { IsFit scene.now.task.now }
    requires limit { scene.now.limit ≤ MOST_STATES }
    requires frontier { IsFrontier scene.now.task.now (L.known scene.now.look.now) scene.now.limit
        frontier.old.tree.store frontier.old.tree.links.items
        (in_heap from ∷ heap_items frontier.old.queue) }
    requires here { slice_get frontier.old.tree.store from.place ≡ Some state.now }
    requires can { IsApplicable scene.now.task.now (L.known scene.now.look.now) state.now step.now }
    ensures spreads { IfOk result (Spreads scene.now.task.now (L.known scene.now.look.now)
        scene.now.limit frontier.new.tree.store frontier.new.tree.links.items
        (in_heap from ∷ heap_items frontier.new.queue)) }
    ensures leads { OnOk result (LeadsToState scene.now.task.now (L.known scene.now.look.now)
        frontier.old.tree.store state.now step.now frontier.new.tree.store) }
{
    match grow(scene, &mut frontier.tree, from.place, state, step)? {
        Some((place, cost)) => widen(scene, estimate, frontier, from, place, cost),
        None => Ok(Turn::On),
    }
}

/// Takes those of the steps from the state that is expanded which are taken in this turn, as long as
/// nothing ends it and no new state goes before this one, which is open still then. They are all
/// that can be taken. Where others are left, they are taken later.
fn visit_some<L: Look, E: Estimate>(
    scene: &Scene<'_, L>,
    estimate: &mut E,
    frontier: &mut Frontier,
    from: Open,
    state: &State,
    steps: &[GroundAction],
) -> Result<Turn, AllocError>
    requires fit { IsFit scene.now.task.now }
    requires limit { scene.now.limit ≤ MOST_STATES }
    requires frontier { IsFrontier scene.now.task.now (L.known scene.now.look.now) scene.now.limit
        frontier.old.tree.store frontier.old.tree.links.items
        (in_heap from ∷ heap_items frontier.old.queue) }
    requires here { slice_get frontier.old.tree.store from.place ≡ Some state.now }
    requires steps { AreApplicable scene.now.task.now (L.known scene.now.look.now) state.now
        steps.now }
    ensures { IfOk result (Spreads scene.now.task.now (L.known scene.now.look.now)
        scene.now.limit frontier.new.tree.store frontier.new.tree.links.items
        (heap_items frontier.new.queue)) }
{
    let links = frontier.tree.links.len();
    let mut all = true;
    for (index, step) in steps.iter().enumerate() {
        if frontier.choice.taken.get(index).copied() == Some(false) {
            all = false;
            continue;
        }
        match visit(scene, estimate, frontier, from, state, step)? {
            Turn::On => {}
            Turn::Goal => return Ok(Turn::Goal),
            Turn::More => return Ok(Turn::More),
        }
        if is_overtaken(frontier, from, links, index) {
            frontier.queue.push(Reverse(from))?;
            return Ok(Turn::On);
        }
    }
    if all {
        return Ok(Turn::On);
    }
    let rank = from.rank.saturating_add(estimate.delay());
    let (place, cost, later) = (from.place, from.cost, true);
    frontier.queue.push(Reverse(Open {
        rank,
        place,
        cost,
        later,
    }))?;
    Ok(Turn::On)
}

/// Takes steps from an open state, which was taken out, and adds the states to which they lead, as
/// long as nothing ends it. Fails only where memory is wanting.
fn expand<L: Look, E: Estimate>(
    alloc: Global,
    scene: &Scene<'_, L>,
    finder: &StepFinder,
    estimate: &mut E,
    frontier: &mut Frontier,
    from: Open,
) -> Result<Turn, AllocError>
    requires fit { IsFit scene.now.task.now }
    requires limit { scene.now.limit ≤ MOST_STATES }
    requires frontier { IsFrontier scene.now.task.now (L.known scene.now.look.now) scene.now.limit
        frontier.old.tree.store frontier.old.tree.links.items
        (in_heap from ∷ heap_items frontier.old.queue) }
    requires finds { FindsSteps scene.now.task.now (L.known scene.now.look.now) finder.now }
    ensures { IfOk result (Spreads scene.now.task.now (L.known scene.now.look.now)
        scene.now.limit frontier.new.tree.store frontier.new.tree.links.items
        (heap_items frontier.new.queue)) }
{
    let state = frontier.tree.store.get(from.place)?;
    let steps = finder.applicable(alloc, scene.task, scene.look, &state)?;
    let steps = steps.as_slice();
    let choice = &mut frontier.choice;
    choice.choose(scene, finder, estimate, from, &state, steps)?;
    visit_some(scene, estimate, frontier, from, &state, steps)
}

/// Goes through the states that are reached, the one with the least sum of the cost so far and the
/// estimate first, until one meets the goal, or there are more than the limit allows, or all were
/// seen. Fails only where memory is wanting.
///
/// Each turn closes a state, leaves it for later, or adds one, so there are at most three a state.
pub(crate) fn explore_best<L: Look, E: Estimate>(
    alloc: Global,
    scene: &Scene<'_, L>,
    finder: &StepFinder,
    estimate: &mut E,
) -> Result<Explored, AllocError>
    requires fit { IsFit scene.now.task.now }
    requires some { 1 ≤ scene.now.limit }
    requires limit { scene.now.limit ≤ MOST_STATES }
    requires finds { FindsSteps scene.now.task.now (L.known scene.now.look.now) finder.now }
    ensures { IfOk result (ComesWithin scene.now.task.now (L.known scene.now.look.now)
        scene.now.limit) }
{
    let mut frontier = Frontier::new(alloc, scene.task)?;
    match explore_from(alloc, scene, finder, estimate, &mut frontier) {
        Ok(End::Goal) => Ok(Explored::Goal(frontier.tree)),
        Ok(End::All) => Ok(Explored::All),
        Ok(End::More) => Ok(Explored::More),
        Err(error) => Err(error),
    }
}

/// The same from the initial state alone.
fn explore_from<L: Look, E: Estimate>(
    alloc: Global,
    scene: &Scene<'_, L>,
    finder: &StepFinder,
    estimate: &mut E,
    frontier: &mut Frontier,
) -> Result<End, AllocError>
    requires fit { IsFit scene.now.task.now }
    requires some { 1 ≤ scene.now.limit }
    requires limit { scene.now.limit ≤ MOST_STATES }
    requires finds { FindsSteps scene.now.task.now (L.known scene.now.look.now) finder.now }
    requires begins { BeginsAt scene.now.task.now frontier.old.tree }
    requires none { heap_items frontier.old.queue ≡ [] }
    ensures { IfOk result (λ end. ComesWithin scene.now.task.now (L.known scene.now.look.now)
        scene.now.limit (explored_as frontier.new.tree end)) }
{
    let state = frontier.tree.store.get(0)?;
    if meets_goal(scene.task, scene.look, &state) {
        return Ok(End::Goal);
    }
    let rank = estimate.estimate(scene.task, scene.look, &state);
    frontier.queue.push(Reverse(Open {
        rank,
        place: 0,
        cost: 0,
        later: false,
    }))?;
    'turns: for _ in 0..4 * scene.limit + 4 {
        let Some(Reverse(from)) = frontier.queue.pop() else {
            return Ok(End::All);
        };
        match expand(alloc, scene, finder, estimate, frontier, from)? {
            Turn::On => {}
            Turn::Goal => return Ok(End::Goal),
            Turn::More => return Ok(End::More),
        }
    }
    Ok(End::More)
}
