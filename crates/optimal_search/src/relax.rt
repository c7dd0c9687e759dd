//! The steps from a closed state.
ghost use Rattle.std.specs.Prelude.{◌≡◌, ◌+◌, ◌<◌, ◌≤◌, IfOk, Some, length, slice_get, vec_len};
ghost use Rattle.grounder.specs.Applicable.{IsApplicable};
ghost use Rattle.task_model.specs.Fit.{IsFit};
ghost use Rattle.task_model.specs.State.{Atoms};
ghost use Rattle.task_model.specs.declared.limits.TheConstants.{MOST_STATES};
ghost use Rattle.optimal_search.specs.Consistent.{StaysSuited};
ghost use Rattle.optimal_search.specs.Searches.{Arrives, IsExpanding, Relaxes};

use crate::agenda::Node;
use crate::consistent::{Consistent, bound_of};
use crate::search::Search;
use best_first::{Link, take_step};
use state_store::StateStore;
use std::alloc::AllocError;
use task_model::{GroundAction, Look, State, Task};

/// What is searched: a task and what is known of it, up to a number of states.
#[derive(Drop)]
pub(crate) struct Scene<'a, L: Look> {
    pub(crate) task: &'a Task,
    pub(crate) look: &'a L,
    pub(crate) limit: u32,
}

/// A closed state and the steps that can be taken there.
#[derive(Drop)]
pub(crate) struct Expansion {
    /// Its number in the order of closing, from 0.
    pub(crate) number: u32,
    /// Its place in the store.
    pub(crate) place: u32,
    /// What the cheapest way to it costs.
    pub(crate) cost: u64,
    /// The state.
    pub(crate) state: State,
    /// The steps.
    pub(crate) steps: Vec<GroundAction>,
}

impl Expansion {
    /// The link by this step, which costs so much. Fails only where memory is wanting.
    fn link(&self, step: &GroundAction, cost: u64) -> Result<Link, AllocError>
        ensures { IfOk result (λ link. link
            ≡ record { parent = self.now.number; step = step.now; cost = cost }) }
    {
        let step = step.copy()?;
        Ok(Link {
            parent: self.number,
            step,
            cost,
        })
    }
}

/// Where a step leads.
#[derive(Clone, Copy, PartialEq, Eq, Debug)]
pub(crate) struct Arrival {
    /// The state's place in the store.
    place: u32,
    /// Whether the state wasn't stored before.
    is_new: bool,
    /// What the step costs.
    cost: u64,
}

/// Takes a step from the state, and stores the state to which it leads. Fails only where memory is
/// wanting.
fn arrive<L: Look>(
    scene: &Scene<'_, L>,
    store: &mut StateStore,
    from: &Expansion,
    step: &GroundAction,
) -> Result<Arrival, AllocError>
    requires fit { IsFit scene.now.task.now }
    requires few { length store.old ≤ MOST_STATES }
    requires here { slice_get store.old from.now.place ≡ Some from.now.state }
    requires can { IsApplicable scene.now.task.now (L.known scene.now.look.now) from.now.state
        step.now }
    ensures { IfOk result (Arrives scene.now.task.now (L.known scene.now.look.now) store.old
        from.now.state step.now store.new) }
{
    let taken = take_step(scene.task, scene.look, &from.state, step)?;
    let gone = taken.changes.gone.as_slice();
    let come = taken.changes.come.as_slice();
    let (place, is_new) = store.intern_after(from.place, gone, come)?;
    Ok(Arrival {
        place,
        is_new,
        cost: taken.cost,
    })
}

/// What the estimate answers for the state at this place. Fails only where memory is wanting.
fn left_at<L: Look, C: Consistent>(
    scene: &Scene<'_, L>,
    estimate: &mut C,
    store: &StateStore,
    place: u32,
) -> Result<u64, AllocError>
    requires fit { IsFit scene.now.task.now }
    requires there { place < length store.now }
    ensures is { IfOk result (λ left. (s : Atoms) → slice_get store.now place ≡ Some s
        → left ≡ C.bound estimate.old s) }
    ensures same { (s : Atoms) → C.bound estimate.new s ≡ C.bound estimate.old s }
    ensures suits { StaysSuited C.suits estimate.old estimate.new }
{
    let state = store.get(place)?;
    Ok(bound_of(estimate, scene.task, scene.look, &state))
}

/// Takes one of the steps from the state that was closed last: the state to which it leads becomes
/// open, or its way gets cheaper. False where more states are stored than the limit allows. Fails
/// only where memory is wanting.
fn relax<L: Look, C: Consistent>(
    scene: &Scene<'_, L>,
    estimate: &mut C,
    search: &mut Search,
    from: &Expansion,
    index: usize,
) -> Result<bool, AllocError>
    requires fit { IsFit scene.now.task.now }
    requires there { index < vec_len from.now.steps }
    requires expanding { IsExpanding scene.now.task.now (L.known scene.now.look.now)
        (C.bound estimate.old) scene.now.limit search.old from.now index }
    ensures goes { IfOk result (Relaxes scene.now.task.now (L.known scene.now.look.now)
        (C.bound estimate.new) scene.now.limit search.new from.now (index + 1)) }
    ensures links { search.new.links.items ≡ search.old.links.items }
    ensures suits { StaysSuited C.suits estimate.old estimate.new }
{
    let step = &from.steps[index];
    let arrival = arrive(scene, &mut search.store, from, step)?;
    let cost = from.cost + arrival.cost;
    if !arrival.is_new {
        let link = from.link(step, arrival.cost)?;
        search.agenda.lower(arrival.place, cost, link)?;
        return Ok(true);
    }
    if arrival.place >= scene.limit {
        return Ok(false);
    }
    let left = left_at(scene, estimate, &search.store, arrival.place)?;
    let last = Some(from.link(step, arrival.cost)?);
    search.agenda.add(Node { cost, left, last })?;
    Ok(true)
}

/// Takes all steps from the state that was closed last. False where more states are stored than the
/// limit allows. Fails only where memory is wanting.
pub(crate) fn relax_all<L: Look, C: Consistent>(
    scene: &Scene<'_, L>,
    estimate: &mut C,
    search: &mut Search,
    from: &Expansion,
) -> Result<bool, AllocError>
    requires fit { IsFit scene.now.task.now }
    requires expanding { IsExpanding scene.now.task.now (L.known scene.now.look.now)
        (C.bound estimate.old) scene.now.limit search.old from.now 0 }
    ensures goes { IfOk result (Relaxes scene.now.task.now (L.known scene.now.look.now)
        (C.bound estimate.new) scene.now.limit search.new from.now (vec_len from.now.steps)) }
    ensures links { search.new.links.items ≡ search.old.links.items }
    ensures suits { StaysSuited C.suits estimate.old estimate.new }
{
    for index in 0..from.steps.len() {
        if !relax(scene, estimate, search, from, index)? {
            return Ok(false);
        }
    }
    Ok(true)
}
