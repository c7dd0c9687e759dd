//! The states that were reached, and how.
ghost use Rattle.std.specs.Prelude.{◌≡◌, ◌∷◌, [], IfOk};
ghost use Rattle.task_model.specs.Fit.{IsFit};
ghost use Rattle.task_model.specs.Initial.{initial_state};

use plan_check::initial;
use state_store::StateStore;
use std::alloc::{AllocError, Global};
use task_model::{GroundAction, Task};

/// How a state was first reached: by a step from an earlier state.
#[derive(Drop)]
pub struct Link {
    /// The earlier state's place, from 0.
    pub parent: u32,
    /// The step.
    pub step: GroundAction,
    /// What the step costs.
    pub cost: u64,
}

/// The states that were reached, the initial one first, and a link for each of the others.
#[derive(Drop)]
pub(crate) struct Tree {
    pub(crate) store: StateStore,
    pub(crate) links: Vec<Link>,
}

impl Tree {
    /// The tree of the initial state alone. Fails only where memory is wanting.
    pub(crate) fn new(alloc: Global, task: &Task) -> Result<Tree, AllocError>
        requires { IsFit task.now }
        ensures states { IfOk result (λ tree. tree.store ≡ initial_state task.now ∷ []) }
        ensures links { IfOk result (λ tree. tree.links.items ≡ []) }
    {
        let mut store = StateStore::new(alloc)?;
        store.intern(initial(alloc, task)?)?;
        Ok(Tree {
            store,
            links: Vec::new(alloc),
        })
    }
}
