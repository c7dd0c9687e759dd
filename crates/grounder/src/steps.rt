//! The steps of one action.
ghost use Rattle.std.specs.Prelude.{◌≡◌, ◌≤◌, OnOk, IfOk, length, true, Some, slice_get};
ghost use Rattle.task_model.specs.Fit.{IsFit, is_fit_action};
ghost use Rattle.formula_memo.specs.Remembered.{StandsFor};
ghost use Rattle.task_model.specs.Truth.{slots_of};
ghost use Rattle.grounder.specs.Asks.{AreMet};
ghost use Rattle.grounder.specs.Parts.{tops_of};
ghost use Rattle.grounder.specs.Candidates.{can_go_on};
ghost use Rattle.grounder.specs.Listing.{AddsSteps, AreArguments};
ghost use Rattle.task_model.specs.declared.limits.TheConstants.{SLOTS};

use crate::asks::Ask;
use crate::atoms::{static_atoms, tops};
use fact_join::{Partial, Query, Wanted, join};
use formula_eval::Env;
use formula_memo::{Memo, holds_once, holds_with};
use plan_check::step_cost;
use std::alloc::{AllocError, Global};
use task_model::{Action, GroundAction, Look, Obj, State, Task, Wide};

/// Where steps are looked for: one action in one state.
#[derive(Drop)]
pub(crate) struct Scene<'a, L: Look> {
    pub(crate) task: &'a Task,
    pub(crate) look: &'a L,
    pub(crate) state: &'a State,
    pub(crate) number: u32,
    pub(crate) action: &'a Action,
}

impl<'a, L: Look> Wanted for Scene<'a, L> {
    ghost use Rattle.std.specs.Prelude.{◌≡◌, ◌≤◌, length, true};
    ghost use Rattle.task_model.specs.Fit.{IsFit, is_fit_action};
    ghost use Rattle.grounder.specs.Listing.{can_take};
    ghost use Rattle.task_model.specs.declared.limits.TheConstants.{SLOTS};

    ghost can_judge = { λ scene args. IsFit scene.task.now
        × (is_fit_action scene.task.now.domain scene.action.now ≡ true)
        × (length args ≤ SLOTS) };

    ghost wants = { λ scene args. can_take scene.task.now (L.known scene.look.now) scene.state.now
        scene.action.now args };

    /// Whether the action can be taken with these objects: its condition is true, and its cost has
    /// a value.
    fn wants(&self, args: &[Obj]) -> bool {
        let mut env = Env::new(args);
        holds_once(
            self.task,
            self.look,
            self.state,
            &self.action.condition,
            &mut env,
        ) && step_cost(self.task, self.look, self.state, self.action, args).is_some()
    }
}

impl<'a, L: Look> Scene<'a, L> {
    /// Whether the action can be taken with these objects, for which all that its condition asks is so
    /// but what is to be judged: that is true too, and the cost has a value.
    pub(crate) fn can_go(&self, memo: &mut Memo, args: &[Obj], asks: &[Ask]) -> bool
        requires fit { IsFit self.now.task.now }
        requires action { is_fit_action self.now.task.now.domain self.now.action.now ≡ true }
        requires few { length args.now ≤ SLOTS }
        requires met { AreMet self.now.task.now.domain (L.known self.now.look.now) self.now.state.now
            (slots_of args.now) (tops_of self.now.action.now.condition) asks.now }
        requires stands { StandsFor self.now.task.now.domain (L.known self.now.look.now)
            self.now.state.now memo.old }
        ensures value { result ≡ can_go_on self.now.task.now (L.known self.now.look.now)
            self.now.state.now self.now.action.now args.now }
        ensures stands { StandsFor self.now.task.now.domain (L.known self.now.look.now)
            self.now.state.now memo.new }
    {
        let mut env = Env::new(args);
        for (place, part) in tops(&self.action.condition).iter().enumerate() {
            if asks[place].is_judged()
                && !holds_with(self.task, self.look, self.state, memo, part, &mut env)
            {
                return false;
            }
        }
        step_cost(self.task, self.look, self.state, self.action, args).is_some()
    }
}

/// The arguments with which the action can be taken, in their order. Fails only where memory is
/// wanting.
fn arguments<L: Look>(alloc: Global, scene: &Scene<'_, L>) -> Result<Vec<Wide>, AllocError>
    requires fit { IsFit scene.now.task.now }
    requires action { is_fit_action scene.now.task.now.domain scene.now.action.now ≡ true }
    ensures { IfOk result (λ rows. AreArguments scene.now.task.now (L.known scene.now.look.now)
        scene.now.state.now scene.now.action.now rows.items) }
{
    let atoms = static_atoms(alloc, &scene.task.domain, &scene.action.condition)?;
    let query = Query {
        look: scene.look,
        sorts: scene.action.params.as_slice(),
        wanted: scene,
        most: usize::MAX,
        alloc,
    };
    let mut rows = Vec::new(alloc);
    if join(&query, &Partial::new(), atoms.as_slice(), &mut rows).is_err() {
        return Err(AllocError);
    }
    rows.sort_unstable();
    Ok(rows)
}

/// Puts the steps of the action that can be taken behind the others. Fails only where memory is
/// wanting.
pub(crate) fn add_steps<L: Look>(
    alloc: Global,
    scene: &Scene<'_, L>,
    steps: &mut Vec<GroundAction>,
) -> Result<(), AllocError>
    requires fit { IsFit scene.now.task.now }
    requires named { slice_get scene.now.task.now.domain.actions scene.now.number
        ≡ Some scene.now.action.now }
    ensures { OnOk result (AddsSteps scene.now.task.now (L.known scene.now.look.now)
        scene.now.state.now scene.now.number steps.old.items steps.new.items) }
{
    let rows = arguments(alloc, scene)?;
    for args in rows.as_slice() {
        steps.push(GroundAction {
            action: scene.number,
            args: args.copy()?,
        })?;
    }
    Ok(())
}
