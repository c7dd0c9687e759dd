//! What a step writes and reads.
ghost use Rattle.std.specs.Prelude.{◌≡◌, IfOk, length, map};
ghost use Rattle.lemmas.specs.Lists.{numbers_from};
ghost use Rattle.task_model.specs.Fit.{IsFit};
ghost use Rattle.plan_deorder.specs.Occurring.{below_in};
ghost use Rattle.plan_deorder.specs.Clashes.{IsNamedStep, IsTouchedBy};

use crate::reads::{put_reads, whole_reads};
use formula_eval::Env;
use plan_check::pattern_atoms;
use std::alloc::{AllocError, Global};
use task_model::{GroundAction, Seq, State, Task};

/// What a step writes and reads.
#[derive(Drop)]
pub(crate) struct Touched {
    /// The atoms that it adds.
    pub(crate) adds: State,
    /// The atoms that it deletes.
    pub(crate) deletes: State,
    /// The fluents' atoms that it reads one by one.
    pub(crate) reads: State,
    /// The fluents all of whose atoms it reads.
    pub(crate) whole: Seq<u32>,
}

/// What the step writes and reads. `edges` has what stands in the bodies of each predicate's items.
/// Fails only where memory is wanting.
pub(crate) fn touched_by(
    alloc: Global,
    task: &Task,
    edges: &[Seq<u32>],
    step: &GroundAction,
) -> Result<Touched, AllocError>
    requires fit { IsFit task.now }
    requires edges { edges.now ≡ map (below_in task.now.domain.derived)
        (numbers_from 0 (length task.now.domain.predicates)) }
    requires named { IsNamedStep task.now step.now }
    ensures { IfOk result (IsTouchedBy task.now step.now) }
{
    let action = &task.domain.actions.as_slice()[step.action as usize];
    let env = Env::new(step.args.as_slice());
    let adds = pattern_atoms(alloc, action.adds.as_slice(), &env)?;
    let deletes = pattern_atoms(alloc, action.deletes.as_slice(), &env)?;
    let mut reads = Vec::new(alloc);
    put_reads(alloc, &task.domain, &env, &action.condition, &mut reads)?;
    let whole = whole_reads(alloc, &task.domain, edges, &action.condition)?;
    Ok(Touched {
        adds: State::from_atoms(adds),
        deletes: State::from_atoms(deletes),
        reads: State::from_atoms(reads),
        whole: Seq::from_vec(whole),
    })
}
