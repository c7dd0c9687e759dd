//! The atoms of the goal.
ghost use Rattle.std.specs.Prelude.{◌≡◌, IfOk};
ghost use Rattle.task_model.specs.Fit.{IsFit};
ghost use Rattle.optimal_search.specs.Bounds.{goal_atoms as atoms_of_goal, missing};

use formula_eval::Env;
use grounder::{fluent_atom, tops};
use std::alloc::{AllocError, Global};
use task_model::{State, Task};

/// The fluent atoms that are the goal, or stand at its top where it is made of parts that all have to
/// be true. Fails only where memory is wanting.
pub(crate) fn goal_atoms(alloc: Global, task: &Task) -> Result<State, AllocError>
    requires { IsFit task.now }
    ensures { IfOk result (λ atoms. atoms ≡ atoms_of_goal task.now) }
{
    let env = Env::new(&[]);
    let mut atoms = Vec::new(alloc);
    for part in tops(&task.problem.goal) {
        if let Some(atom) = fluent_atom(alloc, &task.domain, part, &env) {
            atoms.push(atom)?;
        }
    }
    Ok(State::from_atoms(atoms))
}

/// How many of the atoms the state lacks.
pub(crate) fn count_missing(goals: &State, state: &State) -> usize
    ensures { result ≡ missing goals.now state.now }
{
    let mut count: usize = 0;
    for atom in goals.as_slice() {
        if !state.has(atom) {
            count += 1;
        }
    }
    count
}
