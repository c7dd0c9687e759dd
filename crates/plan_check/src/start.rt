//! The state from which plans start.
ghost use Rattle.std.specs.Prelude.{◌≡◌, IfOk};
ghost use Rattle.task_model.specs.Fit.{IsFit};
ghost use Rattle.task_model.specs.Initial.{initial_state};

use std::alloc::{AllocError, Global};
use task_model::{Atom, Fact, Role, State, Task};

/// The initial state of the task: the atoms of fluents in `:init` (PDDL 2.1). Fails only where
/// memory is wanting.
pub fn initial(alloc: Global, task: &Task) -> Result<State, AllocError>
    requires { IsFit task.now }
    ensures { IfOk result (λ state. state ≡ initial_state task.now) }
{
    let roles = task.domain.roles.as_slice();
    let mut atoms = Vec::new(alloc);
    for fact in task.problem.init.as_slice() {
        match roles[fact.name as usize] {
            Role::Fluent => atoms.push(atom_of(fact)?)?,
            Role::Static | Role::Derived => {}
        }
    }
    Ok(State::from_atoms(atoms))
}

/// The atom of a fact. Fails only where memory is wanting.
fn atom_of(fact: &Fact) -> Result<Atom, AllocError>
    ensures { IfOk result (λ atom. atom ≡ record { pred = fact.now.name; args = fact.now.args }) }
{
    let args = fact.args.copy()?;
    Ok(Atom {
        pred: fact.name,
        args,
    })
}
