//! The arguments that what is static allows.
ghost use Rattle.std.specs.Prelude.{◌≡◌, IfOk, IfSome, true};
ghost use Rattle.task_model.specs.Fit.{IsFit, is_fit_action};
ghost use Rattle.grounder.specs.Candidates.{AreCandidates, AreCandidateRows};

use crate::atoms::static_atoms;
use fact_join::{JoinFault, Partial, Query, Wanted, join};
use std::alloc::{AllocError, Global};
use task_model::{Action, Look, Obj, Seq, Task, Wide};

/// Any tuple is wanted.
#[derive(Clone, Copy)]
struct Anything;

impl Wanted for Anything {
    ghost use Rattle.std.specs.Prelude.{true};

    ghost can_judge = { λ _ _. Unit {0} };

    ghost wants = { λ _ _. true };

    /// Whether the tuple is wanted: it is.
    fn wants(&self, _args: &[Obj]) -> bool {
        true
    }
}

/// The arguments that have the types of the action's parameters and make its static atoms known
/// facts, in their order, or None where there are more than `most`. Fails only where memory is
/// wanting.
fn rows_of<L: Look>(
    alloc: Global,
    task: &Task,
    look: &L,
    action: &Action,
    most: usize,
) -> Result<Option<Seq<Wide>>, AllocError>
    requires fit { IsFit task.now }
    requires action { is_fit_action task.now.domain action.now ≡ true }
    ensures { IfOk result
        (λ rows. IfSome rows (AreCandidateRows task.now.domain (L.known look.now) action.now)) }
{
    let atoms = static_atoms(alloc, &task.domain, &action.condition)?;
    let query = Query {
        look,
        sorts: action.params.as_slice(),
        wanted: &Anything,
        most,
        alloc,
    };
    let mut rows = Vec::new(alloc);
    match join(&query, &Partial::new(), atoms.as_slice(), &mut rows) {
        Ok(()) => {
            rows.sort_unstable();
            rows.shrink_to_fit();
            Ok(Some(Seq::from_vec(rows)))
        }
        Err(JoinFault::TooMany) => Ok(None),
        Err(JoinFault::Memory) => Err(AllocError),
    }
}

/// For each action of a task the arguments that have the types of its parameters and make its
/// static atoms known facts, found once for all states of a search: no state changes them.
#[derive(Drop)]
pub struct Candidates {
    /// The arguments of each action, in their order, or None where there are too many to keep.
    pub actions: Seq<Option<Seq<Wide>>>,
}

impl Candidates {
    /// Those of the task, as far as no more than `most` are kept. Fails only where memory is
    /// wanting.
    pub fn new<L: Look>(
        alloc: Global,
        task: &Task,
        look: &L,
        most: usize,
    ) -> Result<Candidates, AllocError>
        requires { IsFit task.now }
        ensures { IfOk result (AreCandidates task.now (L.known look.now)) }
    {
        let mut left = most;
        let mut actions = Vec::new(alloc);
        for action in task.domain.actions.as_slice() {
            let rows = rows_of(alloc, task, look, action, left)?;
            if let Some(rows) = &rows {
                left = left.saturating_sub(rows.len());
            }
            actions.push(rows)?;
        }
        Ok(Candidates {
            actions: Seq::from_vec(actions),
        })
    }
}
