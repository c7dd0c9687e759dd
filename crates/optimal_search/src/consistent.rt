//! Estimates that a search for a cheapest plan may trust.
ghost use Rattle.std.specs.Prelude.{◌≡◌, ℕ};
ghost use Rattle.optimal_search.specs.Consistent.{IsLawful, StaysSuited};
ghost use Rattle.optimal_search.specs.Lawful.{blind_is_lawful};
ghost use Rattle.task_model.specs.Fit.{IsFit};
ghost use Rattle.task_model.specs.Known.{Known};
ghost use Rattle.task_model.specs.State.{Atoms};
ghost use Rattle.task_model.specs.declared.task.Task.{Task as AnyTask};

use best_first::{Blind, Estimate};
use task_model::{Look, State, Task};

/// An estimate that never claims too much: from a state to the next it falls by no more than the
/// step costs, and it is 0 where the goal is true (a consistent heuristic: Hart, Nilsson and Raphael
/// 1968; Pearl 1984). So it is nowhere above the cost of the cheapest way to the goal, and A* with
/// it closes each state once.
pub trait Consistent: Estimate {
    /// What the estimate answers for a state.
    ghost bound: { Self → Atoms → ℕ };

    /// The estimate was made for this task and for what is known of it.
    ghost suits: { Self → AnyTask → Known → Type 0 };

    /// Each answer is the bound, no call changes that, and for what it was made for it is
    /// consistent.
    ghost lawful: { IsLawful Self.tells bound suits };
}

/// Nothing is claimed: A* is uniform-cost search then.
impl Consistent for Blind {
    ghost bound = { λ _ _. 0 };

    ghost suits = { λ _ _ _. Unit {0} };

    ghost lawful = { blind_is_lawful };
}

/// What the estimate answers for the state.
pub(crate) fn bound_of<L: Look, C: Consistent>(
    estimate: &mut C,
    task: &Task,
    look: &L,
    state: &State,
) -> u64
    requires { IsFit task.now }
    ensures is { result ≡ C.bound estimate.old state.now }
    ensures same { (s : Atoms) → C.bound estimate.new s ≡ C.bound estimate.old s }
    ensures suits { StaysSuited C.suits estimate.old estimate.new }
{
    estimate.estimate(task, look, state)
}
