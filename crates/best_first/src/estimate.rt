//! Estimates of what is left to the goal.
ghost use Rattle.std.specs.Prelude.{◌≡◌, ℕ};
ghost use Rattle.task_model.specs.Fit.{IsFit};
ghost use Rattle.task_model.specs.State.{Atoms};

use formula_eval::Env;
use grounder::{Candidates, fluent_atom, tops};
use task_model::{GroundAction, Look, State, Task};

/// An estimate of what it costs to come from a state to the goal. It may order a search, and never
/// prunes: whatever it answers, a search finds a plan or rules one out as it promises.
pub trait Estimate {
    /// What a call tells: of the estimate before and after it, of the state, and of the answer.
    ghost tells: { Self → Self → Atoms → ℕ → Type 0 };

    /// The estimate for the state.
    fn estimate<L: Look>(&mut self, task: &Task, look: &L, state: &State) -> u64
        requires { IsFit task.now }
        ensures { tells self.old self.new state.now result };

    /// Whether the step, from the state that was estimated last, is worth taking early. The search gives
    /// the task's candidates, and asks for steps in their order.
    fn wants(&mut self, _candidates: &Candidates, _step: &GroundAction) -> bool {
        true
    }

    /// How much later the other steps are taken, as a difference of estimates. Where it is 0, all
    /// are taken alike, and none is asked for.
    fn delay(&self) -> u64 {
        0
    }
}

/// The estimate that knows nothing and always answers 0.
#[derive(Clone, Copy, Default, Debug)]
pub struct Blind;

impl Estimate for Blind {
    ghost tells = { λ _ _ _ n. n ≡ 0 };

    fn estimate<L: Look>(&mut self, _task: &Task, _look: &L, _state: &State) -> u64
        requires { IsFit _task.now }
        ensures { result ≡ 0 }
    {
        0
    }
}

/// The estimate that counts the fluent atoms at the top of the goal that are not in the state: the
/// goal itself, or those among the parts that all have to be true.
#[derive(Clone, Copy, Default, Debug)]
pub struct GoalCount;

impl Estimate for GoalCount {
    ghost tells = { λ _ _ _ _. Unit {0} };

    fn estimate<L: Look>(&mut self, task: &Task, _look: &L, state: &State) -> u64
        requires { IsFit task.now }
    {
        let env = Env::new(&[]);
        let mut count: u64 = 0;
        for part in tops(&task.problem.goal) {
            if let Some(atom) = fluent_atom(state.allocator(), &task.domain, part, &env) {
                count = count.saturating_add(u64::from(!state.has(&atom)));
            }
        }
        count
    }
}
