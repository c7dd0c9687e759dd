//! The bound by the number of goal atoms that are missing.
ghost use Rattle.std.specs.Prelude.{◌≡◌, ◌≤◌, IfOk, length};
ghost use Rattle.optimal_search.specs.Bounds.{least_cost as least_cost_of, own_cost as own_cost_of, own_number as own_number_of, widest as widest_of};
ghost use Rattle.optimal_search.specs.Fewest.{IsFewestOf, fewest as fewest_left};
ghost use Rattle.optimal_search.specs.Lawful.{fewest_is_lawful};
ghost use Rattle.task_model.specs.Fit.{IsFit};

use crate::consistent::Consistent;
use crate::goal::{count_missing, goal_atoms};
use best_first::Estimate;
use std::alloc::{AllocError, Global};
use task_model::{Action, CostTerm, Look, State, Task};

/// The most that a step can cost.
const MOST_COST: u64 = 262_144_000_000;

/// The bound by the number of goal atoms that are missing: of these each step adds at most as many as
/// an action has adds, and it costs at least the least sum of an action's numbers, or 1 where costs
/// aren't counted. So their number times that sum, divided by that width and rounded up, is still to
/// be paid (and never more than 2^64 - 1 is answered). The goal's atoms are the fluent ones that are the
/// goal, or stand at its top where it is made of parts that all have to be true.
#[derive(Drop)]
pub struct Fewest {
    goals: State,
    width: u64,
    least: u64,
}

impl Fewest {
    /// The estimate for a task. Fails only where memory is wanting.
    pub fn new(alloc: Global, task: &Task) -> Result<Fewest, AllocError>
        requires { IsFit task.now }
        ensures { IfOk result (IsFewestOf task.now) }
    {
        let goals = goal_atoms(alloc, task)?;
        Ok(Fewest {
            goals,
            width: widest(task.domain.actions.as_slice()),
            least: least_cost(task),
        })
    }
}

impl Estimate for Fewest {
    ghost tells = { λ old new s n. (n ≡ fewest_left old s) × (new ≡ old) };

    fn estimate<L: Look>(&mut self, _task: &Task, _look: &L, state: &State) -> u64
        requires { IsFit _task.now }
        ensures bound { result ≡ fewest_left self.old state.now }
        ensures same { self.new ≡ self.old }
    {
        if self.width == 0 {
            return 0;
        }
        let missing = count_missing(&self.goals, state) as u64;
        let paid = u128::from(self.least) * u128::from(missing);
        let left = paid.div_ceil(u128::from(self.width));
        left.min(u128::from(u64::MAX)) as u64
    }
}

impl Consistent for Fewest {
    ghost bound = { fewest_left };

    ghost suits = { λ estimate task known. IsFewestOf task estimate };

    ghost lawful = { fewest_is_lawful };
}

/// The greatest number of adds of an action, and 0 where there is no action.
fn widest(actions: &[Action]) -> u64
    ensures { result ≡ widest_of actions.now }
{
    let mut width: u64 = 0;
    for action in actions {
        width = width.max(action.adds.len() as u64);
    }
    width
}

/// What each step costs at least: the least sum of the numbers among an action's terms, or 1 where
/// costs aren't counted.
fn least_cost(task: &Task) -> u64
    requires { IsFit task.now }
    ensures { result ≡ least_cost_of task.now }
{
    if !task.problem.metric {
        return 1;
    }
    let mut least = MOST_COST;
    for action in task.domain.actions.as_slice() {
        least = least.min(own_cost(action.costs.as_slice()));
    }
    least
}

/// The number, if it is one, and else 0.
fn own_number(term: &CostTerm) -> u32
    ensures { result ≡ own_number_of term.now }
{
    match term {
        CostTerm::Number(number) => *number,
        CostTerm::Value { .. } => 0,
    }
}

/// The sum of the terms that are numbers.
pub(crate) fn own_cost(terms: &[CostTerm]) -> u64
    requires { length terms.now ≤ 262144 }
    ensures { result ≡ own_cost_of terms.now }
{
    let mut total: u64 = 0;
    for term in terms {
        total += u64::from(own_number(term));
    }
    total
}
