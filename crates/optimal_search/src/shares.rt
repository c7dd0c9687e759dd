//! The bound by the shares of the goal atoms that are missing.
ghost use Rattle.std.specs.Prelude.{◌≡◌, ◌≤◌, IfOk, OnOk, length, true};
ghost use Rattle.grounder.specs.Candidates.{AreCandidateRows, AreCandidates};
ghost use Rattle.lemmas.specs.Lists.{AreDistinct};
ghost use Rattle.optimal_search.specs.Lawful.{shares_is_lawful};
ghost use Rattle.optimal_search.specs.Share.{AreLower, goals_of};
ghost use Rattle.optimal_search.specs.Shares.{AreSharesOf, IsSharedStep, PayShares, PaysShares, own_least as own_least_of, shares_left};
ghost use Rattle.task_model.specs.Fit.{IsFit, is_fit_action};
ghost use Rattle.task_model.specs.Known.{Known};
ghost use Rattle.task_model.specs.declared.limits.TheConstants.{SLOTS};

use crate::consistent::Consistent;
use crate::fewest::own_cost;
use crate::goal::goal_atoms;
use crate::share::{Share, count_met, greatest, lower, lower_named, owed};
use best_first::{Estimate, MOST_CANDIDATES};
use formula_eval::Env;
use grounder::Candidates;
use plan_check::{pattern_atoms, step_cost};
use std::alloc::{AllocError, Global};
use task_model::{Action, Look, Obj, State, Task, Wide};

/// Shares are in so many parts of a cost of 1.
const UNIT: u64 = 1_048_576;

/// The bound by the shares of the goal atoms that are missing (landmarks with uniform cost
/// partitioning: Karpas and Domshlak 2009): a step that adds goal atoms pays for each of them what it
/// costs, divided by how many it adds. A goal atom's share is the least that is paid for it so, and
/// what the goal atoms that the state lacks have for shares, together and rounded up, is still to be
/// paid (and never more than 2^64 - 1 is answered). Where an action has too many arguments to go
/// through, the sum of its numbers, or 1 where costs aren't counted, counts for what its steps cost,
/// and all atoms that it adds for goal atoms. The goal's atoms are those of `Fewest`.
#[derive(Drop)]
pub struct Shares {
    shares: Vec<Share>,
}

/// Shares the cost of the action with these arguments among the goal's atoms that it adds. Fails only
/// where memory is wanting.
fn share_step<L: Look>(
    alloc: Global,
    task: &Task,
    look: &L,
    action: &Action,
    args: &[Obj],
    shares: &mut [Share],
) -> Result<(), AllocError>
    requires fit { IsFit task.now }
    requires action { is_fit_action task.now.domain action.now ≡ true }
    requires few { length args.now ≤ SLOTS }
    ensures lower { OnOk result (AreLower shares.old shares.new) }
    ensures shared { OnOk result (IsSharedStep task.now (L.known look.now) action.now args.now
        shares.new) }
{
    let state = State::new(alloc);
    let Some(cost) = step_cost(task, look, &state, action, args) else {
        return Ok(());
    };
    let come = pattern_atoms(alloc, action.adds.as_slice(), &Env::new(args))?;
    let come = State::from_atoms(come);
    let met = count_met(shares, &come) as u64;
    if met > 0 {
        lower(shares, &come, cost * UNIT / met);
    }
    Ok(())
}

/// The same with each of these arguments.
fn share_rows<L: Look>(
    alloc: Global,
    task: &Task,
    look: &L,
    action: &Action,
    rows: &[Wide],
    shares: &mut [Share],
) -> Result<(), AllocError>
    requires fit { IsFit task.now }
    requires action { is_fit_action task.now.domain action.now ≡ true }
    requires rows { AreCandidateRows task.now.domain (L.known look.now) action.now rows.now }
    ensures lower { OnOk result (AreLower shares.old shares.new) }
    ensures shared { OnOk result (PaysShares task.now (L.known look.now) action.now
        shares.new) }
{
    for args in rows {
        share_step(alloc, task, look, action, args.as_slice(), shares)?;
    }
    Ok(())
}

/// What a step of the action costs at least: the sum of the numbers among its terms, or 1 where costs
/// aren't counted.
fn own_least(task: &Task, action: &Action) -> u64
    requires { length action.now.costs ≤ 262144 }
    ensures { result ≡ own_least_of task.now action.now }
{
    if task.problem.metric {
        own_cost(action.costs.as_slice())
    } else {
        1
    }
}

/// Shares what a step of the action costs at least among as many of the goal's atoms as the action has
/// adds: all those whose predicate an add has, whatever the arguments are.
fn share_unlisted(task: &Task, action: &Action, shares: &mut [Share])
    requires fit { IsFit task.now }
    requires action { is_fit_action task.now.domain action.now ≡ true }
    requires distinct { AreDistinct (goals_of shares.old) }
    ensures lower { AreLower shares.old shares.new }
    ensures paid { (known : Known) → PaysShares task.now known action.now shares.new }
{
    let adds = action.adds.as_slice();
    let width = (adds.len() as u64).max(1);
    let cost = own_least(task, action).saturating_mul(UNIT);
    lower_named(shares, adds, cost / width);
}

/// Shares what the steps of all actions cost. Fails only where memory is wanting.
fn share_all<L: Look>(
    alloc: Global,
    task: &Task,
    look: &L,
    candidates: &Candidates,
    shares: &mut [Share],
) -> Result<(), AllocError>
    requires fit { IsFit task.now }
    requires candidates { AreCandidates task.now (L.known look.now) candidates.now }
    requires distinct { AreDistinct (goals_of shares.old) }
    ensures goals { OnOk result (goals_of shares.new ≡ goals_of shares.old) }
    ensures paid { OnOk result (PayShares task.now (L.known look.now)
        (length task.now.domain.actions) shares.new) }
{
    for (number, action) in task.domain.actions.as_slice().iter().enumerate() {
        match &candidates.actions.as_slice()[number] {
            Some(rows) => share_rows(alloc, task, look, action, rows.as_slice(), shares)?,
            None => share_unlisted(task, action, shares),
        }
    }
    Ok(())
}

impl Shares {
    /// The estimate for a task and what is known of it. Fails only where memory is wanting.
    pub fn new<L: Look>(alloc: Global, task: &Task, look: &L) -> Result<Shares, AllocError>
        requires { IsFit task.now }
        ensures { IfOk result (AreSharesOf task.now (L.known look.now)) }
    {
        let goals = goal_atoms(alloc, task)?;
        let mut shares = greatest(alloc, &goals)?;
        let candidates = Candidates::new(alloc, task, look, MOST_CANDIDATES)?;
        share_all(alloc, task, look, &candidates, &mut shares)?;
        Ok(Shares { shares })
    }
}

impl Estimate for Shares {
    ghost tells = { λ old new s n. (n ≡ shares_left old s) × (new ≡ old) };

    fn estimate<L: Look>(&mut self, _task: &Task, _look: &L, state: &State) -> u64
        requires { IsFit _task.now }
        ensures bound { result ≡ shares_left self.old state.now }
        ensures same { self.new ≡ self.old }
    {
        let left = owed(self.shares.as_slice(), state).div_ceil(u128::from(UNIT));
        left.min(u128::from(u64::MAX)) as u64
    }
}

impl Consistent for Shares {
    ghost bound = { shares_left };

    ghost suits = { λ estimate task known. AreSharesOf task known estimate };

    ghost lawful = { shares_is_lawful };
}
