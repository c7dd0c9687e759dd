//! All states that are reached.
ghost use Rattle.std.specs.Prelude.{◌≤◌, IfOk};
ghost use Rattle.grounder.specs.Finder.{FindsSteps};
ghost use Rattle.task_model.specs.Fit.{IsFit};
ghost use Rattle.task_model.specs.declared.limits.TheConstants.{MOST_STATES};
ghost use Rattle.best_first.specs.Outcome.{BeginsAt, ComesTo, explored_as};

use crate::expand::{Scene, Turn, ends, expand};
use crate::tree::Tree;
use grounder::StepFinder;
use std::alloc::{AllocError, Global};
use task_model::Look;

/// How many arguments of actions are kept for all states. Each takes 48 bytes; an action that has
/// more is joined anew in each state.
pub const MOST_CANDIDATES: usize = 200_000;

/// What an exploration comes to.
#[derive(Drop)]
pub(crate) enum Explored {
    /// The last state of the tree meets the goal.
    Goal(Tree),
    /// All states that are reached were seen.
    All,
    /// More states are reached than the limit allows.
    More,
}

/// How an exploration ended.
#[derive(Clone, Copy, PartialEq, Eq, Debug)]
pub(crate) enum End {
    /// The last state of the tree meets the goal.
    Goal,
    /// All states that are reached were seen.
    All,
    /// More states are reached than the limit allows.
    More,
}

/// Goes through the states that are reached, nearest first, until one ends it, or there are more
/// than the limit allows, or all were seen. Fails only where memory is wanting.
pub(crate) fn explore<L: Look>(
    alloc: Global,
    scene: &Scene<'_, L>,
    finder: &StepFinder,
) -> Result<Explored, AllocError>
    requires fit { IsFit scene.now.task.now }
    requires some { 1 ≤ scene.now.limit }
    requires limit { scene.now.limit ≤ MOST_STATES }
    requires finds { FindsSteps scene.now.task.now (L.known scene.now.look.now) finder.now }
    ensures { IfOk result (ComesTo scene.now.task.now (L.known scene.now.look.now)
        scene.now.seeks_goal scene.now.limit) }
{
    let mut tree = Tree::new(alloc, scene.task)?;
    match explore_from(alloc, scene, finder, &mut tree) {
        Ok(End::Goal) => Ok(Explored::Goal(tree)),
        Ok(End::All) => Ok(Explored::All),
        Ok(End::More) => Ok(Explored::More),
        Err(error) => Err(error),
    }
}

/// The same from the tree of the initial state alone, which grows.
fn explore_from<L: Look>(
    alloc: Global,
    scene: &Scene<'_, L>,
    finder: &StepFinder,
    tree: &mut Tree,
) -> Result<End, AllocError>
    requires fit { IsFit scene.now.task.now }
    requires some { 1 ≤ scene.now.limit }
    requires limit { scene.now.limit ≤ MOST_STATES }
    requires finds { FindsSteps scene.now.task.now (L.known scene.now.look.now) finder.now }
    requires begins { BeginsAt scene.now.task.now tree.old }
    ensures { IfOk result (λ end. ComesTo scene.now.task.now (L.known scene.now.look.now)
        scene.now.seeks_goal scene.now.limit (explored_as tree.new end)) }
{
    if ends(scene, &tree.store, 0)? {
        return Ok(End::Goal);
    }
    let mut next: u32 = 0;
    while next as usize <= tree.links.len() {
        match expand(alloc, scene, finder, tree, next)? {
            Turn::On => next += 1,
            Turn::Goal => return Ok(End::Goal),
            Turn::More => return Ok(End::More),
        }
    }
    Ok(End::All)
}
