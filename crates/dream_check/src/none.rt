//! Whether no plan rests on what may be supposed.
ghost use Rattle.std.specs.Prelude.{◌≡◌, ℕ, ◌≤◌, List, IfOk};
ghost use Rattle.dream_check.specs.Judged.{IsNoneJudged, IsNoneOver};
ghost use Rattle.task_model.specs.Fit.{IsFit};
ghost use Rattle.task_model.specs.declared.limits.TheConstants.{MOST_STATES};
ghost use Rattle.learning.specs.Knowledge.{IsKnowledge};
ghost use Rattle.transcript_model.specs.Rounds.{Limits};
ghost use Rattle.transcript_model.specs.declared.entry.Entry.{Entry as AnyEntry};

use crate::point::Point;
use best_first::is_solvable_within;
use optimistic_set::{OptimisticFault, optimistic};
use std::alloc::{AllocError, Global};
use task_model::{Look, Task};

/// Whether no plan rests on a list, over which `look` looks up what is known, where `states` states
/// may be searched; None where more than `limit` states are reached, and `states` is more.
fn judge_list<L: Look>(
    alloc: Global,
    task: &Task,
    look: &L,
    states: u32,
    limit: u32,
) -> Result<Option<bool>, AllocError>
    requires fit { IsFit task.now }
    requires some_states { 1 ≤ states }
    requires few_states { states ≤ MOST_STATES }
    requires some { 1 ≤ limit }
    requires few { limit ≤ MOST_STATES }
    ensures { IfOk result (IsNoneOver task.now (L.known look.now) states limit) }
{
    let most = limit.min(states);
    match is_solvable_within(alloc, task, look, most)? {
        Some(solvable) => Ok(Some(!solvable)),
        None => {
            if limit < states {
                Ok(None)
            } else {
                Ok(Some(true))
            }
        }
    }
}

/// Whether no plan rests on what may be supposed at a point of a transcript: because more than
/// 20,000 entries may be supposed, because no plan is valid over the list, or because more than
/// `states` states are reached over it. None exactly where `limit` is less than `states` and more
/// than `limit` states are reached over a list that isn't too long; both are from 1 to 200,000.
/// Fails only where memory is wanting.
pub fn judge_none(
    alloc: Global,
    point: &Point<'_>,
    states: u32,
    limit: u32,
) -> Result<Option<bool>, AllocError>
    requires knowledge { (version : ℕ) × (before : List AnyEntry)
        × IsKnowledge version point.now.task.now before point.now.knowledge.now }
    requires some_states { 1 ≤ states }
    requires few_states { states ≤ MOST_STATES }
    requires some { 1 ≤ limit }
    requires few { limit ≤ MOST_STATES }
    ensures { (limits : Limits) (before : List AnyEntry) → limits.depth ≡ point.now.depth
        → limits.states ≡ states
        → IsKnowledge limits.version point.now.task.now before point.now.knowledge.now
        → IfOk result (IsNoneJudged limits point.now.task.now before point.now.tried.now limit) }
{
    let knowledge = point.knowledge;
    let depth = u32::from(point.depth);
    match optimistic(
        alloc,
        point.task,
        &knowledge.facts,
        &knowledge.queue,
        point.tried,
        depth,
    ) {
        Ok(supposed) => judge_list(alloc, point.task, &supposed.look(), states, limit),
        Err(OptimisticFault::TooManyEntries) => Ok(Some(true)),
        Err(OptimisticFault::Memory) => Err(AllocError),
    }
}
