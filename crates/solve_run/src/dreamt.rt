//! What is dreamt in a turn.
ghost use Rattle.std.specs.Prelude.{◌≡◌, IfOk, false};
ghost use Rattle.solve_run.specs.NextDreams.{IsNextDream};
ghost use Rattle.turn_run.specs.Deciding.{MayDecideAt, MayDecideIn};

use dreaming::{Dreamt, dream};
use optimistic_set::{OptEntry, Tried};
use std::alloc::AllocError;
use transcript_model::{Entry, Outcome};
use turn_run::{Desk, Situation, known_plan, situation_on};

/// A dream as it is told.
#[derive(Drop)]
pub(crate) struct LinedDream {
    /// Its line.
    pub line: Entry,
    /// The entries that it needs.
    pub entries: Vec<OptEntry>,
}

/// What is dreamt over all that may be supposed.
#[derive(Drop)]
pub(crate) enum NextDream {
    /// A plan that needs none of it: the run ends with this outcome.
    Known(Outcome),
    /// A plan that needs some of it.
    Lined(LinedDream),
    /// None.
    Empty,
}

/// What is dreamt after the transcript, where these were tried and the head asks for any plan. Fails
/// only where memory is wanting.
pub(crate) fn next_dream(desk: &Desk<'_>, tried: &Tried) -> Result<NextDream, AllocError>
    requires may { MayDecideAt desk.now }
    requires any { desk.now.head.optimal ≡ false }
    ensures { IfOk result (IsNextDream desk.now.head desk.now.task desk.now.state.entries
        tried.now) }
{
    dream_over(&situation_on(desk), tried)
}

/// The same of what lies on the desk.
fn dream_over(situation: &Situation<'_>, tried: &Tried) -> Result<NextDream, AllocError>
    requires may { MayDecideIn situation.now }
    requires any { situation.now.head.now.optimal ≡ false }
    ensures { IfOk result (IsNextDream situation.now.head.now situation.now.task.now
        situation.now.session.now.entries tried.now) }
{
    let head = situation.head;
    let dreamt = dream(
        situation.alloc,
        situation.task,
        situation.session,
        tried,
        head.depth,
        head.states,
    )?;
    match dreamt {
        Dreamt::Empty => Ok(NextDream::Empty),
        Dreamt::Dream {
            uses,
            steps,
            entries,
            plan,
            cost,
        } => {
            if uses.as_slice().is_empty() {
                let outcome = known_plan(situation, &plan, cost)?;
                return Ok(NextDream::Known(outcome));
            }
            let line = Entry::Dream { uses, steps };
            Ok(NextDream::Lined(LinedDream { line, entries }))
        }
    }
}
