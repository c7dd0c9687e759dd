//! What lies on a desk, each part by itself.
ghost use Rattle.turn_run.specs.Deciding.{LiesOn, MayDecideAt, MayDecideIn};

use round_run::Desk;
use session_core::Session;
use std::alloc::Global;
use task_model::Task;
use transcript_model::Head;

/// What lies on the desk of a run, and where memory comes from. What changes nothing of the run
/// looks at these.
#[derive(Clone, Copy)]
pub struct Situation<'a> {
    /// Where memory comes from.
    pub alloc: Global,
    /// The task.
    pub task: &'a Task,
    /// The head.
    pub head: &'a Head,
    /// The session.
    pub session: &'a Session,
}

/// What lies on this desk, at which it can be decided what comes next.
pub fn situation_on<'a>(desk: &'a Desk<'_>) -> Situation<'a>
    requires may { MayDecideAt desk.now }
    ensures may { MayDecideIn result }
    ensures lies { LiesOn desk.now result }
{
    Situation {
        alloc: desk.alloc(),
        task: desk.task(),
        head: desk.head(),
        session: desk.session(),
    }
}
