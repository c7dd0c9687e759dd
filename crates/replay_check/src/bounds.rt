//! What a transcript is judged by.
ghost use Rattle.replay_check.specs.Standings.{AreBounds};
ghost use Rattle.replay_check.specs.Turns.{IsPointOf};

use course_check::BatchPoint;
use learning::Knowledge;
use pools::Workers;
use std::alloc::Global;
use task_model::Task;
use transcript_model::Mode;

/// The task, what the head binds the transcript to, and how many states are searched at most.
#[derive(Drop)]
pub(crate) struct Bounds<'a> {
    pub(crate) alloc: Global,
    pub(crate) task: &'a Task,
    pub(crate) version: u8,
    pub(crate) mode: Mode,
    pub(crate) calls: u32,
    pub(crate) states: u32,
    pub(crate) depth: u8,
    pub(crate) pools: &'a [Workers],
    pub(crate) limit: u32,
}

impl Bounds<'_> {
    /// The point of the transcript where this is known, as one where a batch of a dream may begin.
    pub(crate) fn point<'b>(&'b self, knowledge: &'b Knowledge) -> BatchPoint<'b>
        requires { AreBounds self.now }
        ensures { IsPointOf self.now knowledge.now result }
    {
        BatchPoint {
            task: self.task,
            facts: &knowledge.facts,
            queue: &knowledge.queue,
            pools: self.pools,
            calls: self.calls,
        }
    }
}
