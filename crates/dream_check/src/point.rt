//! Points of a transcript.
use learning::Knowledge;
use optimistic_set::Tried;
use task_model::Task;

/// A point of a transcript behind which a dream, or that there is none, may be told.
#[derive(Clone, Copy)]
pub struct Point<'a> {
    /// The task.
    pub task: &'a Task,
    /// What the entries before it certify and tell.
    pub knowledge: &'a Knowledge,
    /// The instances that were tried.
    pub tried: &'a Tried,
    /// How deep what may be supposed is nested.
    pub depth: u8,
}
