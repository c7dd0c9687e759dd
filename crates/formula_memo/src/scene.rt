//! What truth is judged over, and what is left of an `exists`.
ghost use Rattle.task_model.specs.Fit.{IsFit};

use task_model::{Formula, Look, State, Task};

/// What truth is judged over: a fit task, what is known of it, and a state.
#[derive(Drop)]
pub(crate) struct Scene<'a, L: Look> {
    pub(crate) task: &'a Task,
    pub(crate) look: &'a L,
    pub(crate) state: &'a State,
    ghost fit: { IsFit task.now },
}

/// What is left of an `exists`: objects of these types are sought that, put into the slots from
/// `first` on, make the body true.
#[derive(Clone, Copy)]
pub(crate) struct Sought<'a> {
    pub(crate) first: u8,
    pub(crate) sorts: &'a [u32],
    pub(crate) body: &'a Formula,
}
