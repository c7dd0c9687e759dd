//! Whether a task is fit.
ghost use Rattle.std.specs.Prelude.{◌≡◌, ◌↔◌, ◌&&◌, IsTrue, IfOk};
ghost use Rattle.task_model.specs.Fit.{IsFit};
ghost use Rattle.fit_check.specs.Tests as tests;

use crate::domain::is_fit_domain;
use crate::graph::is_acyclic;
use crate::problem::is_fit_problem;
use crate::streams::are_fit_streams;
use std::alloc::{AllocError, Global};
use task_model::Task;

/// Whether the task is fit, apart from what rests on itself.
fn is_nearly_fit(task: &Task) -> bool
    ensures { result ≡ (tests.is_fit_domain task.now.domain && tests.is_fit_problem task.now
        && tests.are_fit_streams task.now) }
{
    is_fit_domain(&task.domain) && is_fit_problem(task) && are_fit_streams(task)
}

/// Whether the task is fit: true where it is, and false where it isn't. All planning asks for a fit
/// task; a reader gives such, and this is the test for one that is built by hand.
///
/// A fit task keeps the project's profile of PDDL. Names are words in lower case, each its own, and
/// all numbers are places that are there; type 0 is `object`, and supertypes are listed whole;
/// atoms have as many arguments as their predicates, at most eight; parameters have the slots from
/// 0, sixteen at most; conditions are nested at most 64 deep; no derived predicate rests on itself,
/// and no stream feeds itself; each predicate has its role; and no function term has two values.
///
/// It takes time that grows with the square of the task's lists, and memory for a number for each
/// stream and each item. Fails only where memory is wanting.
pub fn is_fit(alloc: Global, task: &Task) -> Result<bool, AllocError>
    ensures { IfOk result (λ fit. IsTrue fit ↔ IsFit task.now) }
{
    if !is_nearly_fit(task) {
        return Ok(false);
    }
    if !is_acyclic(alloc, &task.domain)? {
        return Ok(false);
    }
    is_acyclic(alloc, task)
}
