//! The list of what may be supposed.
ghost use Rattle.std.specs.Prelude.{◌≡◌, ◌≤◌, length, IfOk, IfErr};
ghost use Rattle.task_model.specs.Dreams.{AreSupposed, supposing};
ghost use Rattle.task_model.specs.Fit.{IsFit};
ghost use Rattle.task_model.specs.declared.limits.TheConstants.{MOST_SUPPOSED};
ghost use Rattle.optimistic_set.specs.Dreamable.{AreReal};
ghost use Rattle.optimistic_set.specs.Entries.{ArePlainEntries};
ghost use Rattle.optimistic_set.specs.Faults.{HasListCause};

use crate::draft::Draft;
use crate::fault::OptimisticFault;
use crate::supposed::Supposed;
use crate::tried::Tried;
use fact_store::Facts;
use instance_queue::Queue;
use std::alloc::Global;
use task_model::Task;

/// The instances that may be supposed to answer, with placeholders for their outputs: behind the
/// empty list come, so often as `depth` says, those that are due by what is known with the entries
/// so far, have none, and weren't tried (PDDLStream 2020; how the list is found and ordered is this
/// project's). The facts are those of the task and of what was answered, so none of their names
/// begins with `@`.
///
/// Fails where there would be more than [`task_model::MOST_SUPPOSED`] entries, and where memory is wanting.
pub fn optimistic<'a>(
    alloc: Global,
    task: &Task,
    facts: &'a Facts,
    queue: &Queue,
    tried: &Tried,
    depth: u32,
) -> Result<Supposed<'a>, OptimisticFault>
    requires fit { IsFit task.now }
    requires declared { length task.now.problem.objects ≤ length facts.now.known.names }
    requires names { AreReal facts.now.known.names }
    ensures list { IfOk result (λ supposed. AreSupposed task.now facts.now.known queue.now tried.now
        depth supposed.list) }
    ensures known { IfOk result (λ supposed. supposed.known
        ≡ supposing task.now facts.now.known supposed.list supposed.list) }
    ensures base { IfOk result (λ supposed. supposed.base ≡ facts.now.known) }
    ensures few { IfOk result (λ supposed. length supposed.list ≤ MOST_SUPPOSED) }
    ensures plain { IfOk result (λ supposed. ArePlainEntries task.now supposed.base
        supposed.list) }
    ensures fault { IfErr result (HasListCause task.now facts.now.known queue.now tried.now depth) }
{
    let mut draft = Draft::new(alloc, facts);
    for _pass in 0..depth {
        draft.pass(alloc, task, queue, tried)?;
    }
    Ok(Supposed::new(task, draft))
}
