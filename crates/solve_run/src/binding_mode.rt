//! Binding mode.
ghost use Rattle.turn_run.specs.Reporting.{EndsRun, MayRun};
ghost use Rattle.round_run.specs.Told.{stretch};
ghost use Rattle.transcript_model.specs.declared.head.Mode.TheVariants.{Binding};

use crate::all_batches::AllBatches;
use crate::dream_turns::DreamTurns;
use io_world::{Host, Sink};
use optimistic_set::Tried;
use std::alloc::Global;
use task_model::Task;
use transcript_model::Head;
use turn_run::{Ran, RunFault, run_mode};

/// Solves a task in binding mode and writes the report (PDDLStream 2020; which instances are tried
/// again, and when, is this project's). While no plan exists over what is known, a plan is dreamt
/// over all that may be supposed, and what it needs is asked, batch by batch: the values that came
/// stand for its placeholders then. Where there is no dream, what was tried is forgotten, and where
/// nothing was, all that is due is asked. No child runs before, and none afterwards; that a child
/// fails to stop changes nothing.
///
/// # Errors
/// `Answer` where the line that answers a request is no answer, with the request's number;
/// `Generator` and `Write` only where the host's or the sink's count of faults rose in this call;
/// `Memory`. The lines that were written stay.
pub fn binding<H: Host, O: Sink>(
    alloc: Global,
    task: &Task,
    head: &Head,
    host: &mut H,
    out: &mut O,
) -> Result<Ran, RunFault>
    requires may { MayRun Binding task.now head.now (H.running host.old) }
    ensures ran { EndsRun task.now head.now (stretch H.Host O.Sink host.old host.new out.old
        out.new) result }
{
    let mut mode = DreamTurns {
        tried: Tried::new(alloc),
        batches: AllBatches,
    };
    run_mode(alloc, task, head, &mut mode, host, out)
}
