//! Incremental mode.
ghost use Rattle.turn_run.specs.Reporting.{EndsRun, MayRun};
ghost use Rattle.round_run.specs.Told.{stretch};
ghost use Rattle.transcript_model.specs.declared.head.Mode.TheVariants.{Incremental};

use crate::finders::ByEstimate;
use crate::level_turns::LevelTurns;
use crate::optimal_mode::optimal;
use io_world::{Host, Sink};
use std::alloc::Global;
use task_model::Task;
use transcript_model::Head;
use turn_run::{Ran, RunFault, run_mode};

/// Solves a task in incremental mode and writes the report: while no plan exists over what is
/// known, all that is due is asked, level by level. Where the head asks for the cheapest plan, the
/// run is that of `optimal`. No child runs before, and none afterwards; that a child fails to stop
/// changes nothing.
///
/// # Errors
/// `Answer` where the line that answers a request is no answer, with the request's number;
/// `Generator` and `Write` only where the host's or the sink's count of faults rose in this call;
/// `Memory`. The lines that were written stay.
pub fn incremental<H: Host, O: Sink>(
    alloc: Global,
    task: &Task,
    head: &Head,
    host: &mut H,
    out: &mut O,
) -> Result<Ran, RunFault>
    requires may { MayRun Incremental task.now head.now (H.running host.old) }
    ensures ran { EndsRun task.now head.now (stretch H.Host O.Sink host.old host.new out.old
        out.new) result }
{
    if head.optimal {
        return optimal(alloc, task, head, host, out);
    }
    let mut mode = LevelTurns { search: ByEstimate };
    run_mode(alloc, task, head, &mut mode, host, out)
}
