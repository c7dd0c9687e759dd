//! Which mode's run a head asks for.
ghost use Rattle.turn_run.specs.Reporting.{EndsRun, MayRun};
ghost use Rattle.round_run.specs.Told.{stretch};

use io_world::{Host, Sink};
use solve_run::{Ran, RunFault, adaptive, binding, focused, incremental};
use std::alloc::Global;
use task_model::Task;
use transcript_model::{Head, Mode};

/// Solves the task in the head's mode, and writes the report.
pub(crate) fn run_in_mode<H: Host, O: Sink>(
    alloc: Global,
    task: &Task,
    head: &Head,
    host: &mut H,
    out: &mut O,
) -> Result<Ran, RunFault>
    requires may { MayRun head.now.mode task.now head.now (H.running host.old) }
    ensures ran { EndsRun task.now head.now (stretch H.Host O.Sink host.old host.new out.old
        out.new) result }
{
    match head.mode {
        Mode::Incremental => incremental(alloc, task, head, host, out),
        Mode::Focused => focused(alloc, task, head, host, out),
        Mode::Binding => binding(alloc, task, head, host, out),
        Mode::Adaptive => adaptive(alloc, task, head, host, out),
    }
}
