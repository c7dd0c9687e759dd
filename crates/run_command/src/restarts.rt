//! A run whose children are started again where they fail.
ghost use Rattle.std.specs.Prelude.{◌≡◌, ◌<◌};
ghost use Rattle.io_world.specs.Logs.{no_calls};
ghost use Rattle.round_run.specs.Told.{stretch};
ghost use Rattle.run_command.specs.Heard.{EndsHeard};
ghost use Rattle.turn_run.specs.Reporting.{MayRun};

use crate::dispatch::run_in_mode;
use io_world::{Host, Sink};
use restart_host::{IdleChildren, RestartHost};
use solve_run::{Ran, RunFault};
use std::alloc::Global;
use task_model::Task;
use transcript_model::Head;

/// Solves the task in the head's mode, over a host that starts its children again where they fail.
fn run_again<'a, H: Host, O: Sink>(
    alloc: Global,
    task: &Task,
    head: &Head,
    outer: &mut RestartHost<'a, H>,
    out: &mut O,
) -> Result<Ran, RunFault>
    requires may { MayRun head.now.mode task.now head.now
        (⟦<RestartHost<'a, H> as Host>⟧.running outer.old) }
    requires some { 0 < outer.old.left }
    requires fresh { (outer.old.log ≡ no_calls) × (outer.old.faults ≡ 0) }
    ensures same { outer.new.host.ghost_name ≡ outer.old.host.ghost_name }
    ensures ran { EndsHeard outer.old.left task.now head.now (stretch H.Host O.Sink
        outer.old.host.now outer.new.host.now out.old out.new) result }
{
    run_in_mode(alloc, task, head, outer, out)
}

/// Solves the task in the head's mode, and writes the report. So many failures of the children are
/// made good by starting them again.
pub(crate) fn run_with_restarts<H: Host, O: Sink>(
    alloc: Global,
    task: &Task,
    head: &Head,
    restarts: u32,
    host: &mut H,
    out: &mut O,
) -> Result<Ran, RunFault>
    requires may { MayRun head.now.mode task.now head.now (H.running host.old) }
    ensures ran { EndsHeard restarts task.now head.now
        (stretch H.Host O.Sink host.old host.new out.old out.new) result }
{
    if restarts == 0 {
        return run_in_mode(alloc, task, head, host, out);
    }
    let children = IdleChildren::new(alloc)?;
    let mut outer = RestartHost::new(alloc, host, restarts, children);
    let result = run_again(alloc, task, head, &mut outer, out);
    outer.into_inner();
    result
}
