//! Incremental mode where the cheapest plan is asked for.
ghost use Rattle.std.specs.Prelude.{◌≡◌, true};
ghost use Rattle.turn_run.specs.Reporting.{EndsRun, MayRun};
ghost use Rattle.round_run.specs.Told.{stretch};
ghost use Rattle.transcript_model.specs.declared.head.Mode.TheVariants.{Incremental};

use crate::finders::ByCost;
use crate::level_turns::LevelTurns;
use io_world::{Host, Sink};
use std::alloc::Global;
use task_model::Task;
use transcript_model::Head;
use turn_run::{Ran, RunFault, run_mode};

/// As `incremental`, of a head that asks for the cheapest plan: of all plans over what is known when
/// one is first found, a plan is printed that costs least.
///
/// # Errors
/// `Answer` where the line that answers a request is no answer, with the request's number;
/// `Generator` and `Write` only where the host's or the sink's count of faults rose in this call;
/// `Memory`. The lines that were written stay.
pub fn optimal<H: Host, O: Sink>(
    alloc: Global,
    task: &Task,
    head: &Head,
    host: &mut H,
    out: &mut O,
) -> Result<Ran, RunFault>
    requires asked { head.now.optimal ≡ true }
    requires may { MayRun Incremental task.now head.now (H.running host.old) }
    ensures ran { EndsRun task.now head.now (stretch H.Host O.Sink host.old host.new out.old
        out.new) result }
{
    let mut mode = LevelTurns { search: ByCost };
    run_mode(alloc, task, head, &mut mode, host, out)
}
