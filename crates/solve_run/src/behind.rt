//! Batches of a dream behind a line that has them.
ghost use Rattle.solve_run.specs.OnDesk.{OnBehindLine};
ghost use Rattle.solve_run.specs.Batching.{MayRunBehind};
ghost use Rattle.round_run.specs.Desk.{RestsAt};
ghost use Rattle.round_run.specs.Told.{stretch, host_told};

use crate::batches::{Needs, run_batches};
use io_world::{Host, Sink};
use optimistic_set::Tried;
use transcript_model::Entry;
use turn_run::{Batch, Desk, RunFault};

/// Puts an entry behind the transcript that batches may follow, and runs all batches of a dream
/// behind it, as far as calls are left.
pub(crate) fn run_behind<H: Host, O: Sink>(
    desk: &mut Desk<'_>,
    host: &mut H,
    out: &mut O,
    tried: &mut Tried,
    line: Entry,
    needs: &Needs<'_>,
) -> Result<Batch, RunFault>
    requires rests { RestsAt desk.old (host_told H.Host host.old) }
    requires may { MayRunBehind desk.old.head line desk.old.state }
    ensures goes { OnBehindLine desk.old desk.new (stretch H.Host O.Sink host.old host.new out.old
        out.new) needs.now.real needs.now.entries.now line tried.old tried.new result }
{
    desk.mark(out, line)?;
    run_batches(desk, host, out, tried, needs)
}
