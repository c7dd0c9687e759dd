//! Requests behind a line that may have some behind it.
ghost use Rattle.turn_run.specs.Asking.{MayAskBehind, OnAskBehind};
ghost use Rattle.round_run.specs.Desk.{RestsAt};
ghost use Rattle.round_run.specs.Told.{stretch, host_told};

use instance_queue::Due;
use io_world::{Host, Sink};
use round_run::{Batch, Desk, RunFault};
use transcript_model::Entry;

/// Puts an entry behind the transcript that requests may follow, a `level` or a dream, and asks
/// these instances behind it, which are due, one at least, as long as calls are left.
///
/// # Errors
/// `Answer` where the line that answers a request is no answer; `Generator` and `Write` only where
/// the host's or the sink's count of faults rose in this call; `Memory`. Afterwards the desk may
/// only be looked at.
pub fn ask_behind<H: Host, O: Sink>(
    desk: &mut Desk<'_>,
    host: &mut H,
    out: &mut O,
    entry: Entry,
    dues: &[Due],
) -> Result<Batch, RunFault>
    requires rests { RestsAt desk.old (host_told H.Host host.old) }
    requires may { MayAskBehind desk.old.task desk.old.head entry dues.now desk.old.state }
    ensures goes { OnAskBehind desk.old desk.new (stretch H.Host O.Sink host.old host.new out.old
        out.new) entry dues.now result }
{
    desk.mark(out, entry)?;
    desk.batch(host, out, dues)
}
