//! The batches of a dream, one after another.
ghost use Rattle.solve_run.specs.OnDesk.{OnAllBatches, OnNextBatch};
ghost use Rattle.std.specs.Prelude.{◌≡◌, ◌<◌, ◌≤◌, drop, length, OnOk};
ghost use Rattle.solve_run.specs.Batching.{MayGoOn};
ghost use Rattle.dream_asks.specs.Noting.{NotesAnswers};
ghost use Rattle.round_run.specs.Desk.{RestsAt};
ghost use Rattle.round_run.specs.Told.{stretch, host_told};

use dream_asks::{DreamAsk, Gone, dues_of};
use io_world::{Host, Sink};
use optimistic_set::{OptEntry, Tried};
use session_core::Session;
use std::alloc::AllocError;
use turn_run::{Batch, Desk, RunFault};

/// What a dream needs.
#[derive(Clone, Copy)]
pub(crate) struct Needs<'a> {
    /// Its entries.
    pub(crate) entries: &'a [OptEntry],
    /// How many objects had names without it.
    pub(crate) real: u32,
}

/// Notes what came for the asks, which were made with numbers from `first` on, behind so many
/// entries. Fails only where memory is wanting.
fn note(
    session: &Session,
    gone: &mut Gone,
    from: usize,
    first: u32,
    asks: &[DreamAsk],
) -> Result<(), AllocError>
    requires { from ≤ length session.now.entries }
    ensures noted { OnOk result (NotesAnswers session.now.known.names
        (drop from session.now.entries) first asks.now gone.old gone.new) }
    ensures real { gone.new.real ≡ gone.old.real }
{
    gone.note(session.facts(), &session.entries()[from..], first, asks)
}

/// Runs the next batch of the dream, as far as calls are left, or answers None where nothing is
/// left to ask.
fn next_batch<H: Host, O: Sink>(
    desk: &mut Desk<'_>,
    host: &mut H,
    out: &mut O,
    gone: &mut Gone,
    tried: &mut Tried,
    entries: &[OptEntry],
) -> Result<Option<Batch>, RunFault>
    requires rests { RestsAt desk.old (host_told H.Host host.old) }
    requires may { MayGoOn desk.old.head desk.old.task gone.old desk.old.state }
    ensures goes { OnNextBatch desk.old desk.new (stretch H.Host O.Sink host.old host.new out.old
        out.new) entries.now gone.old gone.new tried.old tried.new result }
{
    let facts = desk.session().facts();
    let queue = desk.session().queue();
    let asks = gone.next_asks(desk.task(), facts, queue, entries)?;
    if asks.as_slice().is_empty() {
        return Ok(None);
    }
    let dues = dues_of(desk.alloc(), queue, asks.as_slice())?;
    let first = desk.session().asks() + 1;
    let from = desk.session().entries().len();
    match desk.batch(host, out, dues.as_slice())? {
        Batch::CallsSpent => Ok(Some(Batch::CallsSpent)),
        Batch::Done => {
            note(desk.session(), gone, from, first, asks.as_slice())?;
            tried.join(dues.as_slice())?;
            Ok(Some(Batch::Done))
        }
    }
}

/// Runs all batches of a dream of which nothing was asked, as far as calls are left. What is asked
/// was tried then.
pub(crate) fn run_batches<H: Host, O: Sink>(
    desk: &mut Desk<'_>,
    host: &mut H,
    out: &mut O,
    tried: &mut Tried,
    needs: &Needs<'_>,
) -> Result<Batch, RunFault>
    requires rests { RestsAt desk.old (host_told H.Host host.old) }
    requires left { length desk.old.state.asked < desk.old.head.calls }
    ensures goes { OnAllBatches desk.old desk.new (stretch H.Host O.Sink host.old host.new out.old
        out.new) needs.now.real needs.now.entries.now tried.old tried.new result }
{
    let mut gone = Gone::new(desk.alloc(), needs.real);
    'batches: loop {
        let ran = next_batch(desk, host, out, &mut gone, tried, needs.entries)?;
        match ran {
            None => return Ok(Batch::Done),
            Some(ended) => match ended {
                Batch::CallsSpent => return Ok(Batch::CallsSpent),
                Batch::Done => {}
            },
        }
    }
}
