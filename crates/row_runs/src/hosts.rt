//! The runs of rows.
ghost use Rattle.std.specs.Prelude.{◌≡◌, ℕ, false};

use crate::draft::{Draft, Log};
use crate::either_host::EitherHost;
use crate::noting_host::NotingHost;
use crate::ran::{Ran, front_of};
use crate::replies::Replies;
use gen_host::{BoxHost, ChildGen, Generator, add_idle};
use grid_world::GridGen;
use io_world::{CHILDREN, Host, MemSink, SureHost};
use pddlstream_app::{Status, run};
use std::alloc::AllocError;
use std::{io, mem};

/// How many bytes the sink takes in a call, and in all.
const SINK_PIECE: usize = 7;

const SINK_BYTES: usize = 100_000;

/// The sink of a row.
fn sink_of(draft: &mut Draft) -> Result<Box<MemSink>, AllocError> {
    let alloc = draft.alloc;
    let fails = mem::replace(&mut draft.sink_fails, Vec::new(alloc));
    let sink = MemSink::new(alloc, SINK_PIECE, SINK_BYTES, fails)?;
    Ok(Box::new(alloc, sink)?)
}

/// How the row's command ends over these children.
fn status_over<H: Host>(
    draft: &mut Draft,
    host: &mut H,
    sink: &mut MemSink,
) -> Result<Status, AllocError>
    requires { (k : ℕ) → H.running host.old k ≡ false }
    ensures { (k : ℕ) → H.running host.new k ≡ false }
{
    let mut files = draft.texts.take()?;
    Ok(run(draft.alloc, draft.words.as_slice(), &mut *files, host, sink))
}

/// What the row's command writes over these children, how it ends, and what was called.
fn run_over<H: Host>(draft: &mut Draft, host: &mut NotingHost<H>) -> io::Result<Box<Ran>>
    requires { (k : ℕ) → ⟦<NotingHost<H> as Host>⟧.running host.old k ≡ false }
{
    let alloc = draft.alloc;
    let mut sink = sink_of(draft)?;
    let status = status_over(draft, host, &mut sink)?;
    let mut ran = Box::new(alloc, Ran::new(alloc, status))?;
    ran.text = front_of(alloc, sink.taken(), draft.until.as_str())?;
    if draft.log != Log::None {
        ran.calls = host.calls(alloc)?;
    }
    Ok(ran)
}

/// The row's run. Real children are sixteen programs, and behind them the generator of the grid.
/// Children that answer by a list of requests are those of a host that never fails.
pub(crate) fn run_row(rt: &HostRuntime, draft: &mut Draft) -> io::Result<Box<Ran>> {
    let alloc = rt.alloc();
    let mut members: Vec<Box<dyn Generator>> = Vec::new(alloc);
    for _ in 0..CHILDREN - 1 {
        let member = ChildGen::new(alloc, rt.clone()?);
        add_idle(&mut members, Box::new(alloc, member)?)?;
    }
    add_idle(&mut members, Box::new(alloc, GridGen::new(alloc))?)?;
    let is_sure = draft.replies.has_some();
    let is_whole = matches!(draft.log, Log::Calls);
    let replies = mem::replace(&mut draft.replies, Replies::new(alloc));
    let host = EitherHost::new(draft.talk.take(), BoxHost::new(members), draft.is_real);
    let host = EitherHost::new(host, SureHost::new(alloc, replies), is_sure);
    run_over(draft, &mut NotingHost::new(host, is_whole))
}
