//! A run in any mode.
ghost use Rattle.std.specs.Prelude.{◌≡◌, ◌≤◌, cond, count_by};
ghost use Rattle.turn_run.specs.Advancing.{IsFreshMode};
ghost use Rattle.turn_run.specs.Deciding.{IsHeadFor};
ghost use Rattle.turn_run.specs.Reporting.{EndsReport, EndsRun, IsStillAt, MayRun};
ghost use Rattle.round_run.specs.Told.{stretch, host_told};
ghost use Rattle.task_model.specs.Fit.{IsFit};
ghost use Rattle.transcript_model.specs.Legal as legal;
ghost use Rattle.transcript_model.specs.declared.limits.TheConstants.{MOST_CALLS};

use crate::print::{print_end, print_head};
use crate::turn_loop::run_turns;
use crate::turns::Turns;
use io_world::{Host, Sink};
use round_run::{Desk, RunFault};
use std::alloc::Global;
use task_model::Task;
use transcript_model::{Entry, Head, Outcome};

/// A run that has an outcome.
#[derive(Drop)]
pub struct Ran {
    /// The outcome.
    pub outcome: Outcome,
    /// How many levels its transcript has.
    pub levels: u32,
    /// How many requests its transcript has.
    pub asks: u32,
}

/// How many levels an entry begins: one, or none.
fn levels_of(entry: &Entry) -> u32
    ensures { result ≡ cond (legal.is_level entry.now) 1 0 }
{
    match entry {
        Entry::Level => 1,
        _ => 0,
    }
}

/// How many levels a transcript has.
fn count_levels(entries: &[Entry]) -> u32
    requires few { count_by legal.is_level entries.now ≤ MOST_CALLS }
    ensures { result ≡ count_by legal.is_level entries.now }
{
    let mut levels = 0;
    for entry in entries {
        levels += levels_of(entry);
    }
    levels
}

/// Writes the report, turn by turn, until there is an outcome.
fn report<M: Turns, H: Host, O: Sink>(
    desk: &mut Desk<'_>,
    mode: &mut M,
    host: &mut H,
    out: &mut O,
) -> Result<Ran, RunFault>
    requires fit { IsFit desk.old.task }
    requires mode { IsHeadFor M.mode M.cheapest desk.old.head }
    requires fresh { IsFreshMode (M.kept mode.old) (M.idle mode.old) (M.holds mode.old) }
    requires still { IsStillAt desk.old (host_told H.Host host.old) }
    ensures ends { EndsReport desk.old desk.new (stretch H.Host O.Sink host.old host.new out.old
        out.new) result }
{
    let head = desk.head();
    print_head(desk.task(), head, out)?;
    let outcome = run_turns(desk, mode, host, out)?;
    print_end(out, &outcome, head.version)?;
    let session = desk.session();
    Ok(Ran {
        outcome,
        levels: count_levels(session.entries()),
        asks: session.asks(),
    })
}

/// Solves a task in the mode, which is fresh and looks for the cheapest plan exactly where the head
/// asks for it, and writes the report. No child runs before, and none afterwards; that a child fails
/// to stop changes nothing.
///
/// # Errors
/// `Answer` where the line that answers a request is no answer, with the request's number;
/// `Generator` and `Write` only where the host's or the sink's count of faults rose in this call;
/// `Memory`. The lines that were written stay.
pub fn run_mode<M: Turns, H: Host, O: Sink>(
    alloc: Global,
    task: &Task,
    head: &Head,
    mode: &mut M,
    host: &mut H,
    out: &mut O,
) -> Result<Ran, RunFault>
    requires may { MayRun M.mode task.now head.now (H.running host.old) }
    requires seeks { head.now.optimal ≡ M.cheapest }
    requires fresh { IsFreshMode (M.kept mode.old) (M.idle mode.old) (M.holds mode.old) }
    ensures ran { EndsRun task.now head.now (stretch H.Host O.Sink host.old host.new out.old
        out.new) result }
{
    let mut desk = Desk::new(alloc, task, head)?;
    let result = report(&mut desk, mode, host, out);
    desk.stop_all(host);
    result
}
