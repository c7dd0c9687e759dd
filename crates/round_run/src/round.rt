//! One round: all its requests are written, and then its answers are heard, in the order of the
//! requests.
ghost use Rattle.std.specs.Prelude.{◌≡◌, ◌<◌, ◌+◌, ◌++◌, length};
ghost use Rattle.io_world.specs.Talks.{Same};
ghost use Rattle.round_run.specs.Children.{HearsLine};
ghost use Rattle.round_run.specs.Held.{is_child_running};
ghost use Rattle.round_run.specs.Open.{HearsOn, RunsRound, SendsOn, asked_to, heard_to};
ghost use Rattle.round_run.specs.Resting.{Awaits, IsUp, KeepsOthers, Listens};
ghost use Rattle.round_run.specs.Rolling.{IsRolling, finished_round};
ghost use Rattle.round_run.specs.Talking.{held_of};
ghost use Rattle.round_run.specs.Told.{course, stretch};
ghost use Rattle.round_run.specs.Batches.{AllRun};
ghost use Rattle.round_run.specs.declared.fault.RunFault.TheVariants.{Memory};
ghost use Rattle.session_core.specs.Session.{MayBeginRound};

use crate::child::{hear, send};
use crate::entry_print::print_entry;
use crate::fault::RunFault;
use crate::lines::Lines;
use instance_queue::Due;
use io_world::{Host, Sink};
use session_core::{CoreFault, Session};
use task_model::Task;

/// Why a session does nothing, as a fault of a run whose session works.
fn fault_of(_fault: CoreFault) -> RunFault
    ensures { result ≡ Memory }
{
    RunFault::Memory
}

/// Writes the request at this place of the round whole to its child, and its line.
fn send_one<H: Host, O: Sink>(
    session: &mut Session,
    host: &mut H,
    out: &mut O,
    place: usize,
) -> Result<(), RunFault>
    requires rolling { IsRolling session.old (H.running host.old) place 0 }
    requires within { place < length session.old.slots }
    ensures sends { SendsOn session.old session.new (stretch H.Host O.Sink host.old host.new out.old
        out.new) place (place + 1) (asked_to session.old place) (asked_to session.old (place + 1))
        result }
{
    let (child, request) = session.request(place);
    send(host, child, request)?;
    session.sent(child);
    print_entry(out, session.ask(place))
}

/// Writes all requests of the round, each whole to its child.
fn send_all<H: Host, O: Sink>(
    session: &mut Session,
    host: &mut H,
    out: &mut O,
    count: usize,
) -> Result<(), RunFault>
    requires rolling { IsRolling session.old (H.running host.old) 0 0 }
    requires count { count ≡ length session.old.slots }
    ensures sends { SendsOn session.old session.new (stretch H.Host O.Sink host.old host.new out.old
        out.new) 0 count session.old.entries (session.old.entries ++ session.old.asks) result }
{
    for place in 0..count {
        send_one(session, host, out, place)?;
    }
    Ok(())
}

/// Hears the next line of a child that was started.
fn hear_child<H: Host>(
    session: &mut Session,
    lines: &mut Lines,
    host: &mut H,
    child: u8,
) -> Result<(), RunFault>
    requires up { IsUp lines.old (H.running host.old) child }
    requires awaits { Awaits session.old child }
    ensures hears { HearsLine child session.old session.new (held_of lines.old child)
        (held_of lines.new child) (course H.Host host.old host.new) result }
    ensures keeps { KeepsOthers lines.old lines.new child }
{
    hear(session, &mut lines.buffers[child as usize], host, child)
}

/// Hears the answer to the request at this place of the round, and writes its line.
fn hear_one<H: Host, O: Sink>(
    session: &mut Session,
    lines: &mut Lines,
    host: &mut H,
    out: &mut O,
    place: usize,
) -> Result<(), RunFault>
    requires rolling { IsRolling session.old (H.running host.old) (length session.old.slots) place }
    requires within { place < length session.old.slots }
    requires state { Same (H.running host.old) (is_child_running lines.old) }
    ensures hears { HearsOn session.old session.new lines.old lines.new (stretch H.Host O.Sink
        host.old host.new out.old out.new) place (place + 1) (heard_to session.old session.old.slots
        place) (heard_to session.old session.new.slots (place + 1)) result }
{
    let (child, _) = session.request(place);
    hear_child(session, lines, host, child)?;
    match session.answer(place) {
        Some(answer) => print_entry(out, answer),
        None => unreachable!(),
    }
}

/// Hears all answers of the round, in the order of its requests.
fn hear_all<H: Host, O: Sink>(
    session: &mut Session,
    lines: &mut Lines,
    host: &mut H,
    out: &mut O,
    count: usize,
) -> Result<(), RunFault>
    requires rolling { IsRolling session.old (H.running host.old) count 0 }
    requires count { count ≡ length session.old.slots }
    requires state { Same (H.running host.old) (is_child_running lines.old) }
    ensures hears { HearsOn session.old session.new lines.old lines.new (stretch H.Host O.Sink
        host.old host.new out.old out.new) 0 count (session.old.entries ++ session.old.asks)
        (session.old.entries ++ session.old.asks ++ finished_round session.new.slots) result }
{
    for place in 0..count {
        hear_one(session, lines, host, out, place)?;
    }
    Ok(())
}

/// Runs a round of these asks, and learns what was answered.
pub(crate) fn run_round<H: Host, O: Sink>(
    task: &Task,
    session: &mut Session,
    lines: &mut Lines,
    host: &mut H,
    out: &mut O,
    dues: &[Due],
) -> Result<(), RunFault>
    requires round { MayBeginRound task.now session.old dues.now }
    requires all_run { AllRun session.old.pools (H.running host.old) }
    requires listens { Listens task.now session.old lines.old (H.running host.old)
        (H.spoken host.old) }
    ensures runs { RunsRound task.now dues.now session.old session.new lines.old lines.new
        (stretch H.Host O.Sink host.old host.new out.old out.new) result }
{
    let count = match session.begin_round(task, dues) {
        Ok(count) => count,
        Err(fault) => return Err(fault_of(fault)),
    };
    send_all(session, host, out, count)?;
    hear_all(session, lines, host, out, count)?;
    session.close_round();
    match session.learn(task) {
        Ok(()) => Ok(()),
        Err(fault) => Err(fault_of(fault)),
    }
}
