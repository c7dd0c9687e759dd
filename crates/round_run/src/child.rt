//! What is said with one child.
ghost use Rattle.std.specs.Prelude.{◌≡◌, ◌<◌, true, false, length, map, string_bytes};
ghost use Rattle.io_world.specs.declared.host.TheConstants.{CHILDREN};
ghost use Rattle.gen_lines.specs.declared.answer.Why.TheVariants.{TooLong};
ghost use Rattle.round_run.specs.Children.{FillsBuffer, HearsLine, SendsBytes, StartsOne, TakesLine};
ghost use Rattle.round_run.specs.Resting.{Awaits};
ghost use Rattle.round_run.specs.Rolling.{IsHostFault};
ghost use Rattle.round_run.specs.Told.{course};
ghost use Rattle.round_run.specs.declared.fault.RunFault.TheVariants.{Answer};
ghost use Rattle.session_core.specs.Heard.{number_at};
ghost use Rattle.session_core.specs.Session.{IsSession};
ghost use Rattle.session_core.specs.Slots.{IsAwaited};
ghost use Rattle.task_model.specs.declared.task.Task.{Task as AnyTask};

use crate::fault::RunFault;
use gen_lines::{LINE_BYTES, LineBuf, Seen, Why};
use io_world::{Host, HostFault, hear_line, send_all};
use session_core::{Heard, Session};

/// A host's fault as a fault of the run.
fn fault_of(fault: HostFault) -> RunFault
    ensures { IsHostFault fault result }
{
    match fault {
        HostFault::Failed => RunFault::Generator,
        HostFault::Memory => RunFault::Memory,
    }
}

/// Starts a child with its words.
pub(crate) fn start<H: Host>(host: &mut H, child: u8, argv: &[String]) -> Result<(), RunFault>
    requires number { child < CHILDREN }
    requires words { 0 < length argv.now }
    requires idle { H.running host.old child ≡ false }
    ensures starts { StartsOne child (map string_bytes argv.now) (course H.Host host.old host.new)
        result }
{
    match host.start(child, argv) {
        Ok(()) => Ok(()),
        Err(fault) => Err(fault_of(fault)),
    }
}

/// Writes a request whole to a child.
pub(crate) fn send<H: Host>(host: &mut H, child: u8, request: &[u8]) -> Result<(), RunFault>
    requires number { child < CHILDREN }
    requires runs { H.running host.old child ≡ true }
    ensures sends { SendsBytes child request.now (course H.Host host.old host.new) result }
{
    match send_all(host, child, request) {
        Ok(()) => Ok(()),
        Err(fault) => Err(fault_of(fault)),
    }
}

/// Hears a child until a line is held, or as many bytes as a line may have.
fn fill<H: Host>(host: &mut H, child: u8, buffer: &mut LineBuf) -> Result<(), RunFault>
    requires number { child < CHILDREN }
    requires runs { H.running host.old child ≡ true }
    ensures fills { FillsBuffer child buffer.old buffer.new (course H.Host host.old host.new) result }
{
    let mut bytes = [0; LINE_BYTES];
    let room = &mut bytes[..buffer.room()];
    match hear_line(host, child, room, 0) {
        Ok(count) => {
            buffer.push(&room[..count]);
            Ok(())
        }
        Err(fault) => Err(fault_of(fault)),
    }
}

/// The session takes the line of a child.
fn take_line(session: &mut Session, child: u8, line: &[u8]) -> Result<(), RunFault>
    requires working { session.old.failed ≡ false }
    requires awaited { IsAwaited session.old.slots child }
    requires few { length line.now < LINE_BYTES }
    ensures takes { TakesLine child line.now session.old session.new result }
{
    match session.line(child, line) {
        Heard::Taken { .. } => Ok(()),
        Heard::Bad { number, why } => Err(RunFault::Answer { number, why }),
    }
}

/// The session takes that a line of a child is too long.
fn take_too_long(session: &mut Session, child: u8) -> RunFault
    requires working { session.old.failed ≡ false }
    requires awaited { IsAwaited session.old.slots child }
    ensures blamed { result ≡ Answer (number_at session.old.slots child) TooLong }
    ensures kept { (task : AnyTask) → IsSession task session.old → IsSession task session.new }
{
    RunFault::Answer {
        number: session.too_long(child),
        why: Why::TooLong,
    }
}

/// Hears the next line of a child, whose request was sent, and hands it to the session.
pub(crate) fn hear<H: Host>(
    session: &mut Session,
    buffer: &mut LineBuf,
    host: &mut H,
    child: u8,
) -> Result<(), RunFault>
    requires number { child < CHILDREN }
    requires runs { H.running host.old child ≡ true }
    requires awaits { Awaits session.old child }
    ensures hears { HearsLine child session.old session.new buffer.old buffer.new (course H.Host
        host.old host.new) result }
{
    match buffer.next_line() {
        Seen::Line(line) => return take_line(session, child, line),
        Seen::TooLong => return Err(take_too_long(session, child)),
        Seen::Part => {}
    }
    fill(host, child, buffer)?;
    match buffer.next_line() {
        Seen::Line(line) => take_line(session, child, line),
        Seen::Part | Seen::TooLong => Err(take_too_long(session, child)),
    }
}
