// What is said with a child.
ghost use Rattle.std.specs.Prelude.{◌≡◌, ◌<◌, ◌≤◌, ◌++◌, ℕ, List, true, length, take, drop, OnOk, OnErr, IfOk, IfErr};
ghost use Rattle.io_world.specs.Faults.{HasCause};
ghost use Rattle.io_world.specs.Leads.{wants_memory};
ghost use Rattle.io_world.specs.Replies.{IsLine};
ghost use Rattle.io_world.specs.Talks.{Same, Writes, Hears, FillsRoom, LogsTaken, LogsTakenPart, LogsGiven, LogsGivenPart};
ghost use Rattle.io_world.specs.declared.host.HostFault.TheVariants.{Failed};
ghost use Rattle.io_world.specs.declared.host.TheConstants.{CHILDREN};

use crate::host::{Host, HostFault};
use crate::pieces::has_line;

/// Writes all of these bytes to a running child.
///
/// # Errors
/// `Failed` where a write failed; the count of faults rose. `Memory` where there was none. The
/// child took the first bytes then, but not all.
pub fn send_all<H: Host>(host: &mut H, child: u8, bytes: &[u8]) -> Result<(), HostFault>
    requires number { child < CHILDREN }
    requires runs { H.running host.old child ≡ true }
    ensures running { Same (H.running host.old) (H.running host.new) }
    ensures all { OnOk result (Writes child bytes.now (H.spoken host.old) (H.spoken host.new)) }
    ensures part { OnErr result ((n : ℕ) × (n < length bytes.now)
        × Writes child (take n bytes.now) (H.spoken host.old) (H.spoken host.new)) }
    ensures log { OnOk result (LogsTaken child bytes.now (H.log host.old) (H.log host.new)) }
    ensures log_part { IfErr result
        (λ fault. LogsTakenPart child bytes.now fault (H.log host.old) (H.log host.new)) }
    ensures cause { HasCause Failed H.last (H.faults host.old) (H.faults host.new) result }
    ensures leads { H.leads host.old host.new (wants_memory result) }
{
    let mut done = 0;
    while done < bytes.len() {
        done += host.write(child, &bytes[done..])?;
    }
    Ok(())
}

/// Hears a running child until the room holds a line feed, or is full, and answers how many bytes
/// of the room are held then. The first `held` bytes of the room are held before, and stay. It
/// reads only while no line feed is held.
///
/// # Errors
/// `Failed` where a read failed; the count of faults rose. `Memory` where there was none. The bytes
/// that were heard before hold no line feed, and are lost.
pub fn hear_line<H: Host>(
    host: &mut H,
    child: u8,
    room: &mut [u8],
    held: usize,
) -> Result<usize, HostFault>
    requires number { child < CHILDREN }
    requires runs { H.running host.old child ≡ true }
    requires within { held ≤ length room.old }
    ensures room { FillsRoom held room.old room.new result }
    ensures running { Same (H.running host.old) (H.running host.new) }
    ensures spoken { IfOk result (λ n. Hears child (drop held (take n room.new)) (H.spoken host.old)
        (H.spoken host.new)) }
    ensures part { OnErr result ((bytes : List ℕ) × IsLine (take held room.old ++ bytes)
        × Hears child bytes (H.spoken host.old) (H.spoken host.new)) }
    ensures log { IfOk result (λ n. LogsGiven child (take held room.old)
        (drop held (take n room.new)) (H.log host.old) (H.log host.new)) }
    ensures log_part { IfErr result
        (λ fault. LogsGivenPart child (take held room.old) fault (H.log host.old)
        (H.log host.new)) }
    ensures cause { HasCause Failed H.last (H.faults host.old) (H.faults host.new) result }
    ensures leads { H.leads host.old host.new (wants_memory result) }
{
    let mut filled = held;
    while filled < room.len() && !has_line(&room[..filled]) {
        match host.read(child, &mut room[filled..]) {
            Ok(count) => filled += count,
            Err(fault) => return Err(fault),
        }
    }
    Ok(filled)
}
