// Calls on a child that are done on the host below and noted.
ghost use Rattle.std.specs.Prelude.{◌≡◌, ◌<◌, ◌≤◌, ◌+◌, ◌++◌, ℕ, List, true, false, length, map, take, string_bytes, vec_len, is_ok, Ok, IfOk, OnOk, MatchResult};
ghost use Rattle.io_world.specs.Faults.{last_count, Counts};
ghost use Rattle.io_world.specs.Leads.{wants_memory, IsLed};
ghost use Rattle.io_world.specs.Logs.{Notes};
ghost use Rattle.io_world.specs.Talks.{given, heard, started, stopped, wrote};
ghost use Rattle.io_world.specs.declared.host.HostFault.TheVariants.{Failed};
ghost use Rattle.restart_host.specs.Kept.{IsKeptChild, IsNew};
ghost use Rattle.restart_host.specs.Noted.{IsCallNoted, counted};
ghost use Rattle.restart_host.specs.Steps.{GivesBytes, HandsOut, IsBringing};
ghost use Rattle.restart_host.specs.Tries.{CalledInner, Tried, refusals, seen_by_host};
ghost use Rattle.restart_host.specs.Uses.{AreStarts, IsEnding};

use crate::inner::{bring, end, fetch, revive};
use crate::kept::Kept;
use io_world::{CallLog, FaultCount, Host, HostFault};

/// Counts a call that is answered as failed.
pub(crate) fn tally<T>(faults: &mut FaultCount, answer: &Result<T, HostFault>)
    ensures count { Counts Failed last_count faults.old faults.new answer.now }
    ensures later { faults.old ≤ faults.new }
{
    match answer {
        Ok(_) => {}
        Err(HostFault::Memory) => {}
        Err(HostFault::Failed) => faults.raise(),
    }
}

/// The same answer, with a number of bytes.
fn count_bytes(answer: Result<(), HostFault>, count: usize) -> Result<usize, HostFault>
    ensures { result ≡ counted answer count }
{
    match answer {
        Ok(()) => Ok(count),
        Err(fault) => Err(fault),
    }
}

/// Starts a child that doesn't run with these words, and notes it. Room for its stop is kept.
///
/// # Errors
/// As `revive`, and `Memory` where there is none for the note or that room. The child doesn't run
/// then.
pub(crate) fn start_child<H: Host>(
    host: &mut H,
    left: &mut u32,
    log: &mut CallLog,
    kept: &mut Kept,
    child: u8,
    words: Vec<String>,
) -> Result<(), HostFault>
    requires words { 0 < vec_len words }
    requires idle { IsKeptChild child (H.running host.old) kept.old false }
    ensures runs { IsKeptChild child (H.running host.new) kept.new (is_ok result) }
    ensures room { (log.old.kept ≤ log.new.kept) × OnOk result (log.new.kept ≡ log.old.kept + 1) }
    ensures fresh { OnOk result (IsNew (map string_bytes words.items) kept.new) }
    ensures noted { IsCallNoted log.old log.new
        (started child (map string_bytes words.items) result) result }
    ensures tried { Tried child (map string_bytes words.items) H.last left.old left.new
        (seen_by_host H.running H.faults H.log host.old)
        (seen_by_host H.running H.faults H.log host.new)
        result (λ events. log.new.whole ≡ true
        → AreStarts child (map string_bytes words.items) result events) }
    ensures leads { IsLed (H.leads host.old host.new) (wants_memory result) }
{
    let Ok(()) = log.keep() else {
        return Err(HostFault::Memory);
    };
    kept.words = words;
    kept.asked.clear();
    kept.running = true;
    let answer = revive(host, left, &mut kept.life, child, &kept.words, &[]);
    let Ok(()) = log.start(child, &kept.words, answer) else {
        end(host, &mut kept.life, child);
        kept.running = false;
        return Err(HostFault::Memory);
    };
    kept.running = answer.is_ok();
    answer
}

/// Writes a request to a child that runs, and notes it.
///
/// # Errors
/// As `bring`, and `Memory` where there is none for the bytes or the note. No part of the bytes
/// stays with the child.
pub(crate) fn write_child<H: Host>(
    host: &mut H,
    left: &mut u32,
    log: &mut CallLog,
    kept: &mut Kept,
    child: u8,
    bytes: &[u8],
) -> Result<usize, HostFault>
    requires runs { IsKeptChild child (H.running host.old) kept.old true }
    ensures runs { IsKeptChild child (H.running host.new) kept.new true }
    ensures all { IfOk result (λ n. n ≡ length bytes.now) }
    ensures words { kept.new.words ≡ kept.old.words }
    ensures asked { MatchResult result
        (λ _. kept.new.asked.items ≡ kept.old.asked.items ++ bytes.now)
        (λ _. kept.new.asked.items ≡ kept.old.asked.items) }
    ensures noted { (log.new.kept ≡ log.old.kept)
        × IsCallNoted log.old log.new (wrote child bytes.now result) result }
    ensures tried { Tried child (map string_bytes kept.old.words.items) H.last left.old left.new
        (seen_by_host H.running H.faults H.log host.old)
        (seen_by_host H.running H.faults H.log host.new)
        result (λ events. log.new.whole ≡ true
        → IsBringing child kept.old.asked.items bytes.now kept.old.life kept.new.life
        result events) }
    ensures leads { IsLed (H.leads host.old host.new) (wants_memory result) }
{
    let before = kept.asked.len();
    let Ok(()) = kept.asked.extend_from_slice(bytes) else {
        log.lose();
        return Err(HostFault::Memory);
    };
    let answer = count_bytes(bring(host, left, kept, child, bytes), bytes.len());
    let Ok(()) = log.write(child, bytes, answer) else {
        end(host, &mut kept.life, child);
        kept.asked.truncate(before);
        return Err(HostFault::Memory);
    };
    if answer.is_err() {
        kept.asked.truncate(before);
    }
    answer
}

/// Puts bytes of a child's next line into the room, answers how many, and notes it. The child runs.
///
/// # Errors
/// As `fetch`, and `Memory` where there is none for the note.
pub(crate) fn read_child<H: Host>(
    host: &mut H,
    left: &mut u32,
    log: &mut CallLog,
    kept: &mut Kept,
    child: u8,
    room: &mut [u8],
) -> Result<usize, HostFault>
    requires some { 0 < length room.old }
    requires runs { IsKeptChild child (H.running host.old) kept.old true }
    ensures runs { IsKeptChild child (H.running host.new) kept.new true }
    ensures count { IfOk result (λ n. (0 < n) × (n ≤ length room.new)) }
    ensures words { kept.new.words ≡ kept.old.words }
    ensures noted { (log.new.kept ≡ log.old.kept)
        × IsCallNoted log.old log.new
        (heard child (length room.old) (given result room.new)) result }
    ensures tried { Tried child (map string_bytes kept.old.words.items) H.last left.old left.new
        (seen_by_host H.running H.faults H.log host.old)
        (seen_by_host H.running H.faults H.log host.new)
        result (λ events. log.new.whole ≡ true
        → GivesBytes child kept.old kept.new (given result room.new) events) }
    ensures leads { IsLed (H.leads host.old host.new) (wants_memory result) }
{
    match fetch(host, left, kept, child) {
        Ok(()) => give(log, kept, child, room),
        Err(fault) => match log.miss(child, room.len(), fault) {
            Ok(()) => Err(fault),
            Err(_) => Err(HostFault::Memory),
        },
    }
}

/// Puts bytes that are due into the room, answers how many, and notes it.
///
/// # Errors
/// `Memory` where there is none for the note. The bytes stay due.
fn give(log: &mut CallLog, kept: &mut Kept, child: u8, room: &mut [u8]) -> Result<usize, HostFault>
    requires some { (0 < length room.old) × (0 < kept.old.life.due) }
    ensures count { IfOk result (λ n. (0 < n) × (n ≤ length room.new)) }
    ensures hands { IfOk result (λ n. HandsOut n kept.old kept.new (take n room.new)) }
    ensures kept { (kept.new.running ≡ kept.old.running) × (kept.new.words ≡ kept.old.words)
        × (kept.new.life.alive ≡ kept.old.life.alive) }
    ensures quiet { refusals result ≡ 0 }
    ensures noted { (log.new.kept ≡ log.old.kept)
        × IsCallNoted log.old log.new
        (heard child (length room.old) (given result room.new)) result }
{
    let size = room.len();
    let count = kept.life.due.min(size);
    room[..count].copy_from_slice(&kept.life.held.as_slice()[..count]);
    match log.read(child, size, &room[..count]) {
        Ok(()) => {
            kept.hand_out(count);
            Ok(count)
        }
        Err(_) => Err(HostFault::Memory),
    }
}

/// Ends a child, and notes it in room that was kept.
pub(crate) fn stop_child<H: Host>(host: &mut H, log: &mut CallLog, kept: &mut Kept, child: u8)
    requires room { 0 < log.old.kept }
    requires runs { IsKeptChild child (H.running host.old) kept.old true }
    ensures idle { IsKeptChild child (H.running host.new) kept.new false }
    ensures noted { (log.old.kept ≡ log.new.kept + 1)
        × Notes log.old log.new (stopped child (Ok tt)) }
    ensures called { (words : List (List ℕ)) → CalledInner child words H.last
        (seen_by_host H.running H.faults H.log host.old)
        (seen_by_host H.running H.faults H.log host.new) 0 (IsEnding child) }
    ensures leads { H.leads host.old host.new false }
{
    end(host, &mut kept.life, child);
    kept.running = false;
    log.stop_kept(child, Ok(()));
}
