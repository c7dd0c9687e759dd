// Calls on the host below, which are done again where they fail.
ghost use Rattle.std.specs.Prelude.{◌≡◌, ◌<◌, ℕ, List, [], true, false, length, map, string_bytes, is_ok, OnOk, OnErr};
ghost use Rattle.io_world.specs.Leads.{wants_memory};
ghost use Rattle.io_world.specs.declared.host.TheConstants.{CHILDREN};
ghost use Rattle.restart_host.specs.Kept.{IsFallen, IsKeptChild, OnlyLives};
ghost use Rattle.restart_host.specs.Steps.{BringsTo, IsFetching, IsReviving, IsSending};
ghost use Rattle.restart_host.specs.Tries.{CalledInner, Spends, Tried, refusals, seen_by_host};
ghost use Rattle.restart_host.specs.Uses.{IsEnding};

use crate::kept::{Kept, Life};
use io_world::{Host, HostFault, send_all};

/// Takes one failure from those that are still made good.
///
/// # Errors
/// The fault itself: `Failed` where none is left, and `Memory`.
pub(crate) fn spend(left: &mut u32, fault: HostFault) -> Result<(), HostFault>
    ensures { Spends fault left.old left.new result }
{
    match fault {
        HostFault::Memory => Err(HostFault::Memory),
        HostFault::Failed => {
            if *left == 0 {
                return Err(HostFault::Failed);
            }
            *left -= 1;
            Ok(())
        }
    }
}

/// Ends the child in the host below, if it runs there, and drops what is held of it. Whatever its
/// stop answers is passed over.
pub(crate) fn end<H: Host>(host: &mut H, life: &mut Life, child: u8)
    requires number { child < CHILDREN }
    requires ties { H.running host.old child ≡ life.old.alive }
    ensures down { H.running host.new child ≡ false }
    ensures fallen { IsFallen life.new }
    ensures called { (words : List (List ℕ)) → CalledInner child words H.last
        (seen_by_host H.running H.faults H.log host.old)
        (seen_by_host H.running H.faults H.log host.new) 0 (IsEnding child) }
    ensures leads { H.leads host.old host.new false }
{
    let alive = life.alive;
    life.fall();
    if alive {
        let _ = host.stop(child);
    }
}

/// Writes these bytes to a child that runs in the host below.
///
/// # Errors
/// Those of a write. The child doesn't run then.
fn send<H: Host>(host: &mut H, child: u8, bytes: &[u8]) -> Result<(), HostFault>
    requires number { child < CHILDREN }
    requires runs { H.running host.old child ≡ true }
    ensures running { H.running host.new child ≡ is_ok result }
    ensures called { (words : List (List ℕ)) → CalledInner child words H.last
        (seen_by_host H.running H.faults H.log host.old)
        (seen_by_host H.running H.faults H.log host.new)
        (refusals result) (IsSending child bytes.now result) }
    ensures leads { H.leads host.old host.new (wants_memory result) }
{
    match send_all(host, child, bytes) {
        Ok(()) => Ok(()),
        Err(fault) => {
            let _ = host.stop(child);
            Err(fault)
        }
    }
}

/// Starts the child in the host below, and writes these bytes to it.
///
/// # Errors
/// Those of the start or of a write. The child doesn't run then.
fn open<H: Host>(host: &mut H, child: u8, words: &[String], asked: &[u8]) -> Result<(), HostFault>
    requires number { child < CHILDREN }
    requires words { 0 < length words.now }
    requires idle { H.running host.old child ≡ false }
    ensures running { H.running host.new child ≡ is_ok result }
    ensures called { CalledInner child (map string_bytes words.now) H.last
        (seen_by_host H.running H.faults H.log host.old)
        (seen_by_host H.running H.faults H.log host.new)
        (refusals result)
        (IsReviving child (map string_bytes words.now) asked.now result) }
    ensures leads { H.leads host.old host.new (wants_memory result) }
{
    match host.start(child, words) {
        Ok(()) => send(host, child, asked),
        Err(fault) => Err(fault),
    }
}

/// Starts the child in the host below and writes these bytes to it, again and again as long as
/// failures are made good.
///
/// # Errors
/// `Failed` where a call failed and no failure is made good any more; `Memory`. The child doesn't
/// run then.
pub(crate) fn revive<H: Host>(
    host: &mut H,
    left: &mut u32,
    life: &mut Life,
    child: u8,
    words: &[String],
    asked: &[u8],
) -> Result<(), HostFault>
    requires number { child < CHILDREN }
    requires words { 0 < length words.now }
    requires down { IsFallen life.old × (H.running host.old child ≡ false) }
    ensures up { (life.new.alive ≡ is_ok result) × (H.running host.new child ≡ is_ok result) }
    ensures empty { (life.new.held ≡ []) × (life.new.due ≡ 0) }
    ensures tried { Tried child (map string_bytes words.now) H.last left.old left.new
        (seen_by_host H.running H.faults H.log host.old)
        (seen_by_host H.running H.faults H.log host.new)
        result (IsReviving child (map string_bytes words.now) asked.now result) }
    ensures leads { H.leads host.old host.new (wants_memory result) }
{
    match open(host, child, words, asked) {
        Ok(()) => {
            life.alive = true;
            Ok(())
        }
        Err(fault) => match spend(left, fault) {
            Ok(()) => revive(host, left, life, child, words, asked),
            Err(refused) => Err(refused),
        },
    }
}

/// Writes the last of the bytes that wait for an answer, or all of them where the child has to be
/// started again for it.
///
/// # Errors
/// As `revive`.
pub(crate) fn bring<H: Host>(
    host: &mut H,
    left: &mut u32,
    kept: &mut Kept,
    child: u8,
    bytes: &[u8],
) -> Result<(), HostFault>
    requires runs { IsKeptChild child (H.running host.old) kept.old true }
    ensures up { (kept.new.life.alive ≡ is_ok result) × (H.running host.new child ≡ is_ok result) }
    ensures kept { OnlyLives kept.old kept.new }
    ensures tried { Tried child (map string_bytes kept.old.words.items) H.last left.old left.new
        (seen_by_host H.running H.faults H.log host.old)
        (seen_by_host H.running H.faults H.log host.new)
        result (BringsTo child bytes.now kept.old kept.new result) }
    ensures leads { H.leads host.old host.new (wants_memory result) }
{
    if !kept.life.alive {
        return revive(host, left, &mut kept.life, child, &kept.words, &kept.asked);
    }
    match send(host, child, bytes) {
        Ok(()) => Ok(()),
        Err(fault) => {
            kept.life.fall();
            match spend(left, fault) {
                Ok(()) => revive(host, left, &mut kept.life, child, &kept.words, &kept.asked),
                Err(refused) => Err(refused),
            }
        }
    }
}

/// Hears a child that runs in the host below until the first line is held, or as many bytes as a
/// line may have: these are due then.
///
/// # Errors
/// Those of a read. The child doesn't run then, and what was held of it is dropped.
fn hear<H: Host>(host: &mut H, life: &mut Life, child: u8) -> Result<(), HostFault>
    requires number { child < CHILDREN }
    requires due { life.old.due ≡ 0 }
    requires alive { (life.old.alive ≡ true) × (H.running host.old child ≡ true) }
    ensures up { (life.new.alive ≡ is_ok result) × (H.running host.new child ≡ is_ok result) }
    ensures due { OnOk result (0 < life.new.due) }
    ensures fallen { OnErr result (IsFallen life.new) }
    ensures called { (words : List (List ℕ)) → CalledInner child words H.last
        (seen_by_host H.running H.faults H.log host.old)
        (seen_by_host H.running H.faults H.log host.new)
        (refusals result)
        (λ events. (asked : List ℕ) → IsFetching child asked life.old life.new result events) }
    ensures leads { H.leads host.old host.new (wants_memory result) }
{
    match life.held.hear(host, child) {
        Ok(()) => {
            life.due = life.held.first_line();
            Ok(())
        }
        Err(fault) => {
            life.fall();
            let _ = host.stop(child);
            Err(fault)
        }
    }
}

/// Has the child run in the host below, with the requests that have no answer written to it.
///
/// # Errors
/// As `revive`.
fn wake<H: Host>(host: &mut H, left: &mut u32, kept: &mut Kept, child: u8) -> Result<(), HostFault>
    requires due { kept.old.life.due ≡ 0 }
    requires runs { IsKeptChild child (H.running host.old) kept.old true }
    ensures up { (kept.new.life.alive ≡ is_ok result) × (H.running host.new child ≡ is_ok result) }
    ensures due { OnOk result (kept.new.life.due ≡ 0) }
    ensures kept { OnlyLives kept.old kept.new }
    ensures tried { Tried child (map string_bytes kept.old.words.items) H.last left.old left.new
        (seen_by_host H.running H.faults H.log host.old)
        (seen_by_host H.running H.faults H.log host.new)
        result (IsFetching child kept.old.asked.items kept.old.life kept.new.life result) }
    ensures leads { H.leads host.old host.new (wants_memory result) }
{
    if kept.life.alive {
        return Ok(());
    }
    revive(host, left, &mut kept.life, child, &kept.words, &kept.asked)
}

/// Has the first line that is held ready to be handed out, or as many bytes as a line may have.
///
/// # Errors
/// As `revive`, also where a read fails.
pub(crate) fn fetch<H: Host>(
    host: &mut H,
    left: &mut u32,
    kept: &mut Kept,
    child: u8,
) -> Result<(), HostFault>
    requires runs { IsKeptChild child (H.running host.old) kept.old true }
    ensures runs { IsKeptChild child (H.running host.new) kept.new true }
    ensures due { OnOk result (0 < kept.new.life.due) }
    ensures kept { OnlyLives kept.old kept.new }
    ensures tried { Tried child (map string_bytes kept.old.words.items) H.last left.old left.new
        (seen_by_host H.running H.faults H.log host.old)
        (seen_by_host H.running H.faults H.log host.new)
        result (IsFetching child kept.old.asked.items kept.old.life kept.new.life result) }
    ensures leads { H.leads host.old host.new (wants_memory result) }
{
    if kept.life.due > 0 {
        return Ok(());
    }
    match wake(host, left, kept, child) {
        Ok(()) => match hear(host, &mut kept.life, child) {
            Ok(()) => Ok(()),
            Err(fault) => match spend(left, fault) {
                Ok(()) => fetch(host, left, kept, child),
                Err(refused) => Err(refused),
            },
        },
        Err(refused) => Err(refused),
    }
}
