// The beginning of a line, which is held until its line feed comes.
ghost use Rattle.std.specs.Prelude.{◌≡◌, ◌<◌, ◌≤◌, ◌++◌, [], true, length, take, IfSome, IfNone};
ghost use Rattle.std.specs.Io.KnownBytes.{Appends};
ghost use Rattle.io_world.specs.HeldLines.{IsPassedOn};

use crate::retry::write_some;
use arrayvec::ArrayVec;
use std::io::Write;
use std::marker::Model;

/// How many bytes there is room for.
const ROOM: usize = 4096;

/// Bytes that wait for the end of their line. Contracts see the list of them. No line feed is among
/// them.
#[derive(Drop)]
pub(crate) struct HeldLine {
    bytes: ArrayVec<u8, ROOM>,
}

impl Model for HeldLine {
    ghost use Rattle.std.specs.Prelude.{ℕ, List};
    ghost use Rattle.io_world.specs.HeldLines.{IsHeld};

    ghost Value = { List ℕ };

    ghost view = { λ h. h.bytes.items };

    ghost invariant = { λ h. IsHeld h.bytes.items };
}

/// Writes all of these bytes, in as many pieces as it takes, or answers false where a write fails
/// or takes nothing.
fn write_whole<W: Write>(out: &mut W, bytes: &[u8]) -> bool
    ensures { result ≡ true → Appends (W.contents out.old) (W.contents out.new) bytes.now }
{
    let mut done = 0;
    while done < bytes.len() {
        match write_some(out, &bytes[done..]) {
            Some(count) => done += count,
            None => return false,
        }
    }
    true
}

impl HeldLine {
    /// No bytes, which take no memory.
    pub(crate) fn new() -> HeldLine
        ensures { result ≡ [] }
    {
        HeldLine {
            bytes: ArrayVec::new(),
        }
    }

    /// Takes bytes, as many as there is room for and at least one, and answers how many. Where a
    /// line feed is among them, or the room is full, all that is held is written. It answers None
    /// where a write fails or takes nothing; then nothing is held.
    pub(crate) fn write<W: Write>(&mut self, out: &mut W, bytes: &[u8]) -> Option<usize>
        requires { 0 < length bytes.now }
        ensures count { IfSome result (λ n. (0 < n) × (n ≤ length bytes.now)) }
        ensures lost { IfNone result (self.new ≡ []) }
        ensures passed { IfSome result
            (λ n. IsPassedOn (W.contents out.old) (W.contents out.new)
            (self.old ++ take n bytes.now) self.new) }
    {
        let count = bytes.len().min(ROOM - self.bytes.len());
        let taken = &bytes[..count];
        let Ok(()) = self.bytes.try_extend_from_slice(taken) else {
            unreachable!()
        };
        if taken.contains(&b'\n') || self.bytes.is_full() {
            let whole = write_whole(out, self.bytes.as_slice());
            self.bytes.clear();
            if !whole {
                return None;
            }
        }
        Some(count)
    }
}
