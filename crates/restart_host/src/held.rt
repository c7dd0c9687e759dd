// Bytes that were read and aren't handed out yet.
ghost use Rattle.std.specs.Prelude.{◌≡◌, ◌<◌, ◌≤◌, ℕ, List, [], true, length, drop, take, position, vec_capacity, IfOk, IfSome, OnOk, OnErr};
ghost use Rattle.gen_lines.specs.Lines.{is_feed};
ghost use Rattle.io_world.specs.Leads.{wants_memory};
ghost use Rattle.io_world.specs.Talks.{Same};
ghost use Rattle.io_world.specs.declared.host.TheConstants.{CHILDREN};
ghost use Rattle.restart_host.specs.Lines.{due_length};
ghost use Rattle.restart_host.specs.Steps.{IsHearing};
ghost use Rattle.restart_host.specs.Tries.{CalledInner, refusals, seen_by_host};

use gen_lines::LINE_BYTES;
use io_world::{Host, HostFault, hear_line};
use std::alloc::{AllocError, Global};
use std::marker::Model;

/// Bytes of a child that were read and aren't handed out yet, at most [`LINE_BYTES`] of them.
#[derive(Drop)]
pub(crate) struct Held {
    bytes: Vec<u8>,
}

impl Model for Held {
    ghost use Rattle.std.specs.Prelude.{ℕ, List, ◌≤◌, vec_len, vec_capacity};
    ghost use Rattle.gen_lines.specs.declared.line_buf.TheConstants.{LINE_BYTES};

    ghost Value = { List ℕ };

    ghost view = { λ h. h.bytes.items };

    ghost invariant = { λ h. (vec_len h.bytes ≤ LINE_BYTES)
        × (LINE_BYTES ≤ vec_capacity h.bytes) };
}

impl Held {
    /// No bytes, and room for [`LINE_BYTES`] of them, for which no later call takes memory.
    ///
    /// # Errors
    /// `AllocError` where there is no memory.
    pub(crate) fn new(alloc: Global) -> Result<Held, AllocError>
        ensures { IfOk result (λ held. held ≡ []) }
    {
        Ok(Held {
            bytes: Vec::with_capacity(alloc, LINE_BYTES)?,
        })
    }

    /// Drops all bytes.
    pub(crate) fn clear(&mut self)
        ensures { self.new ≡ [] }
    {
        self.bytes.clear();
    }

    /// The bytes.
    pub(crate) fn as_slice(&self) -> &[u8]
        ensures value { result.now ≡ self.now }
        ensures few { length result.now ≤ LINE_BYTES }
    {
        self.bytes.as_slice()
    }

    /// Drops the first bytes.
    pub(crate) fn drop_front(&mut self, count: usize)
        requires { count ≤ length self.old }
        ensures { self.new ≡ drop count self.old }
    {
        drop_first(&mut self.bytes, count);
    }

    /// How long the first line is, with its line feed; all bytes where none ends.
    pub(crate) fn first_line(&self) -> usize
        ensures value { result ≡ due_length self.now }
        ensures within { (result ≤ length self.now) × (length self.now ≤ LINE_BYTES) }
    {
        first_line(self.as_slice())
    }

    /// Hears a running child until a line is held, or [`LINE_BYTES`] bytes.
    ///
    /// # Errors
    /// `Failed` where a read failed; `Memory`. The same bytes are held then.
    pub(crate) fn hear<H: Host>(&mut self, host: &mut H, child: u8) -> Result<(), HostFault>
        requires number { child < CHILDREN }
        requires runs { H.running host.old child ≡ true }
        ensures some { OnOk result (0 < due_length self.new) }
        ensures kept { OnErr result (self.new ≡ self.old) }
        ensures running { Same (H.running host.old) (H.running host.new) }
        ensures called { (words : List (List ℕ)) → CalledInner child words H.last
            (seen_by_host H.running H.faults H.log host.old)
            (seen_by_host H.running H.faults H.log host.new)
            (refusals result) (IsHearing child self.old self.new result) }
        ensures leads { H.leads host.old host.new (wants_memory result) }
    {
        let mut room = [0; LINE_BYTES];
        let held = self.bytes.len();
        put_front(&mut room, &self.bytes);
        match hear_line(host, child, &mut room, held) {
            Ok(filled) => {
                self.bytes.clear();
                let _ = self.bytes.extend_from_slice(&room[..filled]);
                Ok(())
            }
            Err(fault) => Err(fault),
        }
    }
}

/// Puts these bytes at the beginning of the room.
fn put_front(room: &mut [u8], bytes: &[u8])
    requires { length bytes.now ≤ length room.old }
    ensures front { take (length bytes.now) room.new ≡ bytes.now }
    ensures size { length room.new ≡ length room.old }
{
    room[..bytes.len()].copy_from_slice(bytes);
}

/// Drops the first of these bytes, so many. The room stays.
pub(crate) fn drop_first(bytes: &mut Vec<u8>, count: usize)
    requires { count ≤ length bytes.old.items }
    ensures items { bytes.new.items ≡ drop count bytes.old.items }
    ensures room { vec_capacity bytes.new ≡ vec_capacity bytes.old }
{
    bytes.rotate_left(count);
    bytes.truncate(bytes.len() - count);
}

/// How long the first line of these bytes is, with its line feed; all bytes where none ends.
pub(crate) fn first_line(bytes: &[u8]) -> usize
    ensures value { result ≡ due_length bytes.now }
    ensures within { result ≤ length bytes.now }
{
    match first_feed(bytes) {
        Some(at) => at + 1,
        None => bytes.len(),
    }
}

/// Where the first line feed of these bytes stands.
fn first_feed(bytes: &[u8]) -> Option<usize>
    ensures value { result ≡ position is_feed bytes.now }
    ensures within { IfSome result (λ at. at < length bytes.now) }
{
    bytes.iter().position(|byte| *byte == b'\n')
}
