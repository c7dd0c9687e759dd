//! The bytes that a child has written, cut into lines however they come.
ghost use Rattle.std.specs.Prelude.{◌≡◌, ◌+◌, ◌≤◌, [], ◌++◌, length, position, IfOk};
ghost use Rattle.std.specs.Borrow.{sem};
ghost use Rattle.std.specs.Io.BufRead.{Rests, strip_last};
ghost use Rattle.gen_lines.specs.contracts.line_buf.LineBuf.{the_row};
ghost use Rattle.gen_lines.specs.Lines.{is_feed, left_after, IsShownShort, Shows};

use std::alloc::{AllocError, Global};
use std::marker::Model;

/// The most bytes of a line as it came, without its line feed.
pub const LINE_LENGTH: usize = 1024;

/// The bytes that a [`LineBuf`] holds at most: those of a longest line and its line feed.
pub const LINE_BYTES: usize = 1025;

/// The bytes of a child that came and aren't taken as lines yet, at most [`LINE_BYTES`] of them.
#[derive(Drop)]
pub struct LineBuf {
    bytes: Vec<u8>,
    start: usize,
}

impl Model for LineBuf {
    ghost use Rattle.std.specs.Prelude.{ℕ, List, ◌≤◌, drop, vec_len, vec_capacity};
    ghost use Rattle.gen_lines.specs.declared.line_buf.TheConstants.{LINE_BYTES};

    ghost Value = { List ℕ };

    ghost view = { λ b. drop b.start b.bytes.items };

    ghost invariant = { λ b. (b.start ≤ vec_len b.bytes) × (vec_len b.bytes ≤ LINE_BYTES)
        × (LINE_BYTES ≤ vec_capacity b.bytes) };
}

/// What the bytes that are held begin with.
#[derive(Clone, Copy, Debug, PartialEq, Eq)]
pub enum Seen<'a> {
    /// A line, without its line feed and without one carriage return directly before it.
    Line(&'a [u8]),
    /// No line feed is held, and there is room for more bytes.
    Part,
    /// [`LINE_BYTES`] bytes are held, and none of them is a line feed.
    TooLong,
}

impl LineBuf {
    /// A buffer that holds nothing and has room for [`LINE_BYTES`] bytes, for which no later call
    /// takes memory. Fails only where memory is wanting.
    pub fn new(alloc: Global) -> Result<LineBuf, AllocError>
        ensures { IfOk result (λ b. b ≡ []) }
    {
        let bytes = Vec::with_capacity(alloc, LINE_BYTES)?;
        Ok(LineBuf { bytes, start: 0 })
    }

    /// How many further bytes can be pushed.
    pub fn room(&self) -> usize
        ensures { result + length self.now ≡ LINE_BYTES }
    {
        LINE_BYTES - (self.bytes.len() - self.start)
    }

    /// Holds these bytes, at most [`LineBuf::room`] of them, after those that are held.
    pub fn push(&mut self, bytes: &[u8])
        requires { length self.old + length bytes.now ≤ LINE_BYTES }
        ensures { self.new ≡ self.old ++ bytes.now }
    {
        self.bytes.rotate_left(self.start);
        self.bytes.truncate(self.bytes.len() - self.start);
        self.start = 0;
        let _ = self.bytes.extend_from_slice(bytes);
    }

    fn held(&self) -> &[u8]
        ensures { result.now ≡ self.now }
    {
        &self.bytes[self.start..]
    }

    /// Takes the first line out and shows it, if one is held whole; else nothing changes.
    pub fn next_line(&mut self) -> Seen<'_>
        ensures* after { sem 𝓛
            (Rests the_row self.entry (λ new. new ≡ left_after self.old result)) }
        ensures shown { Shows self.old result }
        ensures short { IsShownShort self.old result }
    {
        let from = self.start;
        let Some(length) = first_feed(self.held()) else {
            return if self.room() == 0 {
                Seen::TooLong
            } else {
                Seen::Part
            };
        };
        self.start = from + length + 1;
        Seen::Line(without_return(&self.bytes[from..from + length]))
    }
}

/// Where the first line feed of these bytes stands.
fn first_feed(bytes: &[u8]) -> Option<usize>
    ensures { result ≡ position is_feed bytes.now }
{
    bytes.iter().position(|b| *b == b'\n')
}

/// A line's bytes without one carriage return at their end.
fn without_return(bytes: &[u8]) -> &[u8]
    ensures { result.now ≡ strip_last 13 bytes.now }
{
    match bytes {
        [line @ .., b'\r'] => line,
        _ => bytes,
    }
}
