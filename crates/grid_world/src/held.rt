//! The bytes that came from a source and aren't taken as lines yet.
ghost use Rattle.std.specs.Prelude.{◌≡◌, ◌+◌, ◌<◌, ◌≤◌, [], Some, drop, length, position, take, IfOk, OnErr};
ghost use Rattle.std.specs.Io.BufRead.{strip_last};
ghost use Rattle.std.specs.Io.KnownBytes.{Keeps};
ghost use Rattle.gen_lines.specs.Lines.{is_feed};
ghost use Rattle.io_world.specs.Faults.{last_count, HasCause};
ghost use Rattle.io_world.specs.declared.source.SourceFault.TheVariants.{Failed};
ghost use Rattle.grid_world.specs.Answers.{answer_in};
ghost use Rattle.grid_world.specs.Filling.{Came, HoldsMore, FillsSo, IsCaused};

use crate::answer::GridAnswer;
use crate::ask::grid_answer;
use grid_text::{Grid, first_feed, without_return};
use io_world::{Source, SourceFault};
use std::alloc::{AllocError, Global};
use std::marker::Model;

/// The most bytes that are held: a line of 4,096 bytes and its line feed.
pub(crate) const HELD_BYTES: usize = 4097;

/// The bytes that came and aren't taken as lines yet, at most [`HELD_BYTES`] of them.
#[derive(Drop)]
pub(crate) struct Held {
    bytes: Vec<u8>,
}

impl Model for Held {
    ghost use Rattle.std.specs.Prelude.{ℕ, List, ◌≤◌, vec_len, vec_capacity};

    ghost Value = { List ℕ };

    ghost view = { λ h. h.bytes.items };

    ghost invariant = { λ h. (vec_len h.bytes ≤ 4097) × (4097 ≤ vec_capacity h.bytes) };
}

/// How a wait for a line ended.
#[derive(Clone, Copy, Debug, PartialEq, Eq)]
pub(crate) enum Filled {
    /// A line is held; its line feed stands here.
    Line(usize),
    /// The source ended, and no line feed is held.
    End,
    /// As many bytes as may be are held, and no line feed among them.
    TooLong,
    /// The source failed.
    Failed,
}

impl Held {
    /// Nothing is held. No later call takes memory. Fails only where memory is wanting.
    pub(crate) fn new(alloc: Global) -> Result<Held, AllocError>
        ensures { IfOk result (λ held. held ≡ []) }
    {
        let bytes = Vec::with_capacity(alloc, HELD_BYTES)?;
        Ok(Held { bytes })
    }

    /// Reads once, as much as there is room for: there has to be some.
    fn read_more<S: Source>(&mut self, source: &mut S) -> Result<usize, SourceFault>
        requires { length self.old < HELD_BYTES }
        ensures came { IfOk result (λ n. HoldsMore n (S.left source.old) (S.left source.new)
            self.old
            self.new) }
        ensures same { OnErr result (self.new ≡ self.old) }
        ensures kept { OnErr result (Keeps (S.left source.old) (S.left source.new)) }
        ensures cause { HasCause Failed last_count (S.faults source.old) (S.faults source.new)
            result }
    {
        let mut piece = [0; HELD_BYTES];
        let room = HELD_BYTES - self.bytes.len();
        let count = source.read(&mut piece[..room])?;
        let Ok(()) = self.bytes.extend_from_slice(&piece[..count]) else {
            unreachable!()
        };
        Ok(count)
    }

    /// Reads until a line feed is held.
    pub(crate) fn fill<S: Source>(&mut self, source: &mut S) -> Filled
        ensures came { Came (S.left source.old) (S.left source.new) self.old self.new }
        ensures so { FillsSo self.new (S.left source.new) result }
        ensures few { length self.new ≤ HELD_BYTES }
        ensures cause { IsCaused (S.faults source.old) (S.faults source.new) result }
    {
        'reads: loop {
            if let Some(end) = first_feed(&self.bytes) {
                return Filled::Line(end);
            }
            if self.bytes.len() == HELD_BYTES {
                return Filled::TooLong;
            }
            match self.read_more(source) {
                Ok(0) => return Filled::End,
                Ok(_) => {}
                Err(SourceFault::Failed) => return Filled::Failed,
            }
        }
    }

    /// The answer to the first line, whose line feed stands here.
    pub(crate) fn answer(&self, grid: &Grid, end: usize) -> GridAnswer
        requires { position is_feed self.now ≡ Some end }
        ensures { result ≡ answer_in grid.now (strip_last 13 (take end self.now)) }
    {
        grid_answer(grid, without_return(front(&self.bytes, end)))
    }

    /// Drops the first line with its line feed, which stands here.
    pub(crate) fn drop_line(&mut self, end: usize)
        requires feed { position is_feed self.old ≡ Some end }
        requires within { end < HELD_BYTES }
        ensures { self.new ≡ drop (end + 1) self.old }
    {
        self.drop_front(end + 1);
    }

    fn drop_front(&mut self, count: usize)
        requires { count ≤ length self.old }
        ensures { self.new ≡ drop count self.old }
    {
        self.bytes.rotate_left(count);
        self.bytes.truncate(self.bytes.len() - count);
    }
}

fn front(bytes: &[u8], end: usize) -> &[u8]
    requires { end ≤ length bytes.now }
    ensures { result.now ≡ take end bytes.now }
{
    &bytes[..end]
}
