//! What is said with a generator in the process.
ghost use Rattle.std.specs.Prelude.{◌≡◌, ◌+◌, ℕ, List, ◌++◌, false, length, min, take, IfOk, OnErr, OnOk};
ghost use Rattle.gen_lines.specs.Lines.{unfinished};
ghost use Rattle.grid_world.specs.Sessions.{SessionGoesOn, SessionHearsByte, KeepsGiven, left_of, new_session};

use crate::answer_line::answer_line;
use crate::ask::grid_answer;
use grid_text::{Grid, without_return};
use std::alloc::{AllocError, Global};
use std::marker::Model;

/// A grid, what was written to it and how much of its answers was given. All of it is kept, so that
/// what was said is what it is seen as.
#[derive(Drop)]
pub(crate) struct Session {
    running: bool,
    grid: Grid,
    written: Vec<u8>,
    begun: Vec<u8>,
    answers: Vec<u8>,
    given: usize,
}

impl Model for Session {
    ghost use Rattle.std.specs.Prelude.{◌≡◌, ◌≤◌, length};
    ghost use Rattle.gen_lines.specs.Lines.{unfinished};
    ghost use Rattle.grid_world.specs.AnswerLines.{answers_text};
    ghost use Rattle.grid_world.specs.Sessions.{SessionState};

    ghost Value = { SessionState };

    ghost view = { λ s. record
        { running = s.running; grid = s.grid; written = s.written.items; given = s.given } };

    ghost invariant = { λ s. (s.begun.items ≡ unfinished s.written.items)
        × (s.answers.items ≡ answers_text s.grid s.written.items)
        × (s.given ≤ length s.answers.items) };
}

/// The line that more bytes leave begun, and the answers that they bring.
#[derive(Drop)]
struct Heard {
    begun: Vec<u8>,
    answers: Vec<u8>,
}

impl Session {
    /// Nothing was said.
    pub(crate) fn new(alloc: Global, grid: Grid) -> Session
        ensures { result ≡ new_session grid }
    {
        Session {
            running: true,
            grid,
            written: Vec::new(alloc),
            begun: Vec::new(alloc),
            answers: Vec::new(alloc),
            given: 0,
        }
    }

    /// Takes these bytes, and answers each line that became whole. Fails only where memory is
    /// wanting; nothing changes then.
    pub(crate) fn send(&mut self, alloc: Global, bytes: &[u8]) -> Result<(), AllocError>
        ensures sent { OnOk result
            (self.new ≡ record self.old { written = self.old.written ++ bytes.now }) }
        ensures given { OnOk result (KeepsGiven self.old bytes.now) }
        ensures same { OnErr result (self.new ≡ self.old) }
    {
        let heard = hear(alloc, &self.grid, &self.begun, bytes)?;
        self.written.reserve(bytes.len())?;
        self.answers.reserve(heard.answers.len())?;
        let Ok(()) = self.written.extend_from_slice(bytes) else {
            unreachable!()
        };
        let Ok(()) = self.answers.extend_from_slice(&heard.answers) else {
            unreachable!()
        };
        self.begun = heard.begun;
        Ok(())
    }

    /// How many bytes of answers are left to be given.
    pub(crate) fn left(&self) -> usize
        ensures { result ≡ length (left_of self.now) }
    {
        self.answers.len() - self.given
    }

    /// Gives the first bytes of the answers that are left, as many as there is room for, and says
    /// how many.
    pub(crate) fn give(&mut self, room: &mut [u8]) -> usize
        ensures count { result ≡ min (length (left_of self.old)) (length room.old) }
        ensures given { self.new ≡ record self.old { given = self.old.given + result } }
        ensures bytes { take result room.new ≡ take result (left_of self.old) }
    {
        let count = copy_front(&self.answers[self.given..], room);
        self.given += count;
        count
    }

    /// It doesn't run any more; what was said stays.
    pub(crate) fn stop(&mut self)
        ensures { self.new ≡ record self.old { running = false } }
    {
        self.running = false;
    }
}

fn copy_front(bytes: &[u8], room: &mut [u8]) -> usize
    ensures count { result ≡ min (length bytes.now) (length room.old) }
    ensures given { take result room.new ≡ take result bytes.now }
{
    let count = bytes.len().min(room.len());
    room[..count].copy_from_slice(&bytes[..count]);
    count
}

/// Goes through bytes that come behind a line that has begun.
fn hear(alloc: Global, grid: &Grid, left: &[u8], bytes: &[u8]) -> Result<Heard, AllocError>
    ensures { IfOk result (λ heard. (written : List ℕ) → unfinished written ≡ left.now
        → SessionGoesOn grid.now written bytes.now heard.begun.items heard.answers.items) }
{
    let mut heard = Heard {
        begun: Vec::from_slice(alloc, left)?,
        answers: Vec::new(alloc),
    };
    for byte in bytes {
        hear_byte(grid, &mut heard, *byte)?;
    }
    Ok(heard)
}

/// Hears one byte more: a line feed ends the line that has begun, which is answered.
fn hear_byte(grid: &Grid, heard: &mut Heard, byte: u8) -> Result<(), AllocError>
    ensures { OnOk result (SessionHearsByte grid.now byte heard.old.begun.items
        heard.old.answers.items
        heard.new.begun.items heard.new.answers.items) }
{
    if byte == b'\n' {
        let line = answer_line(grid_answer(grid, without_return(&heard.begun)));
        heard.answers.extend_from_slice(line.as_str().as_bytes())?;
        heard.begun.clear();
    } else {
        heard.begun.push(byte)?;
    }
    Ok(())
}
