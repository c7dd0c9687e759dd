// The calls on children, with their answers.
ghost use Rattle.std.specs.Prelude.{◌≡◌, ◌+◌, ◌<◌, ◌≤◌, map, string_bytes, vec_len, vec_capacity, OnOk, OnErr, IfOk};
ghost use Rattle.io_world.specs.Logs.{Calls, Notes, Loses, no_calls};
ghost use Rattle.io_world.specs.Talks.{Event, started, wrote, heard, stopped};
ghost use Rattle.io_world.specs.Calls.{event_of};

use crate::host::HostFault;
use std::alloc::{AllocError, Global};
use std::marker::Model;

/// What was called, on which child, with what answer.
#[derive(Drop)]
pub enum Act {
    Started(u8, Vec<String>, Result<(), HostFault>),
    Wrote(u8, Vec<u8>, Result<usize, HostFault>),
    Heard(u8, usize, Result<Vec<u8>, HostFault>),
    Stopped(u8, Result<(), HostFault>),
}

/// A call, seen as an event.
#[derive(Drop)]
struct Call {
    act: Act,
}

impl Model for Call {
    ghost Value = { Event };

    ghost view = { λ s. event_of s.act };
}

/// The calls that were done, in order. It is whole as long as there was memory for each call. It can
/// keep room for stops, so that noting one of them doesn't fail.
#[derive(Drop)]
pub struct CallLog {
    alloc: Global,
    calls: Vec<Call>,
    whole: bool,
    kept: usize,
}

impl Model for CallLog {
    ghost Value = { Calls };

    ghost view = { λ s. record { events = s.calls.items; whole = s.whole; kept = s.kept } };

    ghost invariant = { λ s. vec_len s.calls + s.kept ≤ vec_capacity s.calls };
}

impl CallLog {
    /// No call yet.
    pub fn new(alloc: Global) -> CallLog
        ensures { result ≡ no_calls }
    {
        CallLog {
            alloc,
            calls: Vec::new(alloc),
            whole: true,
            kept: 0,
        }
    }

    /// Notes a start.
    ///
    /// # Errors
    /// `AllocError` where there is no memory for it. The log isn't whole from then on.
    pub fn start(
        &mut self,
        child: u8,
        argv: &[String],
        answer: Result<(), HostFault>,
    ) -> Result<(), AllocError>
        ensures ok { OnOk result (Notes self.old self.new
            (started child (map string_bytes argv.now) answer)) }
        ensures err { OnErr result (Loses self.old self.new) }
        ensures kept { self.new.kept ≡ self.old.kept }
    {
        match copy_words(self.alloc, argv) {
            Ok(words) => self.note(Act::Started(child, words, answer)),
            Err(error) => {
                self.lose();
                Err(error)
            }
        }
    }

    /// Notes a write of these bytes.
    ///
    /// # Errors
    /// As `start`.
    pub fn write(
        &mut self,
        child: u8,
        bytes: &[u8],
        answer: Result<usize, HostFault>,
    ) -> Result<(), AllocError>
        ensures ok { OnOk result (Notes self.old self.new (wrote child bytes.now answer)) }
        ensures err { OnErr result (Loses self.old self.new) }
        ensures kept { self.new.kept ≡ self.old.kept }
    {
        match Vec::from_slice(self.alloc, bytes) {
            Ok(copy) => self.note(Act::Wrote(child, copy, answer)),
            Err(error) => {
                self.lose();
                Err(error)
            }
        }
    }

    /// Notes a read that gave these bytes of a room of this size.
    ///
    /// # Errors
    /// As `start`.
    pub fn read(&mut self, child: u8, room: usize, bytes: &[u8]) -> Result<(), AllocError>
        ensures ok { OnOk result (Notes self.old self.new (heard child room (Ok bytes.now))) }
        ensures err { OnErr result (Loses self.old self.new) }
        ensures kept { self.new.kept ≡ self.old.kept }
    {
        match Vec::from_slice(self.alloc, bytes) {
            Ok(copy) => self.note(Act::Heard(child, room, Ok(copy))),
            Err(error) => {
                self.lose();
                Err(error)
            }
        }
    }

    /// Notes a read that failed.
    ///
    /// # Errors
    /// As `start`.
    pub fn miss(&mut self, child: u8, room: usize, fault: HostFault) -> Result<(), AllocError>
        ensures ok { OnOk result (Notes self.old self.new (heard child room (Err fault))) }
        ensures err { OnErr result (Loses self.old self.new) }
        ensures kept { self.new.kept ≡ self.old.kept }
    {
        self.note(Act::Heard(child, room, Err(fault)))
    }

    /// Notes a stop.
    ///
    /// # Errors
    /// As `start`.
    pub fn stop(&mut self, child: u8, answer: Result<(), HostFault>) -> Result<(), AllocError>
        ensures ok { OnOk result (Notes self.old self.new (stopped child answer)) }
        ensures err { OnErr result (Loses self.old self.new) }
        ensures kept { self.new.kept ≡ self.old.kept }
    {
        self.note(Act::Stopped(child, answer))
    }

    fn note(&mut self, act: Act) -> Result<(), AllocError>
        ensures ok { OnOk result (Notes self.old self.new (event_of act)) }
        ensures err { OnErr result (Loses self.old self.new) }
        ensures kept { self.new.kept ≡ self.old.kept }
    {
        let Ok(()) = self.calls.reserve(self.kept.saturating_add(1)) else {
            self.lose();
            return Err(AllocError);
        };
        self.calls.push_reserved(Call { act });
        Ok(())
    }

    /// Keeps room for one stop more.
    ///
    /// # Errors
    /// As `start`.
    pub fn keep(&mut self) -> Result<(), AllocError>
        ensures ok { OnOk result (self.new ≡ record self.old { kept = self.old.kept + 1 }) }
        ensures err { OnErr result (Loses self.old self.new) }
    {
        let kept = self.kept.saturating_add(1);
        let Ok(()) = self.calls.reserve(kept) else {
            self.lose();
            return Err(AllocError);
        };
        self.kept = kept;
        Ok(())
    }

    /// Notes a stop in room that was kept for it: this never fails.
    pub fn stop_kept(&mut self, child: u8, answer: Result<(), HostFault>)
        requires { 0 < self.old.kept }
        ensures noted { Notes self.old self.new (stopped child answer) }
        ensures kept { self.old.kept ≡ self.new.kept + 1 }
    {
        self.kept -= 1;
        self.calls.push_reserved(Call {
            act: Act::Stopped(child, answer),
        });
    }

    /// A call got lost for want of memory: the log isn't whole from now on.
    pub fn lose(&mut self)
        ensures { Loses self.old self.new }
    {
        self.whole = false;
    }
}

fn copy_words(alloc: Global, words: &[String]) -> Result<Vec<String>, AllocError>
    ensures { IfOk result (λ copy. map string_bytes copy.items ≡ map string_bytes words.now) }
{
    let mut copy = Vec::new(alloc);
    for word in words {
        copy.push(String::from_str(alloc, word.as_str())?)?;
    }
    Ok(copy)
}
