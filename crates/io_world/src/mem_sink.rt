// A sink in memory.
ghost use Rattle.std.specs.Prelude.{◌≡◌, ◌<◌, ◌≤◌, ◌-◌, [], Some, length, min, vec_capacity, IfOk};
ghost use Rattle.std.specs.Io.KnownBytes.{WriteAppends};
ghost use Rattle.io_world.specs.Faults.{last_count, HasCause, Counts};
ghost use Rattle.io_world.specs.Plans.{planned, after_call, FailsWhere};
ghost use Rattle.io_world.specs.MemSinkState.{MemSinkState, room_left, refuses_next};
ghost use Rattle.io_world.specs.declared.sink.SinkFault.TheVariants.{Failed};

use crate::fault_count::FaultCount;
use crate::schedule::Schedule;
use crate::sink::{Sink, SinkFault};
use std::alloc::{AllocError, Global};
use std::marker::Model;

/// A sink that keeps what it took, takes pieces of a stated size, and fails where it is told to and
/// where its room is used up.
#[derive(Drop)]
pub struct MemSink {
    piece: usize,
    room: usize,
    schedule: Schedule,
    faults: FaultCount,
    bytes: Vec<u8>,
}

impl Model for MemSink {
    ghost Value = { MemSinkState };

    ghost view = { λ s. record {
      piece = s.piece;
      room = s.room;
      plan = s.schedule;
      faults = s.faults;
      bytes = s.bytes.items;
    } };

    ghost invariant = { λ s. (0 < s.piece) × (length s.bytes.items ≤ s.room)
        × (s.room ≤ vec_capacity s.bytes) };
}

impl MemSink {
    /// An empty sink for `room` bytes, all of whose memory is taken at once. One write takes at
    /// most `piece` bytes. The calls of `write` whose numbers, from 0, stand in `fails` fail.
    ///
    /// # Errors
    /// `AllocError` where there is no memory.
    pub fn new(
        alloc: Global,
        piece: usize,
        room: usize,
        fails: Vec<u64>,
    ) -> Result<MemSink, AllocError>
        requires { 0 < piece }
        ensures { IfOk result (λ sink. sink
            ≡ record {
              piece = piece;
              room = room;
              plan = planned fails.items;
              faults = 0;
              bytes
                  = [];
            }) }
    {
        Ok(MemSink {
            piece,
            room,
            schedule: Schedule::new(fails),
            faults: FaultCount::new(),
            bytes: Vec::with_capacity(alloc, room)?,
        })
    }

    /// The bytes taken so far.
    pub fn taken(&self) -> &[u8]
        ensures { result.now ≡ self.now.bytes }
    {
        self.bytes.as_slice()
    }
}

impl Sink for MemSink {
    ghost faults = { λ s. s.faults };

    ghost taken = { λ s. Some s.bytes };

    /// It takes as much as the piece and the room that is left allow.
    fn write(&mut self, bytes: &[u8]) -> Result<usize, SinkFault>
        requires { 0 < length bytes.now }
        ensures count { IfOk result (λ n. (0 < n) × (n ≤ length bytes.now)) }
        ensures bytes { WriteAppends (Some self.old.bytes) (Some self.new.bytes) result bytes.now }
        ensures cause { HasCause Failed last_count self.old.faults self.new.faults result }
        ensures counts { Counts Failed last_count self.old.faults self.new.faults result }
        ensures most { IfOk result (λ n. n
            ≡ min (length bytes.now) (min self.old.piece (room_left self.old))) }
        ensures fails { FailsWhere Failed (refuses_next self.old) result }
        ensures kept { self.new ≡ record self.old
            { plan = after_call self.old.plan; faults = self.new.faults; bytes = self.new.bytes } }
    {
        let fails = self.schedule.call();
        let count = bytes
            .len()
            .min(self.piece)
            .min(self.room - self.bytes.len());
        if fails {
            self.faults.raise();
            return Err(SinkFault::Failed);
        }
        if count == 0 {
            self.faults.raise();
            return Err(SinkFault::Failed);
        }
        let Ok(()) = self.bytes.extend_from_slice(&bytes[..count]) else {
            unreachable!()
        };
        Ok(count)
    }

    fn faults(&self) -> u64 {
        self.faults.get()
    }
}
