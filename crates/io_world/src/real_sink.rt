// Standard output as a sink.
ghost use Rattle.std.specs.Prelude.{◌≡◌, ◌<◌, ◌≤◌, None, length, IfOk};
ghost use Rattle.std.specs.Io.KnownBytes.{WriteAppends};
ghost use Rattle.io_world.specs.Faults.{last_count, HasCause, Counts};
ghost use Rattle.io_world.specs.declared.sink.SinkFault.TheVariants.{Failed};

use crate::fault_count::FaultCount;
use crate::held_line::HeldLine;
use crate::sink::{Sink, SinkFault};
use std::io;

/// Standard output. It tells nothing of what it took. It holds the beginning of a line until the
/// line feed comes or 4,096 bytes are held, and a whole line is written at once. A write that
/// fails, or takes nothing, is a fault, and what was held is lost; one that was interrupted is done
/// again.
#[derive(Drop)]
pub struct RealSink<R> {
    rt: R,
    line: HeldLine,
    faults: FaultCount,
}

impl<R: Print + Drop> RealSink<R> {
    /// The standard output of this runtime.
    pub fn new(rt: R) -> RealSink<R>
        ensures { ⟦<RealSink<R> as Sink>⟧.faults result ≡ 0 }
    {
        RealSink {
            rt,
            line: HeldLine::new(),
            faults: FaultCount::new(),
        }
    }
}

impl<R: Print + Drop> Sink for RealSink<R> {
    ghost faults = { λ s. s.faults };

    ghost taken = { λ s. None };

    fn write(&mut self, bytes: &[u8]) -> Result<usize, SinkFault>
        requires { 0 < length bytes.now }
        ensures count { IfOk result (λ n. (0 < n) × (n ≤ length bytes.now)) }
        ensures bytes { WriteAppends None None result bytes.now }
        ensures cause { HasCause Failed last_count self.old.faults self.new.faults result }
        ensures counts { Counts Failed last_count self.old.faults self.new.faults result }
    {
        if let Some(count) = self.line.write(&mut io::writer(&self.rt), bytes) {
            return Ok(count);
        }
        self.faults.raise();
        Err(SinkFault::Failed)
    }

    fn faults(&self) -> u64 {
        self.faults.get()
    }
}
