// Standard input as a source.
ghost use Rattle.std.specs.Prelude.{◌≡◌, ◌<◌, None, length};
ghost use Rattle.std.specs.Io.{ReadsAtMost};
ghost use Rattle.std.specs.Io.KnownBytes.{ReadConsumes};
ghost use Rattle.io_world.specs.Faults.{last_count, HasCause, Counts};
ghost use Rattle.io_world.specs.declared.source.SourceFault.TheVariants.{Failed};

use crate::fault_count::FaultCount;
use crate::retry::read_some;
use crate::source::{Source, SourceFault};

/// Standard input. It tells nothing of what is left. A read that fails is a fault; one that was
/// interrupted is done again.
#[derive(Drop)]
pub struct RealSource<R: Input> {
    rt: R,
    reader: R::Reader,
    faults: FaultCount,
}

impl<R: Input + Drop> RealSource<R> {
    /// The standard input of this runtime.
    pub fn new(rt: R) -> RealSource<R>
        ensures { ⟦<RealSource<R> as Source>⟧.faults result ≡ 0 }
    {
        let reader = rt.reader();
        RealSource {
            rt,
            reader,
            faults: FaultCount::new(),
        }
    }
}

impl<R: Input + Drop> Source for RealSource<R> {
    ghost faults = { λ s. s.faults };

    ghost left = { λ s. None };

    fn read(&mut self, room: &mut [u8]) -> Result<usize, SourceFault>
        requires { 0 < length room.old }
        ensures count { ReadsAtMost result room.new }
        ensures bytes { ReadConsumes None None result room.new }
        ensures cause { HasCause Failed last_count self.old.faults self.new.faults result }
        ensures counts { Counts Failed last_count self.old.faults self.new.faults result }
    {
        if let Some(count) = read_some(&mut self.reader, room) {
            return Ok(count);
        }
        self.faults.raise();
        Err(SourceFault::Failed)
    }

    fn faults(&self) -> u64 {
        self.faults.get()
    }
}
