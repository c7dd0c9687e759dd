// Files of the file system.
ghost use Rattle.std.specs.Prelude.{◌≡◌, ◌≤◌, [], ◌∷◌, None, length, IfOk, IsErrOf};
ghost use Rattle.io_world.specs.Faults.{last_count, HasCause, Counts, Extends};
ghost use Rattle.io_world.specs.FileMap.{answered, ReadsFile, Holds, IsLonger};
ghost use Rattle.io_world.specs.declared.files.FileFault.TheVariants.{Failed, TooLong};

use crate::fault_count::FaultCount;
use crate::files::{FileFault, Files};
use crate::retry::read_some;
use std::alloc::Global;
use std::io::Read;
use std::{fs, rt};

const PIECE: usize = 8192;

/// The files of a runtime. It tells nothing of what they hold, nor which were asked for.
#[derive(Drop)]
pub struct RealFiles<R> {
    alloc: Global,
    rt: R,
    faults: FaultCount,
}

impl<R: rt::Files + Drop> RealFiles<R> {
    /// The files of this runtime. It takes its memory from `alloc`.
    pub fn new(alloc: Global, rt: R) -> RealFiles<R>
        ensures { ⟦<RealFiles<R> as Files>⟧.faults result ≡ 0 }
    {
        RealFiles {
            alloc,
            rt,
            faults: FaultCount::new(),
        }
    }
}

impl<R: rt::Files + Drop> Files for RealFiles<R> {
    ghost faults = { λ s. s.faults };

    ghost told = { λ s. None };

    ghost asked = { λ s. None };

    /// It reads in pieces, and no further than the first piece past `most`.
    fn read(&mut self, path: &str, most: usize) -> Result<Vec<u8>, FileFault>
        ensures count { IfOk result (λ bytes. length bytes.items ≤ most) }
        ensures bytes { ReadsFile None path.now most result }
        ensures asked { Extends None None (answered path.now result ∷ []) }
        ensures cause { HasCause Failed last_count self.old.faults self.new.faults result }
        ensures counts { Counts Failed last_count self.old.faults self.new.faults result }
    {
        let answer = match fs::open(&self.rt, path) {
            Ok(file) => read_within(self.alloc, file, most),
            Err(_) => Err(FileFault::Failed),
        };
        if let Err(FileFault::Failed) = answer {
            self.faults.raise();
        }
        answer
    }

    fn faults(&self) -> u64 {
        self.faults.get()
    }
}

/// All bytes of a reader, if they are at most `most`. It reads no further than the first piece past
/// that.
fn read_within<F: Read + Drop>(
    alloc: Global,
    mut file: F,
    most: usize,
) -> Result<Vec<u8>, FileFault>
    ensures count { IfOk result (λ bytes. length bytes.items ≤ most) }
    ensures all { IfOk result (λ bytes. Holds (F.remaining file) bytes.items) }
    ensures long { IsErrOf result TooLong → IsLonger (F.remaining file) most }
{
    let mut bytes = Vec::new(alloc);
    let mut piece = [0; PIECE];
    for _ in 0..u64::MAX {
        let Some(count) = read_some(&mut file, &mut piece) else {
            return Err(FileFault::Failed);
        };
        if count == 0 {
            return Ok(bytes);
        }
        if count > most - bytes.len() {
            return Err(FileFault::TooLong);
        }
        let Ok(()) = bytes.extend_from_slice(&piece[..count]) else {
            return Err(FileFault::Memory);
        };
    }
    Err(FileFault::Failed)
}
