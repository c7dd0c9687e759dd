// Files in memory.
ghost use Rattle.std.specs.Prelude.{◌≡◌, ◌≢◌, ◌++◌, option_map, ◌<◌, ◌≤◌, ◌∷◌, [], Some, length, is_none, map, IfOk, ◌||◌};
ghost use Rattle.io_world.specs.Faults.{last_count, HasCause, Counts, Extends};
ghost use Rattle.io_world.specs.Plans.{planned, after_call, fails_next};
ghost use Rattle.io_world.specs.FileMap.{answered, outcome_of, ReadsFile, map_of, stored};
ghost use Rattle.io_world.specs.MemFilesState.{MemFilesState, AnswersFile};
ghost use Rattle.io_world.specs.declared.files.FileFault.TheVariants.{Failed, Memory};

use crate::ask_log::AskLog;
use crate::fault_count::FaultCount;
use crate::files::{FileFault, Files};
use crate::lookup::{copy_within, lookup};
use crate::schedule::Schedule;
use std::alloc::Global;
use std::marker::Model;

/// Files in memory, which fail where they are told to and where there is no such path.
#[derive(Drop)]
pub struct MemFiles {
    alloc: Global,
    files: Vec<(String, Vec<u8>)>,
    schedule: Schedule,
    faults: FaultCount,
    asked: AskLog,
}

impl Model for MemFiles {
    ghost Value = { MemFilesState };

    ghost view = { λ s. record {
      files = map stored s.files.items;
      plan = s.schedule;
      faults = s.faults;
      asked = s.asked;
    } };
}

impl MemFiles {
    /// The files with these paths and bytes; of two with one path the first counts. The calls of
    /// `read` whose numbers, from 0, stand in `fails` fail. It takes its memory from `alloc`.
    pub fn new(alloc: Global, files: Vec<(String, Vec<u8>)>, fails: Vec<u64>) -> MemFiles
        ensures { result ≡ record {
          files = map stored files.items;
          plan = planned fails.items;
          faults = 0;
          asked = Some [];
        } }
    {
        MemFiles {
            alloc,
            files,
            schedule: Schedule::new(fails),
            faults: FaultCount::new(),
            asked: AskLog::new(alloc),
        }
    }

    fn answer(&self, path: &str, most: usize, fails: bool) -> Result<Vec<u8>, FileFault>
        ensures { AnswersFile (fails || is_none (map_of self.now.files path.now))
            (map_of self.now.files path.now) most result }
    {
        if fails {
            return Err(FileFault::Failed);
        }
        let Some(bytes) = lookup(&self.files, path) else {
            return Err(FileFault::Failed);
        };
        copy_within(self.alloc, bytes, most)
    }
}

impl Files for MemFiles {
    ghost faults = { λ s. s.faults };

    ghost told = { λ s. Some (map_of s.files) };

    ghost asked = { λ s. s.asked };

    fn read(&mut self, path: &str, most: usize) -> Result<Vec<u8>, FileFault>
        ensures count { IfOk result (λ bytes. length bytes.items ≤ most) }
        ensures bytes { ReadsFile (Some (map_of self.old.files)) path.now most result }
        ensures same { Some (map_of self.new.files) ≡ Some (map_of self.old.files) }
        ensures asked { Extends self.old.asked self.new.asked (answered path.now result ∷ []) }
        ensures cause { HasCause Failed last_count self.old.faults self.new.faults result }
        ensures counts { Counts Failed last_count self.old.faults self.new.faults result }
        ensures exact { AnswersFile
            (fails_next self.old.plan || is_none (map_of self.old.files path.now))
            (map_of self.old.files path.now) most result }
        ensures log { (result ≢ Err Memory) → self.new.asked
            ≡ option_map (λ asks. asks ++ answered path.now result ∷ []) self.old.asked }
        ensures kept { self.new ≡ record self.old
            { plan = after_call self.old.plan; faults = self.new.faults; asked = self.new.asked } }
    {
        let fails = self.schedule.call();
        let answer = self.answer(path, most, fails);
        let Ok(()) = self.asked.note(self.alloc, path, outcome(&answer)) else {
            return Err(FileFault::Memory);
        };
        if let Err(FileFault::Failed) = answer {
            self.faults.raise();
        }
        answer
    }

    fn faults(&self) -> u64 {
        self.faults.get()
    }
}

fn outcome(answer: &Result<Vec<u8>, FileFault>) -> Result<(), FileFault>
    ensures { result ≡ outcome_of answer.now }
{
    match answer {
        Ok(_) => Ok(()),
        Err(fault) => Err(*fault),
    }
}
