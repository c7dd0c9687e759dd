// Files of which none fails.
ghost use Rattle.std.specs.Prelude.{◌≡◌, ◌≤◌, ◌∷◌, [], List, Some, None, length, map, unwrap_or, false, IfOk};
ghost use Rattle.io_world.specs.Faults.{last_count, HasCause, Extends};
ghost use Rattle.io_world.specs.FileMap.{StoredFile, answered, ReadsFile, stored, map_or_empty};
ghost use Rattle.io_world.specs.MemFilesState.{AnswersFile};
ghost use Rattle.io_world.specs.declared.files.FileFault.TheVariants.{Failed};

use crate::files::{FileFault, Files};
use crate::lookup::{copy_within, lookup};
use std::alloc::Global;
use std::marker::Model;

/// Files in memory, where every path that isn't in the list has an empty text. Its count of faults
/// is 0. It doesn't tell which paths were asked for.
#[derive(Drop)]
pub struct SureFiles {
    alloc: Global,
    files: Vec<(String, Vec<u8>)>,
}

impl Model for SureFiles {
    ghost Value = { List StoredFile };

    ghost view = { λ s. map stored s.files.items };
}

impl SureFiles {
    /// The files with these paths and bytes; of two with one path the first counts. It takes its
    /// memory from `alloc`.
    pub fn new(alloc: Global, files: Vec<(String, Vec<u8>)>) -> SureFiles
        ensures { result ≡ map stored files.items }
    {
        SureFiles { alloc, files }
    }
}

impl Files for SureFiles {
    ghost faults = { λ s. 0 };

    ghost told = { λ s. Some (map_or_empty s) };

    ghost asked = { λ s. None };

    fn read(&mut self, path: &str, most: usize) -> Result<Vec<u8>, FileFault>
        ensures count { IfOk result (λ bytes. length bytes.items ≤ most) }
        ensures bytes { ReadsFile (Some (map_or_empty self.old)) path.now most result }
        ensures same { Some (map_or_empty self.new) ≡ Some (map_or_empty self.old) }
        ensures asked { Extends None None (answered path.now result ∷ []) }
        ensures cause { HasCause Failed last_count 0 0 result }
        ensures exact { AnswersFile false (map_or_empty self.old path.now) most result }
        ensures kept { self.new ≡ self.old }
    {
        let bytes = lookup(&self.files, path).unwrap_or(&[]);
        copy_within(self.alloc, bytes, most)
    }

    fn faults(&self) -> u64 {
        0
    }
}
