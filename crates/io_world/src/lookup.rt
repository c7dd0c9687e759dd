// Files in a list, by path.
ghost use Rattle.std.specs.Prelude.{◌≡◌, ◌<◌, map};
ghost use Rattle.io_world.specs.FileMap.{map_of, stored};
ghost use Rattle.io_world.specs.MemFilesState.{Copies};
ghost use Rattle.std.specs.Option.{option_copied};

use crate::files::FileFault;
use std::alloc::Global;

/// The bytes of the first file with this path.
pub fn lookup<'a>(files: &'a [(String, Vec<u8>)], path: &str) -> Option<&'a [u8]>
    ensures { option_copied result ≡ map_of (map stored files.now) path.now }
{
    let (file, others) = files.split_first()?;
    if file.0.as_str() == path {
        Some(file.1.as_slice())
    } else {
        lookup(others, path)
    }
}

/// A copy of these bytes, if they are at most `most`.
///
/// # Errors
/// `TooLong` where they are more, and `Memory` where there is none.
pub fn copy_within(alloc: Global, bytes: &[u8], most: usize) -> Result<Vec<u8>, FileFault>
    ensures { Copies bytes.now most result }
{
    if bytes.len() > most {
        return Err(FileFault::TooLong);
    }
    let Ok(copy) = Vec::from_slice(alloc, bytes) else {
        return Err(FileFault::Memory);
    };
    Ok(copy)
}
