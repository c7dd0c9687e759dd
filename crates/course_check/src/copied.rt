//! Copies of entries.
ghost use Rattle.std.specs.Prelude.{◌≡◌, IfOk};

use optimistic_set::OptEntry;
use std::alloc::{AllocError, Global};

/// Equal entries. Fails only where memory is wanting.
pub(crate) fn copies(alloc: Global, entries: &[OptEntry]) -> Result<Vec<OptEntry>, AllocError>
    ensures { IfOk result (λ copies. copies.items ≡ entries.now) }
{
    let mut copies = Vec::new(alloc);
    for entry in entries {
        copies.push(entry.copy()?)?;
    }
    Ok(copies)
}
