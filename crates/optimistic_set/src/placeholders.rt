//! Placeholder objects and their names.
ghost use Rattle.std.specs.Prelude.{◌≡◌, ◌+◌, ◌<◌, ◌++◌, ◌↔◌, IsTrue, IfOk, OnOk};
ghost use Rattle.lemmas.specs.Lists.{numbers_from};
ghost use Rattle.task_model.specs.Dreams.{placeholder, placeholders};
ghost use Rattle.optimistic_set.specs.Dreamable.{AreReal};

use std::alloc::{AllocError, Global};
use task_model::{Name, Obj, Row};

/// Whether none of the names begins with `@`, as those of placeholders do.
pub fn are_real(names: &[Name]) -> bool
    ensures { IsTrue result ↔ AreReal names.now }
{
    for name in names {
        if name.bytes().first() == Some(&b'@') {
            return false;
        }
    }
    true
}

/// So many objects, with places from this one on. Fails only where memory is wanting.
pub(crate) fn fresh_objects(alloc: Global, first: u32, count: usize) -> Result<Row, AllocError>
    requires { first + count < 4294967296 }
    ensures { IfOk result (λ row. row ≡ numbers_from first count) }
{
    let mut row = Row::empty(alloc);
    for number in 0..count {
        row.push(Obj::new(first + number as u32))?;
    }
    Ok(row)
}

/// The name of the output of this number of the entry of this number, both from 1: `@`, the entry's
/// number, a dot and the output's (this project's rule).
fn placeholder_name(alloc: Global, entry: u64, output: u64) -> Result<Name, AllocError>
    ensures { IfOk result (λ name. name ≡ placeholder entry output) }
{
    let mut bytes = Vec::from_slice(alloc, b"@")?;
    bytes.extend_from_slice(entry.to_string(alloc)?.as_bytes())?;
    bytes.push(b'.')?;
    bytes.extend_from_slice(output.to_string(alloc)?.as_bytes())?;
    Ok(Name::new(bytes))
}

/// Adds the names of so many outputs of the entry of this number, at most eight.
pub(crate) fn add_placeholders(
    alloc: Global,
    names: &mut Vec<Name>,
    entry: u64,
    count: usize,
) -> Result<(), AllocError>
    requires { count < 4294967296 }
    ensures { OnOk result (names.new.items ≡ names.old.items ++ placeholders entry 1 count) }
{
    for number in 0..count {
        names.push(placeholder_name(alloc, entry, number as u64 + 1)?)?;
    }
    Ok(())
}
