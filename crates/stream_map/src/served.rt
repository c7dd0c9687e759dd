//! Whether each stream stands once.
ghost use Rattle.std.specs.Prelude.{◌≡◌, ◌<◌, ◌++◌, ℕ, List, length, All, IfOk};
ghost use Rattle.std.specs.Bool.{OnFalse};
ghost use Rattle.std.specs.List.{list_all};
ghost use Rattle.stream_map.specs.Faults.{served_fault};
ghost use Rattle.stream_map.specs.Served.{AreMarks, has_repeat, streams_in};

use crate::fault::MapFault;
use std::alloc::{AllocError, Global};
use transcript_model::Pool;

/// Marks these streams, and tells whether one of them was marked before.
fn mark(marks: &mut Vec<bool>, streams: &[u32]) -> bool
    requires { All (λ stream. stream < length marks.old.items) streams.now }
    ensures repeat { (before : List ℕ) → AreMarks before marks.old.items
        → result ≡ has_repeat before streams.now }
    ensures marks { (before : List ℕ) → AreMarks before marks.old.items
        → OnFalse result (AreMarks (before ++ streams.now) marks.new.items) }
    ensures count { length marks.new.items ≡ length marks.old.items }
{
    for stream in streams {
        if marks[*stream as usize] {
            return true;
        }
        marks[*stream as usize] = true;
    }
    false
}

/// Whether each is marked.
fn are_all_marked(marks: &[bool]) -> bool
    ensures { result ≡ list_all (λ marked. marked) marks.now }
{
    marks.iter().all(|marked| *marked)
}

/// The fault of pools that don't serve each of so many streams once. Fails only where memory is
/// wanting.
pub(crate) fn served_fault(
    alloc: Global,
    count: usize,
    pools: &[Pool],
) -> Result<Option<MapFault>, AllocError>
    requires { All (λ stream. stream < count) (streams_in pools.now) }
    ensures { IfOk result (λ fault. fault ≡ served_fault count (streams_in pools.now)) }
{
    let mut marks = vec![in alloc; false; count]?;
    for pool in pools {
        if mark(&mut marks, pool.streams.as_slice()) {
            return Ok(Some(MapFault::Doubled));
        }
    }
    if are_all_marked(marks.as_slice()) {
        Ok(None)
    } else {
        Ok(Some(MapFault::Unserved))
    }
}
