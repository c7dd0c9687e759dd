//! Why a map is refused.
ghost use Rattle.std.specs.Prelude.{◌≡◌};
ghost use Rattle.stream_map.specs.declared.fault.MapFault.TheVariants.{Memory};

use std::alloc::{AllocError, AllocFailed};
use thiserror::Error;

/// Why a map is refused, in the order of testing. The form and the kinds are this project's.
#[derive(Clone, Copy, Debug, PartialEq, Eq, Error)]
pub enum MapFault {
    /// The bytes aren't UTF-8, or not one JSON value (RFC 8259) of at most 127 levels whose numbers
    /// fit 64 bits or are finite floats.
    #[error("the map is no JSON")]
    Json,
    /// The value isn't of a map's form: another key, a wrong kind of value, not 1 to 64 words, no
    /// streams, or `@grid` with another number of words than one behind it.
    #[error("the map has another form")]
    Shape,
    /// A number of workers outside 1 to 16, more than 16 workers beside the grid, or `@grid` with
    /// another number than 1 or in two pools.
    #[error("the numbers of workers are wrong")]
    Workers,
    /// A stream that the task hasn't.
    #[error("the map names a stream that isn't there")]
    Unknown,
    /// A stream at two places, of one pool or of two.
    #[error("the map names a stream twice")]
    Doubled,
    /// A stream of the task at no place.
    #[error("a stream is in no pool")]
    Unserved,
    /// Memory is wanting.
    #[error("out of memory")]
    Memory,
}

impl From<AllocError> for MapFault {
    ghost from_gives = { λ _ fault. fault ≡ Memory };

    fn from(_error: AllocError) -> MapFault {
        MapFault::Memory
    }
}

impl<T: Drop> From<AllocFailed<T>> for MapFault {
    ghost from_gives = { λ _ fault. fault ≡ Memory };

    fn from(_error: AllocFailed<T>) -> MapFault {
        MapFault::Memory
    }
}
