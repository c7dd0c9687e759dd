//! A short list of types.
ghost use Rattle.std.specs.Prelude.{◌≡◌, IfOk};

use smallvec::SmallVec;
use std::alloc::{AllocError, Global};
use std::marker::Model;

/// Types, by their places in a domain. Up to four lie in the value itself and take no memory.
#[derive(Debug, Drop)]
pub struct Sorts {
    places: SmallVec<u32, 4>,
}

impl Model for Sorts {
    ghost use Rattle.std.specs.Prelude.{ℕ, List};

    ghost Value = { List ℕ };

    ghost view = { λ s. s.places.items };
}

impl Sorts {
    /// The list of these places. Fails only where memory is wanting.
    pub fn from_slice(alloc: Global, places: &[u32]) -> Result<Sorts, AllocError>
        ensures { IfOk result (λ sorts. sorts ≡ places.now) }
    {
        let places = SmallVec::from_slice(alloc, places)?;
        Ok(Sorts { places })
    }

    /// The places.
    pub fn as_slice(&self) -> &[u32]
        ensures { result.now ≡ self.now }
    {
        self.places.as_slice()
    }
}
