//! What is asked for.
ghost use Rattle.std.specs.Prelude.{◌≡◌, ℕ, List, Bool};
ghost use Rattle.fact_join.specs.declared.query.JoinFault.TheVariants.{Memory};

use std::alloc::{AllocError, AllocFailed, Global};
use task_model::{Look, Obj, Term};
use thiserror::Error;

/// An atom that has to be known: a predicate, by its place among the domain's predicates, and the
/// terms of its arguments, at most eight. A slot is a place of the tuple.
#[derive(Clone, Copy, Debug)]
pub struct QueryAtom<'a> {
    /// The predicate.
    pub pred: u32,
    /// The arguments.
    pub terms: &'a [Term],
}

/// What else has to hold of a tuple.
pub trait Wanted {
    ghost can_judge: { Self → List ℕ → Type 0 };

    ghost wants: { Self → List ℕ → Bool };

    /// Whether the tuple is wanted.
    fn wants(&self, tuple: &[Obj]) -> bool
        requires { can_judge self.now tuple.now }
        ensures { result ≡ wants self.now tuple.now };
}

/// Which tuples are sought: those whose objects have these types, and which are wanted.
#[derive(Drop)]
pub struct Query<'a, L: Look, W: Wanted> {
    /// What is known.
    pub look: &'a L,
    /// The types, by their places in the domain, at most sixteen.
    pub sorts: &'a [u32],
    /// What else has to hold.
    pub wanted: &'a W,
    /// How many may be found.
    pub most: usize,
    /// Where rows take memory.
    pub alloc: Global,
}

/// Why not all tuples were found.
#[derive(Clone, Copy, Debug, PartialEq, Eq, Error)]
pub enum JoinFault {
    /// There are more than may be found.
    #[error("too many tuples")]
    TooMany,
    /// Memory is wanting.
    #[error("out of memory")]
    Memory,
}

impl From<AllocError> for JoinFault {
    ghost from_gives = { λ _ e. e ≡ Memory };

    fn from(_e: AllocError) -> JoinFault {
        JoinFault::Memory
    }
}

impl<T: Drop> From<AllocFailed<T>> for JoinFault {
    ghost from_gives = { λ _ e. e ≡ Memory };

    fn from(_e: AllocFailed<T>) -> JoinFault {
        JoinFault::Memory
    }
}
