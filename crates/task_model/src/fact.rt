//! Facts and atoms.
ghost use Rattle.std.specs.Prelude.{◌≡◌, IfOk};

use crate::object::Row;
use std::alloc::AllocError;

/// What a fact's name stands for: predicates and types are separate name spaces.
#[derive(Clone, Copy, PartialEq, Eq, PartialOrd, Ord, Hash, Debug)]
pub enum Kind {
    /// A predicate, by its place among the domain's predicates.
    Predicate,
    /// A type, by its place among the domain's types.
    Sort,
}

/// A fact: an atom of a predicate, or that an object has a type.
#[derive(PartialEq, Eq, PartialOrd, Ord, Hash, Debug, Drop)]
pub struct Fact {
    /// What the name stands for.
    pub kind: Kind,
    /// The predicate or the type.
    pub name: u32,
    /// The arguments; a fact about a type has one.
    pub args: Row,
}

impl Fact {
    /// An equal fact. Fails only where memory is wanting.
    pub fn copy(&self) -> Result<Fact, AllocError>
        ensures { IfOk result (λ fact. fact ≡ self.now) }
    {
        let args = self.args.copy()?;
        Ok(Fact {
            kind: self.kind,
            name: self.name,
            args,
        })
    }
}

/// An atom of a predicate, by its place among the domain's predicates.
#[derive(PartialEq, Eq, PartialOrd, Ord, Hash, Debug, Drop)]
pub struct Atom {
    /// The predicate.
    pub pred: u32,
    /// The arguments.
    pub args: Row,
}

impl Atom {
    /// An equal atom. Fails only where memory is wanting.
    pub fn copy(&self) -> Result<Atom, AllocError>
        ensures { IfOk result (λ atom. atom ≡ self.now) }
    {
        let args = self.args.copy()?;
        Ok(Atom {
            pred: self.pred,
            args,
        })
    }
}
