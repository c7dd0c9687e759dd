//! The variables in scope.
ghost use Rattle.std.specs.Prelude.{◌≡◌, ◌++◌, ◌∷◌, [], length, take, None, OnOk};
ghost use Rattle.name_tables.specs.Names as specs;

use std::alloc::{AllocError, Global};
use std::marker::Model;
use task_model::Name;

/// Variables from outside to inside, each in the slot of its place. An inner one hides an outer one
/// of its name.
#[derive(Drop)]
pub struct Scope {
    names: Vec<Name>,
    alloc: Global,
}

impl Model for Scope {
    ghost use Rattle.std.specs.Prelude.{ℕ, List};

    ghost Value = { List (List ℕ) };

    ghost view = { λ s. s.names.items };
}

impl Scope {
    /// No variable, which takes no memory.
    pub fn new(alloc: Global) -> Scope
        ensures { result ≡ [] }
    {
        Scope {
            names: Vec::new(alloc),
            alloc,
        }
    }

    /// How many variables are in scope, hidden ones counted.
    pub fn len(&self) -> usize
        ensures { result ≡ length self.now }
    {
        self.names.len()
    }

    /// Whether the variable is in scope.
    pub fn has(&self, name: &[u8]) -> bool
        ensures { result ≡ specs.has_name name.now self.now }
    {
        for known in &self.names {
            if name == known.bytes() {
                return true;
            }
        }
        false
    }

    /// The slot of the innermost variable of this name.
    pub fn slot_of(&self, name: &[u8]) -> Option<usize>
        ensures { result ≡ specs.last_place 0 None name.now self.now }
    {
        let mut found = None;
        for slot in 0..self.names.len() {
            if self.names[slot].bytes() == name {
                found = Some(slot);
            }
        }
        found
    }

    /// Puts a variable into scope. Fails only where memory is wanting.
    pub fn push(&mut self, name: &[u8]) -> Result<(), AllocError>
        ensures { OnOk result (self.new ≡ self.old ++ name.now ∷ []) }
    {
        self.names.push(Name::from_slice(self.alloc, name)?)?;
        Ok(())
    }

    /// Takes all but the outermost variables, so many, out of scope.
    pub fn leave(&mut self, outer: usize)
        ensures { self.new ≡ take outer self.old }
    {
        self.names.truncate(outer);
    }
}
