//! Tables of names.
ghost use Rattle.std.specs.Prelude.{◌≡◌, [], not, length, if◌then◌else◌, Some, None, IfOk, OnOk};
ghost use Rattle.name_tables.specs.Names as specs;
ghost use Rattle.task_model.specs.Streams.{name_at};

use indexmap::IndexSet;
use std::alloc::{AllocError, Global};
use std::hash::BuildHasherDefault;
use std::marker::Model;
use task_model::NumberHasher;

/// Distinct names in the order in which they came, each of which is found without going through the
/// others.
#[derive(Drop)]
pub struct NameTable {
    names: IndexSet<Vec<u8>, BuildHasherDefault<NumberHasher>>,
    alloc: Global,
}

impl Model for NameTable {
    ghost use Rattle.std.specs.Prelude.{ℕ, List, map};

    ghost Value = { List (List ℕ) };

    ghost view = { λ t. map (λ v. v.items) t.names.keys };
}

impl NameTable {
    /// The table of no names, which takes no memory.
    pub fn new(alloc: Global) -> NameTable
        ensures { result ≡ [] }
    {
        NameTable {
            names: IndexSet::with_hasher(alloc, BuildHasherDefault::new()),
            alloc,
        }
    }

    /// How many names there are.
    pub fn len(&self) -> usize
        ensures { result ≡ length self.now }
    {
        self.names.len()
    }

    /// The place of the name, from 0, or None where it isn't there.
    pub fn place_of(&self, name: &[u8]) -> Option<usize>
        ensures { result ≡ specs.table_place name.now self.now }
    {
        self.names.get_index_of(name)
    }

    /// The name at a place, or no letters where there is none.
    pub fn name_at(&self, place: usize) -> &[u8]
        ensures { result.now ≡ name_at self.now place }
    {
        match self.names.get_index(place) {
            Some(name) => name.as_slice(),
            None => &[],
        }
    }

    /// Whether the name is there.
    pub fn has(&self, name: &[u8]) -> bool
        ensures { result ≡ specs.has_name name.now self.now }
    {
        self.names.contains(name)
    }

    /// Puts the name behind the others, where it is new, and answers whether it was new. Fails only
    /// where memory is wanting.
    pub fn add(&mut self, name: &[u8]) -> Result<bool, AllocError>
        ensures names { OnOk result (self.new ≡ specs.with_table_name self.old name.now) }
        ensures fresh { IfOk result (λ fresh. fresh ≡ not (specs.has_name name.now self.old)) }
    {
        let (_, fresh) = self.put(name)?;
        Ok(fresh)
    }

    /// The same, with the place at which the name stands then.
    pub(crate) fn put(&mut self, name: &[u8]) -> Result<(usize, bool), AllocError>
        ensures names { OnOk result (self.new ≡ specs.with_table_name self.old name.now) }
        ensures place { IfOk result (λ put. specs.table_place name.now self.old
            ≡ (if put.1 then None else Some put.0)) }
        ensures fresh { IfOk result (λ put. put.1 ≡ not (specs.has_name name.now self.old)) }
    {
        let bytes = Vec::from_slice(self.alloc, name)?;
        Ok(self.names.insert_full(bytes)?)
    }
}
