//! Lists of numbers that are put in order when they are asked for.
ghost use Rattle.std.specs.Prelude.{◌≡◌, ◌++◌, ◌∷◌, [], IfOk, OnOk, slice_get};
ghost use Rattle.name_tables.specs.Declarations as specs;
ghost use Rattle.name_tables.specs.Graphs as graphs;

use crate::graph::ascending;
use smallvec::SmallVec;
use std::alloc::{AllocError, Global};
use std::marker::Model;
use task_model::{Seq, Sorts};

/// Lists of numbers, each of which is seen ascending, each number once.
///
/// The numbers are kept as they came, so that one more neither looks for its place nor moves the
/// others, and up to four of a list take no memory of their own.
#[derive(Drop)]
pub struct NumberLists {
    lists: Vec<SmallVec<u32, 4>>,
    alloc: Global,
}

impl Model for NumberLists {
    ghost use Rattle.std.specs.Prelude.{ℕ, List, [], map};
    ghost use Rattle.name_tables.specs.Graphs.{ascending};

    ghost Value = { List (List ℕ) };

    ghost view = { λ l. map (λ v. ascending [] v.items) l.lists.items };
}

impl NumberLists {
    /// No list, which takes no memory.
    pub fn new(alloc: Global) -> NumberLists
        ensures { result ≡ [] }
    {
        NumberLists {
            lists: Vec::new(alloc),
            alloc,
        }
    }

    /// Puts one more list behind the others. Fails only where memory is wanting.
    pub fn push(&mut self, list: Vec<u32>) -> Result<(), AllocError>
        ensures { OnOk result (self.new ≡ self.old ++ graphs.ascending [] list.items ∷ []) }
    {
        self.lists.push(SmallVec::from_vec(list))?;
        Ok(())
    }

    /// Puts the list of one number behind the others. Fails only where memory is wanting.
    pub(crate) fn push_one(&mut self, number: u32) -> Result<(), AllocError>
        ensures { OnOk result (self.new ≡ self.old ++ (number ∷ []) ∷ []) }
    {
        let list = SmallVec::from_slice(self.alloc, &[number])?;
        self.lists.push(list)?;
        Ok(())
    }

    /// Adds a number to the list at this place, if there is one. Fails only where memory is
    /// wanting.
    pub fn add(&mut self, place: usize, number: u32) -> Result<(), AllocError>
        ensures { OnOk result (self.new ≡ specs.number_put self.old place number) }
    {
        if place < self.lists.len() {
            self.lists[place].push(number)?;
        }
        Ok(())
    }

    /// The list at this place, of types, or None where there is none. Fails only where memory is
    /// wanting.
    pub fn sorts_at(&self, place: usize) -> Result<Option<Sorts>, AllocError>
        ensures { IfOk result (λ list. list ≡ slice_get self.now place) }
    {
        let Some(list) = self.lists.get(place) else {
            return Ok(None);
        };
        let ascending = ascending(self.alloc, list.as_slice())?;
        Ok(Some(Sorts::from_slice(self.alloc, ascending.as_slice())?))
    }

    /// All lists. Fails only where memory is wanting.
    pub fn to_lists(&self) -> Result<Vec<Seq<u32>>, AllocError>
        ensures { IfOk result (λ lists. lists.items ≡ self.now) }
    {
        let mut lists = Vec::with_capacity(self.alloc, self.lists.len())?;
        for list in self.lists.as_slice() {
            lists.push(Seq::from_vec(ascending(self.alloc, list.as_slice())?))?;
        }
        Ok(lists)
    }
}
