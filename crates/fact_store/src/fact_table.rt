//! The facts, with the tables by which they are found.
ghost use Rattle.std.specs.Prelude.{◌≡◌, ◌<◌, ◌^◌, List, [], not, length, slice_get, option_copied, option_map, IfOk, OnOk, OnErr};
ghost use Rattle.task_model.specs.Known.{is_fact, with_fact, objects_of, matches_of, atom_fact};
ghost use Rattle.task_model.specs.declared.fact.Fact.{Fact};
ghost use Rattle.fact_store.specs.Tables.{CoverPlaces};

use crate::scan::{count_with, nth_with};
use crate::stored_fact::StoredFact;
use crate::table::{Group, Table};
use indexmap::IndexSet;
use std::alloc::{AllocError, Global};
use std::hash::BuildHasherDefault;
use std::marker::Model;
use task_model::{Fact, NumberHasher, Obj};

/// The facts in the order in which they came. Contracts see the list of them. Each table covers a
/// front of this list, mostly all of it: where memory is wanting it stays behind, and the facts
/// that it doesn't cover are searched.
#[derive(Drop)]
pub struct FactTable {
    facts: IndexSet<StoredFact, BuildHasherDefault<NumberHasher>>,
    objects: Table,
    /// By places of the arguments.
    atoms_at: Vec<Table>,
    alloc: Global,
}

impl Model for FactTable {
    ghost use Rattle.std.specs.Prelude.{List};
    ghost use Rattle.std.specs.Coded.{coded_list};
    ghost use Rattle.task_model.specs.declared.fact.Fact.{Fact};
    ghost use Rattle.fact_store.specs.Store.{coded_fact};

    ghost Value = { List Fact };

    ghost coded = { coded_list coded_fact };

    ghost use Rattle.fact_store.specs.Tables.{AreCovered};

    ghost view = { λ t. t.facts.keys };

    ghost invariant = { λ t. AreCovered t.facts.keys t.objects t.atoms_at.items };
}

/// Puts tables behind the others, up to this count or as far as memory reaches.
fn add_tables(alloc: Global, tables: &mut Vec<Table>, count: usize)
    ensures { (facts : List Fact) → CoverPlaces facts tables.old.items
        → CoverPlaces facts tables.new.items }
{
    for _ in tables.len()..count {
        if tables.push(Table::new(alloc)).is_err() {
            return;
        }
    }
}

/// Lets the table of each place cover the facts up to the last, or as far as memory reaches.
fn cover_each(alloc: Global, tables: &mut [Table], facts: &[StoredFact])
    requires { CoverPlaces facts.now tables.old }
    ensures { CoverPlaces facts.now tables.new }
{
    for (place, table) in tables.iter_mut().enumerate() {
        table.cover(alloc, Group::AtomsAt(place), facts);
    }
}

impl FactTable {
    /// The table without facts, which takes no memory.
    pub fn new(alloc: Global) -> FactTable
        ensures { result ≡ [] }
    {
        FactTable {
            facts: IndexSet::with_hasher(alloc, BuildHasherDefault::new()),
            objects: Table::new(alloc),
            atoms_at: Vec::new(alloc),
            alloc,
        }
    }

    /// Takes room for so many facts more. Fails only where memory is wanting.
    pub fn reserve(&mut self, count: usize) -> Result<(), AllocError>
        ensures { self.new ≡ self.old }
    {
        self.facts.reserve(count)
    }

    /// Whether the fact is there.
    pub fn contains(&self, fact: &Fact) -> bool
        ensures { result ≡ is_fact self.now fact.now }
    {
        self.facts.contains(fact)
    }

    /// Puts a fact behind the others, and answers true, or answers false where it is there. Fails
    /// only where memory is wanting, and leaves all as it was then.
    pub fn insert(&mut self, fact: Fact) -> Result<bool, AllocError>
        ensures fresh { IfOk result (λ fresh. fresh ≡ not (is_fact self.old fact)) }
        ensures facts { OnOk result (self.new ≡ with_fact self.old fact) }
        ensures err { OnErr result (self.new ≡ self.old) }
    {
        let fresh = self.insert_uncovered(fact)?;
        self.cover();
        Ok(fresh)
    }

    /// The same, where the tables needn't cover the fact yet: it is searched until they do.
    pub(crate) fn insert_uncovered(&mut self, fact: Fact) -> Result<bool, AllocError>
        ensures fresh { IfOk result (λ fresh. fresh ≡ not (is_fact self.old fact)) }
        ensures facts { OnOk result (self.new ≡ with_fact self.old fact) }
        ensures err { OnErr result (self.new ≡ self.old) }
    {
        let arity = fact.args.as_slice().len();
        let fresh = self.facts.insert(StoredFact::new(self.alloc, &fact)?)?;
        add_tables(self.alloc, &mut self.atoms_at, arity);
        Ok(fresh)
    }

    /// Lets each table cover the facts up to the last, or as far as memory reaches.
    pub(crate) fn cover(&mut self)
        ensures { self.new ≡ self.old }
    {
        let facts = self.facts.as_slice();
        self.objects.cover(self.alloc, Group::Objects, facts);
        cover_each(self.alloc, self.atoms_at.as_mut_slice(), facts);
    }

    /// How many objects have the type.
    pub fn count(&self, sort: u32) -> usize
        ensures count { result ≡ length (objects_of self.now sort) }
        ensures few { result < 2 ^ 63 }
    {
        self.objects
            .count(Group::Objects, (sort, 0), self.facts.as_slice())
    }

    /// The object of that number among those that have the type.
    pub fn object(&self, sort: u32, number: usize) -> Option<Obj>
        ensures { result ≡ slice_get (objects_of self.now sort) number }
    {
        let fact = self
            .objects
            .nth(Group::Objects, (sort, 0), self.facts.as_slice(), number)?;
        fact.args().first().copied()
    }

    /// The objects that have the type, in the facts' order. Fails only where memory is wanting.
    pub fn objects_with(&self, alloc: Global, sort: u32) -> Result<Vec<Obj>, AllocError>
        ensures { IfOk result (λ objects. objects.items ≡ objects_of self.now sort) }
    {
        let count = self.count(sort);
        let mut objects = Vec::with_capacity(alloc, count)?;
        for number in 0..count {
            match self.object(sort, number) {
                Some(object) => objects.push(object)?,
                None => unreachable!(),
            }
        }
        Ok(objects)
    }

    /// How many atoms of the predicate have the object at this place.
    pub fn matches(&self, pred: u32, place: usize, object: Obj) -> usize
        ensures count { result ≡ length (matches_of self.now pred place object) }
        ensures few { result < 2 ^ 63 }
    {
        let (group, key, facts) = (
            Group::AtomsAt(place),
            (pred, object.place()),
            self.facts.as_slice(),
        );
        match self.atoms_at.as_slice().get(place) {
            Some(table) => table.count(group, key, facts),
            None => count_with(group, key, facts),
        }
    }

    /// The arguments of the atom of that number among those of the predicate with the object at
    /// this place.
    pub fn matched(&self, pred: u32, place: usize, object: Obj, number: usize) -> Option<&[Obj]>
        ensures { option_map (atom_fact pred) (option_copied result)
            ≡ slice_get (matches_of self.now pred place object) number }
    {
        let (group, key, facts) = (
            Group::AtomsAt(place),
            (pred, object.place()),
            self.facts.as_slice(),
        );
        let fact = match self.atoms_at.as_slice().get(place) {
            Some(table) => table.nth(group, key, facts, number)?,
            None => nth_with(group, key, facts, number)?,
        };
        Some(fact.args())
    }
}
