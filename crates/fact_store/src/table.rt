//! A table by which facts are found.
ghost use Rattle.std.specs.Prelude.{◌≡◌, ◌+◌, ◌<◌, ◌^◌, ◌∷◌, ◌++◌, [], true, length, slice_get, if◌then◌else◌, None, Some, IfSome, IfNone, OnOk, OnErr};
ghost use Rattle.indexmap.specs.IndexMap.{get, keys};
ghost use Rattle.fact_store.specs.Tables.{Covers, Key, facts_with, same_key, places_in};
ghost use Rattle.fact_store.specs.Tables as tables;

use crate::scan::{count_with, nth_with};
use crate::stored_fact::StoredFact;
use indexmap::IndexMap;
use smallvec::SmallVec;
use std::alloc::{AllocError, Global};
use std::hash::BuildHasherDefault;
use task_model::{Kind, NumberHasher};

/// Which facts a table finds, and by what.
#[derive(Clone, Copy)]
pub(crate) enum Group {
    /// That an object has a type, by the type.
    Objects,
    /// Atoms, by the predicate and the object at this place of the arguments.
    AtomsAt(usize),
}

/// What facts are found by: a name, with an object's place, or with 0 where the name alone counts.
pub(crate) type Key = (u32, u32);

/// Lists of places by keys.
type Lists = IndexMap<Key, SmallVec<u32, 4>, BuildHasherDefault<NumberHasher>>;

/// The places of a group's facts by their keys, for the first `done` facts of a list.
#[derive(Drop)]
pub(crate) struct Table {
    lists: Lists,
    done: usize,
}

/// The key of the fact, if it belongs to the group.
fn key_of(group: Group, fact: &StoredFact) -> Option<Key>
    ensures { result ≡ tables.group_key group fact.now }
{
    match (group, fact.kind(), fact.args()) {
        (Group::Objects, Kind::Sort, [_]) => Some((fact.name(), 0)),
        (Group::AtomsAt(place), Kind::Predicate, args) => {
            let object = args.get(place)?;
            Some((fact.name(), object.place()))
        }
        _ => None,
    }
}

/// Whether the fact belongs to the group and has this key.
pub(crate) fn has_key(group: Group, key: Key, fact: &StoredFact) -> bool
    ensures { result ≡ tables.has_key group key fact.now }
{
    match key_of(group, fact) {
        Some(found) => found == key,
        None => false,
    }
}

/// Where the key's list would stand if the lists were made for objects in their order, as they are
/// where the facts about objects that were declared together came in that order.
fn guess(lists: &Lists, key: Key) -> usize {
    match lists.get_index(0) {
        Some(((_, first), _)) => key.1.wrapping_sub(*first) as usize,
        None => 0,
    }
}

/// Whether the list at this place is surely the key's.
fn is_at(lists: &Lists, at: usize, key: Key) -> bool
    ensures { result ≡ true → slice_get (keys lists.now) at ≡ Some key }
{
    match lists.get_index(at) {
        Some((found, _)) => *found == key,
        None => false,
    }
}

/// The place of the key's list, if it has one.
fn list_of(lists: &Lists, key: Key) -> Option<usize>
    ensures found { IfSome result (λ at. slice_get (keys lists.now) at ≡ Some key) }
    ensures none { IfNone result (get same_key lists.now key ≡ None) }
{
    let at = guess(lists, key);
    if is_at(lists, at, key) {
        return Some(at);
    }
    let (at, _, _) = lists.get_full(&key)?;
    Some(at)
}

/// Puts a place behind the others of the key. Fails only where memory is wanting, and then each key
/// has its places still.
fn put(alloc: Global, lists: &mut Lists, key: Key, place: u32) -> Result<(), AllocError>
    ensures ok { OnOk result ((q : Key) → places_in lists.new q
        ≡ (if same_key key q then places_in lists.old q ++ place ∷ [] else places_in lists.old q)) }
    ensures err { OnErr result ((q : Key) → places_in lists.new q ≡ places_in lists.old q) }
{
    if let Some(at) = list_of(lists, key) {
        match lists.get_index_mut(at) {
            Some(list) => list.push(place)?,
            None => unreachable!(),
        }
        return Ok(());
    }
    let mut list = SmallVec::new(alloc);
    list.push(place)?;
    lists.insert(key, list)?;
    Ok(())
}

impl Table {
    ghost use Rattle.std.specs.Prelude.{List, Some, option_copied};
    ghost use Rattle.task_model.specs.declared.fact.Fact.{Fact};
    ghost use Rattle.fact_store.specs.declared.table.Group as grouping;

    /// The table that covers nothing, which takes no memory.
    pub(crate) fn new(alloc: Global) -> Table
        ensures { (group : grouping.Group) (facts : List Fact) → Covers group facts result }
    {
        Table {
            lists: IndexMap::with_hasher(alloc, BuildHasherDefault::new()),
            done: 0,
        }
    }

    /// The places of the facts with this key, among those that the table covers.
    fn places(&self, key: Key) -> &[u32]
        ensures { result.now ≡ places_in self.now.lists key }
    {
        let Some(at) = list_of(&self.lists, key) else {
            return &[];
        };
        match self.lists.get_index(at) {
            Some((_, list)) => list.as_slice(),
            None => unreachable!(),
        }
    }

    /// Goes on by one fact, or answers false where memory is wanting.
    fn cover_next(&mut self, alloc: Global, group: Group, facts: &[StoredFact]) -> bool
        requires covers { Covers group facts.now self.old }
        requires more { self.old.done < length facts.now }
        ensures covers { Covers group facts.now self.new }
        ensures next { result ≡ true → self.new.done ≡ self.old.done + 1 }
    {
        if let Some(key) = key_of(group, &facts[self.done]) {
            let Ok(place) = u32::try_from(self.done) else {
                return false;
            };
            match put(alloc, &mut self.lists, key, place) {
                Ok(()) => {}
                Err(_) => return false,
            }
        }
        self.done += 1;
        true
    }

    /// Goes on over the facts up to the last, or stops where memory is wanting.
    pub(crate) fn cover(&mut self, alloc: Global, group: Group, facts: &[StoredFact])
        requires { Covers group facts.now self.old }
        ensures { Covers group facts.now self.new }
    {
        while self.done < facts.len() {
            if !self.cover_next(alloc, group, facts) {
                return;
            }
        }
    }

    /// How many of the facts have this key.
    pub(crate) fn count(&self, group: Group, key: Key, facts: &[StoredFact]) -> usize
        requires { Covers group facts.now self.now }
        ensures count { result ≡ length (facts_with group key facts.now) }
        ensures few { result < 2 ^ 63 }
    {
        self.places(key).len() + count_with(group, key, &facts[self.done..])
    }

    /// The fact of that number among those with this key.
    pub(crate) fn nth<'a>(
        &self,
        group: Group,
        key: Key,
        facts: &'a [StoredFact],
        number: usize,
    ) -> Option<&'a StoredFact>
        requires { Covers group facts.now self.now }
        ensures { option_copied result ≡ slice_get (facts_with group key facts.now) number }
    {
        let places = self.places(key);
        match places.get(number) {
            Some(place) => facts.get(*place as usize),
            None => nth_with(group, key, &facts[self.done..], number - places.len()),
        }
    }
}
