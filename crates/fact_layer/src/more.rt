//! Facts and values that stand behind those of a store.
ghost use Rattle.std.specs.Prelude.{◌≡◌, ◌++◌, ◌<◌, [], not, length, slice_get, Some, IfOk, OnOk, OnErr};
ghost use Rattle.std.specs.List.{list_any};
ghost use Rattle.task_model.specs.Known.{atom_fact, is_fact, with_fact, with_facts, same_value, with_value, objects_of, value_of, matches_of};
ghost use Rattle.fact_layer.specs.Laid.{lesser_option};

use fact_store::{FactTable, Facts, ValueTable};
use std::alloc::{AllocError, Global};
use task_model::{Fact, Look, Obj, Valued};

/// Facts and values behind those of a store, in the order in which they came. Each call is given
/// the store, which stays as it is: what is behind it belongs to this store alone.
#[derive(Drop)]
pub struct More {
    /// The facts.
    facts: FactTable,
    /// The values of functions.
    values: ValueTable,
}

/// The lesser of two numbers, or the one that there is.
fn lesser(first: Option<u32>, second: Option<u32>) -> Option<u32>
    ensures { result ≡ lesser_option first second }
{
    match (first, second) {
        (Some(first), Some(second)) => Some(first.min(second)),
        (Some(one), None) | (None, Some(one)) => Some(one),
        (None, None) => None,
    }
}

impl More {
    /// Nothing, which takes no memory.
    pub fn new(alloc: Global) -> More
        ensures facts { result.facts ≡ [] }
        ensures values { result.values ≡ [] }
    {
        More {
            facts: FactTable::new(alloc),
            values: ValueTable::new(alloc),
        }
    }

    /// Puts a fact behind the others, and answers true, or answers false where it is there, in the
    /// store or behind it. Fails only where memory is wanting, and leaves all as it was then.
    pub fn add(&mut self, base: &Facts, fact: Fact) -> Result<bool, AllocError>
        ensures fresh { IfOk result
            (λ fresh. fresh ≡ not (is_fact (base.now.known.facts ++ self.old.facts) fact)) }
        ensures facts { OnOk result (base.now.known.facts ++ self.new.facts
            ≡ with_fact (base.now.known.facts ++ self.old.facts) fact) }
        ensures values { self.new.values ≡ self.old.values }
        ensures err { OnErr result (self.new ≡ self.old) }
    {
        if base.has(&fact) {
            return Ok(false);
        }
        self.facts.insert(fact)
    }

    /// Puts each of the facts behind the others, unless it is there, in the store or behind it.
    /// Fails only where memory is wanting; then some of them may be there.
    pub fn add_all(&mut self, base: &Facts, facts: &[Fact]) -> Result<(), AllocError>
        ensures facts { OnOk result (base.now.known.facts ++ self.new.facts
            ≡ with_facts (base.now.known.facts ++ self.old.facts) facts.now) }
        ensures values { self.new.values ≡ self.old.values }
    {
        for fact in facts {
            self.add(base, fact.copy()?)?;
        }
        Ok(())
    }

    /// Puts the value of a function's term behind the others, and answers true, or answers false
    /// where this value of this term is there, in the store or behind it. Fails only where memory
    /// is wanting, and leaves all as it was then.
    pub fn add_value(&mut self, base: &Facts, value: Valued) -> Result<bool, AllocError>
        ensures fresh { IfOk result (λ fresh. fresh
            ≡ not (list_any (same_value value) (base.now.known.values ++ self.old.values))) }
        ensures values { OnOk result (base.now.known.values ++ self.new.values
            ≡ with_value (base.now.known.values ++ self.old.values) value) }
        ensures facts { self.new.facts ≡ self.old.facts }
        ensures err { OnErr result (self.new ≡ self.old) }
    {
        if base.value_table().contains(&value) {
            return Ok(false);
        }
        self.values.insert(value)
    }

    /// Whether the fact is there.
    pub(crate) fn has(&self, base: &Facts, fact: &Fact) -> bool
        ensures { result ≡ is_fact (base.now.known.facts ++ self.now.facts) fact.now }
    {
        base.has(fact) || self.facts.contains(fact)
    }

    /// How many objects have the type.
    pub(crate) fn count(&self, base: &Facts, sort: u32) -> usize
        ensures { result ≡ length (objects_of (base.now.known.facts ++ self.now.facts) sort) }
    {
        base.fact_table().count(sort) + self.facts.count(sort)
    }

    /// The object of that number among those that have the type.
    pub(crate) fn object(&self, base: &Facts, sort: u32, number: usize) -> Option<Obj>
        ensures { result
            ≡ slice_get (objects_of (base.now.known.facts ++ self.now.facts) sort) number }
    {
        let before = base.fact_table().count(sort);
        if number < before {
            base.fact_table().object(sort, number)
        } else {
            self.facts.object(sort, number - before)
        }
    }

    /// The least value of the function's term, or None where there is none.
    pub(crate) fn value(&self, base: &Facts, func: u32, args: &[Obj]) -> Option<u32>
        ensures { result
            ≡ value_of (base.now.known.values ++ self.now.values) func args.now }
    {
        lesser(base.value(func, args), self.values.value(func, args))
    }

    /// How many atoms of the predicate have the object at this place.
    pub(crate) fn matches(&self, base: &Facts, pred: u32, place: usize, object: Obj) -> usize
        ensures { result ≡ length
            (matches_of (base.now.known.facts ++ self.now.facts) pred place object) }
    {
        base.fact_table().matches(pred, place, object) + self.facts.matches(pred, place, object)
    }

    /// The arguments of the atom of that number among those of the predicate with the object at
    /// this place.
    pub(crate) fn matched<'a>(
        &'a self,
        base: &'a Facts,
        pred: u32,
        place: usize,
        object: Obj,
        number: usize,
    ) -> &'a [Obj]
        requires { number < length
            (matches_of (base.now.known.facts ++ self.now.facts) pred place object) }
        ensures { slice_get
            (matches_of (base.now.known.facts ++ self.now.facts) pred place object) number
            ≡ Some (atom_fact pred result.now) }
    {
        let before = base.matches(pred, place, object);
        if number < before {
            return base.matched(pred, place, object, number);
        }
        match self.facts.matched(pred, place, object, number - before) {
            Some(args) => args,
            None => unreachable!(),
        }
    }
}
