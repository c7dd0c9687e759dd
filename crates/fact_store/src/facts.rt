//! The store, and the calls by which it grows.
ghost use Rattle.task_model.specs.Known.{IsCoherent};
ghost use Rattle.task_model.specs.declared.limits.TheConstants.{LARGEST_NUMBER};
ghost use Rattle.fact_store.specs.Store.{coherent_prop};

use crate::fact_table::FactTable;
use crate::initial::{add_names, add_objects, add_static, add_values, type_count};
use crate::scan::place_in;
use crate::value_table::ValueTable;
use indexmap::IndexSet;
use std::alloc::{AllocError, Global};
use std::hash::BuildHasherDefault;
use std::marker::Model;
use task_model::{Fact, Look, Name, NumberHasher, Obj, Problem, Row, Task, Valued};

/// The most names of objects, 2^32 - 2^18: the place of each is an object.
pub const MOST_NAMES: usize = (1 << 32) - (1 << 18);

/// The objects' names, the facts and the values of functions that are known, in the order in which
/// they came. An object is the place of its name.
#[derive(Drop)]
pub struct Facts {
    names: IndexSet<Name, BuildHasherDefault<NumberHasher>>,
    facts: FactTable,
    values: ValueTable,
    alloc: Global,
    ghost coherent: { IsCoherent
        (record { names = names.keys; facts = facts; values = values }) } by { coherent_prop
            (record { names = names.keys; facts = facts; values = values }) },
}

impl Model for Facts {
    ghost use Rattle.std.specs.Prelude.{◌≤◌, length};
    ghost use Rattle.fact_store.specs.Store.{Store, coded_store};
    ghost use Rattle.fact_store.specs.declared.facts.TheConstants.{MOST_NAMES};

    ghost Value = { Store };

    ghost coded = { coded_store };

    ghost view = { λ f. record {
      known = record { names = f.names.keys; facts = f.facts; values = f.values };
      coherent = f.coherent;
    } };

    ghost invariant = { λ f. length f.names.keys ≤ MOST_NAMES };
}

impl Facts {
    ghost use Rattle.std.specs.Prelude.{◌≡◌, ◌<◌, ◌≤◌, [], not, length, slice_get, All, Contains, Some, IfSome, IfNone, IfOk, OnOk, OnErr};
    ghost use Rattle.std.specs.List.{list_any};
    ghost use Rattle.task_model.specs.Known.{IsIn, is_fact, with_fact, objects_of, same_value, with_value, with_name};
    ghost use Rattle.task_model.specs.Fit.{IsFit};
    ghost use Rattle.task_model.specs.Initial.{initial_known};

    /// What is known at first of a task: the declared objects with their types and all supertypes,
    /// the atoms of static predicates in `:init`, and the values of functions. Fails only where
    /// memory is wanting.
    pub fn new(alloc: Global, task: &Task) -> Result<Facts, AllocError>
        requires { IsFit task.now }
        ensures { IfOk result (λ facts. facts.known ≡ initial_known task.now) }
    {
        let mut facts = Facts::empty(alloc);
        facts.fill(alloc, task)?;
        Ok(facts)
    }

    /// Puts what is known at first of a task into a store that knows nothing.
    fn fill(&mut self, alloc: Global, task: &Task) -> Result<(), AllocError>
        requires fit { IsFit task.now }
        requires empty { self.old.known ≡ record { names = []; facts = []; values = [] } }
        ensures { OnOk result (self.new.known ≡ initial_known task.now) }
    {
        let problem = &task.problem;
        self.reserve(problem)?;
        add_names(alloc, self, problem.objects.as_slice())?;
        add_objects(alloc, self, &task.domain, problem.objects.as_slice())?;
        add_static(self, &task.domain, problem.init.as_slice())?;
        add_values(self, &task.domain, problem.values.as_slice())?;
        self.cover();
        Ok(())
    }

    /// The store that knows nothing, which takes no memory.
    pub(crate) fn empty(alloc: Global) -> Facts
        ensures { result.known ≡ record { names = []; facts = []; values = [] } }
    {
        Facts {
            names: IndexSet::with_hasher(alloc, BuildHasherDefault::new()),
            facts: FactTable::new(alloc),
            values: ValueTable::new(alloc),
            alloc,
        }
    }

    /// Takes room for the problem's objects and facts. Fails only where memory is wanting.
    fn reserve(&mut self, problem: &Problem) -> Result<(), AllocError>
        ensures { self.new ≡ self.old }
    {
        let types = type_count(problem.objects.as_slice());
        self.names.reserve(problem.objects.len())?;
        self.facts.reserve(types.saturating_add(problem.init.len()))
    }

    /// The facts, with the tables by which they are found.
    pub fn fact_table(&self) -> &FactTable
        ensures { result.now ≡ self.now.known.facts }
    {
        &self.facts
    }

    /// The values of functions, with the least of each term.
    pub fn value_table(&self) -> &ValueTable
        ensures { result.now ≡ self.now.known.values }
    {
        &self.values
    }

    /// The names of the objects, each at its object's place.
    pub fn names(&self) -> &[Name]
        ensures { result.now ≡ self.now.known.names }
    {
        self.names.as_slice()
    }

    /// How many objects have names.
    pub fn name_count(&self) -> u32
        ensures count { result ≡ length self.now.known.names }
        ensures few { result ≤ MOST_NAMES }
    {
        self.names.len() as u32
    }

    /// The object with this name, or None exactly where no object has it. A name of more than 23
    /// bytes takes memory while it is sought; where that is wanting, all names are gone through.
    pub fn object_of(&self, name: &[u8]) -> Option<Obj>
        ensures found { IfSome result
            (λ object. slice_get self.now.known.names object ≡ Some name.now) }
        ensures none { IfNone result (¬ (Contains self.now.known.names name.now)) }
    {
        match Name::from_slice(self.alloc, name) {
            Ok(sought) => self.place_of(&sought),
            Err(_) => place_in(self.names(), name),
        }
    }

    /// The same of a name as the store keeps it. It takes no memory.
    fn place_of(&self, name: &Name) -> Option<Obj>
        ensures found { IfSome result
            (λ object. slice_get self.now.known.names object ≡ Some name.now) }
        ensures none { IfNone result (¬ (Contains self.now.known.names name.now)) }
    {
        let (place, _) = self.names.get_full(name)?;
        Some(Obj::new(place as u32))
    }

    /// The objects that have this type, each once, in the order in which that became known: those
    /// that `object` gives one by one. Fails only where memory is wanting.
    pub fn objects_with(&self, alloc: Global, sort: u32) -> Result<Vec<Obj>, AllocError>
        ensures { IfOk result (λ objects. objects.items ≡ objects_of self.now.known.facts sort) }
    {
        self.facts.objects_with(alloc, sort)
    }

    /// The number of a name, which is put behind the others where it is new. Fails only where
    /// memory is wanting, and leaves all as it was then.
    pub fn add_name(&mut self, name: Name) -> Result<Obj, AllocError>
        requires { length self.old.known.names < MOST_NAMES }
        ensures object { IfOk result (λ object. slice_get self.new.known.names object ≡ Some name) }
        ensures names { OnOk result (self.new.known.names ≡ with_name self.old.known.names name) }
        ensures facts { self.new.known.facts ≡ self.old.known.facts }
        ensures values { self.new.known.values ≡ self.old.known.values }
        ensures err { OnErr result (self.new ≡ self.old) }
    {
        let (place, _) = self.names.insert_full(name)?;
        Ok(Obj::new(place as u32))
    }

    /// Puts a fact behind the others, and answers true, or answers false where it is there. Fails
    /// only where memory is wanting, and leaves all as it was then.
    pub fn add(&mut self, fact: Fact) -> Result<bool, AllocError>
        requires { All (IsIn self.old.known.names) fact.args }
        ensures fresh { IfOk result (λ fresh. fresh ≡ not (is_fact self.old.known.facts fact)) }
        ensures facts { OnOk result (self.new.known.facts ≡ with_fact self.old.known.facts fact) }
        ensures names { self.new.known.names ≡ self.old.known.names }
        ensures values { self.new.known.values ≡ self.old.known.values }
        ensures err { OnErr result (self.new ≡ self.old) }
    {
        let fresh = self.add_uncovered(fact)?;
        self.cover();
        Ok(fresh)
    }

    /// The same, where no table needs to find the fact yet: `cover` lets them.
    pub(crate) fn add_uncovered(&mut self, fact: Fact) -> Result<bool, AllocError>
        requires { All (IsIn self.old.known.names) fact.args }
        ensures fresh { IfOk result (λ fresh. fresh ≡ not (is_fact self.old.known.facts fact)) }
        ensures facts { OnOk result (self.new.known.facts ≡ with_fact self.old.known.facts fact) }
        ensures names { self.new.known.names ≡ self.old.known.names }
        ensures values { self.new.known.values ≡ self.old.known.values }
        ensures err { OnErr result (self.new ≡ self.old) }
    {
        self.facts.insert_uncovered(fact)
    }

    /// Lets the tables find all facts, or as many as memory reaches for.
    pub(crate) fn cover(&mut self)
        ensures { self.new ≡ self.old }
    {
        self.facts.cover();
    }

    /// Puts the value of a function's term behind the others, and answers true, or answers false
    /// where this value of this term is there. Fails only where memory is wanting, and leaves all
    /// as it was then.
    pub fn add_value(&mut self, func: u32, args: Row, value: u32) -> Result<bool, AllocError>
        requires objects { All (IsIn self.old.known.names) args }
        requires cost { value ≤ LARGEST_NUMBER }
        ensures fresh { IfOk result
            (λ fresh. fresh ≡ not (list_any
            (same_value (record { func = func; args = args; value = value }))
            self.old.known.values)) }
        ensures values { OnOk result
            (self.new.known.values ≡ with_value self.old.known.values
            (record { func = func; args = args; value = value })) }
        ensures names { self.new.known.names ≡ self.old.known.names }
        ensures facts { self.new.known.facts ≡ self.old.known.facts }
        ensures err { OnErr result (self.new ≡ self.old) }
    {
        self.values.insert(Valued { func, args, value })
    }
}

impl Look for Facts {
    ghost known = { λ f. f.known };

    ghost coherent = { λ f. f.coherent };

    fn has(&self, fact: &Fact) -> bool {
        self.facts.contains(fact)
    }

    fn count(&self, sort: u32) -> usize {
        self.facts.count(sort)
    }

    fn object(&self, sort: u32, place: usize) -> Obj {
        match self.facts.object(sort, place) {
            Some(object) => object,
            None => unreachable!(),
        }
    }

    fn value(&self, func: u32, args: &[Obj]) -> Option<u32> {
        self.values.value(func, args)
    }

    fn name(&self, object: Obj) -> &Name {
        &self.names.as_slice()[object.place() as usize]
    }

    fn matches(&self, pred: u32, place: usize, object: Obj) -> usize {
        self.facts.matches(pred, place, object)
    }

    fn matched(&self, pred: u32, place: usize, object: Obj, number: usize) -> &[Obj] {
        match self.facts.matched(pred, place, object, number) {
            Some(args) => args,
            None => unreachable!(),
        }
    }
}
