//! The values of functions' terms, with the least of each term.
ghost use Rattle.std.specs.Prelude.{◌≡◌, ◌++◌, [], List, not, if◌then◌else◌, Some, IfOk, OnOk, OnErr};
ghost use Rattle.std.specs.List.{list_any};
ghost use Rattle.task_model.specs.Known.{same_value, with_value, value_of};
ghost use Rattle.task_model.specs.Known as known;
ghost use Rattle.task_model.specs.declared.task.Valued.{Valued};
ghost use Rattle.fact_store.specs.Least.{Term, lesser_of, least_in, same_term};

use indexmap::{IndexMap, IndexSet};
use std::alloc::{AllocError, Global};
use std::hash::BuildHasherDefault;
use std::marker::Model;
use task_model::{NumberHasher, Obj, Row, Valued};

/// A function's term: the function and its arguments.
type Term = (u32, Row);

/// Numbers by terms.
type Terms = IndexMap<Term, u32, BuildHasherDefault<NumberHasher>>;

/// The values in the order in which they came. Contracts see the list of them. `least` has the
/// least value of each term among the first `done`, mostly all of them: where memory is wanting it
/// stays behind, and the others are searched.
#[derive(Drop)]
pub struct ValueTable {
    values: IndexSet<Valued, BuildHasherDefault<NumberHasher>>,
    least: Terms,
    done: usize,
    alloc: Global,
}

impl Model for ValueTable {
    ghost use Rattle.std.specs.Prelude.{List};
    ghost use Rattle.std.specs.Coded.{coded_list};
    ghost use Rattle.task_model.specs.declared.task.Valued.{Valued};
    ghost use Rattle.fact_store.specs.Store.{coded_valued};
    ghost use Rattle.fact_store.specs.Least.{HasLeast};

    ghost Value = { List Valued };

    ghost coded = { coded_list coded_valued };

    ghost view = { λ t. t.values.keys };

    ghost invariant = { λ t. HasLeast t.values.keys t.least t.done };
}

/// Whether the value is one of this function's term.
fn is_value_of(v: &Valued, func: u32, args: &[Obj]) -> bool
    ensures { result ≡ known.is_value_of func args.now v.now }
{
    v.func == func && v.args.as_slice() == args
}

/// The lesser of two numbers, or the second where there is no first.
fn lesser(least: Option<u32>, value: u32) -> u32
    ensures { result ≡ lesser_of least value }
{
    match least {
        Some(least) => least.min(value),
        None => value,
    }
}

/// The least of the term's values, where `least` is the least of those that came before these.
fn least_value(least: Option<u32>, values: &[Valued], func: u32, args: &[Obj]) -> Option<u32>
    ensures { (before : List Valued) → least ≡ value_of before func args.now → result
        ≡ value_of (before ++ values.now) func args.now }
{
    let mut least = least;
    for v in values {
        if is_value_of(v, func, args) {
            least = Some(lesser(least, v.value));
        }
    }
    least
}

/// Takes a value among those that the table covers. Fails only where memory is wanting, and then
/// each term has its value still.
fn put(least: &mut Terms, v: &Valued) -> Result<(), AllocError>
    ensures ok { OnOk result ((q : Term) → least_in least.new q
        ≡ (if same_term (v.now.func, v.now.args) q then Some
        (lesser_of (least_in least.old q) v.now.value) else least_in least.old q)) }
    ensures err { OnErr result ((q : Term) → least_in least.new q ≡ least_in least.old q) }
{
    let term = (v.func, v.args.copy()?);
    let value = lesser(least.get(&term).copied(), v.value);
    least.insert(term, value)?;
    Ok(())
}

impl ValueTable {
    /// The table without values, which takes no memory.
    pub fn new(alloc: Global) -> ValueTable
        ensures { result ≡ [] }
    {
        ValueTable {
            values: IndexSet::with_hasher(alloc, BuildHasherDefault::new()),
            least: IndexMap::with_hasher(alloc, BuildHasherDefault::new()),
            done: 0,
            alloc,
        }
    }

    /// Whether this value of the term is there.
    pub fn contains(&self, value: &Valued) -> bool
        ensures { result ≡ list_any (same_value value.now) self.now }
    {
        self.values.contains(value)
    }

    /// Puts a value behind the others, and answers true, or answers false where it is there. Fails
    /// only where memory is wanting, and leaves all as it was then.
    pub fn insert(&mut self, value: Valued) -> Result<bool, AllocError>
        ensures fresh { IfOk result (λ fresh. fresh ≡ not (list_any (same_value value) self.old)) }
        ensures values { OnOk result (self.new ≡ with_value self.old value) }
        ensures err { OnErr result (self.new ≡ self.old) }
    {
        let fresh = self.values.insert(value)?;
        self.cover();
        Ok(fresh)
    }

    /// Lets the table cover the values up to the last, or as far as memory reaches.
    fn cover(&mut self)
        ensures { self.new ≡ self.old }
    {
        while let Some(value) = self.values.as_slice().get(self.done) {
            match put(&mut self.least, value) {
                Ok(()) => self.done += 1,
                Err(_) => return,
            }
        }
    }

    /// The least value of the function's term, or None where there is none.
    pub fn value(&self, func: u32, args: &[Obj]) -> Option<u32>
        ensures { result ≡ value_of self.now func args.now }
    {
        let values = self.values.as_slice();
        match Row::new(self.alloc, args) {
            Ok(row) => {
                let least = self.least.get(&(func, row)).copied();
                least_value(least, &values[self.done..], func, args)
            }
            Err(_) => least_value(None, values, func, args),
        }
    }
}
