//! Some entries of a list of supposed ones, and what is known with them.
use fact_layer::{Layer, More};
use fact_store::Facts;
use instance_search::{is_reachable, stream_of};
use optimistic_set::{OptEntry, Supposed, add_certified};
use std::alloc::{AllocError, Global};
use std::marker::Model;
use task_model::{Name, Task};

/// Some entries of a list, in the order in which they were taken, with what they certify laid over
/// what is known without them. The placeholders of the whole list have names.
#[derive(Drop)]
pub struct Part<'a> {
    facts: &'a Facts,
    names: &'a [Name],
    entries: &'a [OptEntry],
    places: Vec<usize>,
    more: More,
}

impl<'a> Model for Part<'a> {
    ghost use Rattle.fact_layer.specs.Laid.{laid_over};
    ghost use Rattle.dreaming.specs.Parts.{Portion};

    ghost Value = { Portion };

    ghost view = { λ p. record {
      base = p.facts.now.known;
      list = p.entries.now;
      places = p.places.items;
      known = laid_over p.facts.now.known p.names.now p.more.facts p.more.values;
    } };
}

impl<'a> Part<'a> {
    ghost use Rattle.std.specs.Prelude.{◌≡◌, ◌<◌, ◌++◌, ◌∷◌, [], length, Some, slice_get, OnOk};
    ghost use Rattle.dreaming.specs.Parts.{IsListed, IsPortion, entries_at};
    ghost use Rattle.task_model.specs.Dreams.{SupposedEntry as AnyEntry, is_supported};
    ghost use Rattle.task_model.specs.declared.task.Task.{Task as AnyTask};

    /// The entry at this place of the list.
    fn entry(&self, place: usize) -> &'a OptEntry
        requires { place < length self.now.list }
        ensures { slice_get self.now.list place ≡ Some result.now }
    {
        match self.entries.get(place) {
            Some(entry) => entry,
            None => unreachable!(),
        }
    }

    /// Nothing of the list, which takes no memory.
    pub fn new(alloc: Global, supposed: &'a Supposed<'a>) -> Part<'a>
        ensures part { (task : AnyTask) → IsListed task supposed.now → IsPortion task result }
        ensures base { result.base ≡ supposed.now.base }
        ensures list { result.list ≡ supposed.now.list }
        ensures places { result.places ≡ [] }
    {
        Part {
            facts: supposed.facts(),
            names: supposed.names(),
            entries: supposed.entries(),
            places: Vec::new(alloc),
            more: More::new(alloc),
        }
    }

    /// What is known with the entries, for look-ups. It takes no memory.
    pub fn look(&self) -> Layer<'_>
        requires { (task : AnyTask) × IsPortion task self.now }
        ensures { result.known ≡ self.now.known }
    {
        Layer::new(self.facts, self.names, &self.more)
    }

    /// Whether the entry at this place of the list has support: its inputs have their types and its
    /// domain facts are known, by what is known with the entries.
    pub fn supports(&self, alloc: Global, task: &Task, place: usize) -> bool
        requires part { IsPortion task.now self.now }
        requires place { place < length self.now.list }
        ensures { (e : AnyEntry) → slice_get self.now.list place ≡ Some e
            → result ≡ is_supported task.now self.now.base self.now.list
            (entries_at self.now.list self.now.places) e }
    {
        let instance = self.entry(place).instance();
        match stream_of(task, instance.stream) {
            Some(stream) => is_reachable(alloc, stream, &self.look(), instance),
            None => false,
        }
    }

    /// Puts the entry at this place of the list behind the others. Fails only where memory is
    /// wanting; then the part is no longer one, and may not be asked again.
    pub fn take(&mut self, alloc: Global, task: &Task, place: usize) -> Result<(), AllocError>
        requires part { IsPortion task.now self.old }
        requires place { place < length self.old.list }
        ensures part { OnOk result (IsPortion task.now self.new) }
        ensures base { OnOk result (self.new.base ≡ self.old.base) }
        ensures list { OnOk result (self.new.list ≡ self.old.list) }
        ensures places { OnOk result (self.new.places ≡ self.old.places ++ place ∷ []) }
    {
        let entry = self.entry(place);
        let instance = entry.instance();
        let Some(stream) = stream_of(task, instance.stream) else {
            unreachable!()
        };
        let inputs = instance.inputs.as_slice();
        let outputs = entry.outputs();
        let domain = &task.domain;
        add_certified(
            alloc,
            &mut self.more,
            self.facts,
            domain,
            stream,
            inputs,
            outputs,
        )?;
        self.places.push(place)?;
        Ok(())
    }

    /// The places of the entries in the list.
    pub fn places(&self) -> &[usize]
        ensures { result.now ≡ self.now.places }
    {
        self.places.as_slice()
    }

    /// The places of the entries in the list.
    pub(crate) fn into_places(self) -> Vec<usize>
        ensures { result.items ≡ self.entry.places }
    {
        let Part { places, .. } = self;
        places
    }
}
