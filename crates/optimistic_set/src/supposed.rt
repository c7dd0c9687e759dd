//! A list of supposed entries, for look-ups.
ghost use Rattle.task_model.specs.Known.{IsCoherent};
ghost use Rattle.fact_layer.specs.Laid.{laid_over};
ghost use Rattle.fact_store.specs.Store.{coherent_prop};

use crate::draft::Draft;
use crate::entry::OptEntry;
use fact_layer::Layer;
use fact_store::Facts;
use std::marker::Model;
use task_model::{Name, Task};

/// The entries that may be supposed over a store, with what is known with all of them.
#[derive(Drop)]
pub struct Supposed<'a> {
    draft: Draft<'a>,
    ghost coherent: { IsCoherent (laid_over draft.facts.now.known draft.names.items
        draft.more.facts draft.more.values) } by { coherent_prop
            (laid_over draft.facts.now.known draft.names.items draft.more.facts
            draft.more.values) },
}

impl<'a> Model for Supposed<'a> {
    ghost use Rattle.fact_layer.specs.Laid.{laid_over};
    ghost use Rattle.optimistic_set.specs.Dreamable.{Dreamable};

    ghost Value = { Dreamable };

    ghost view = { λ s. record {
      base = s.draft.facts.now.known;
      list = s.draft.entries.items;
      known = laid_over s.draft.facts.now.known s.draft.names.items s.draft.more.facts
          s.draft.more.values;
      coherent = s.coherent;
    } };
}

impl<'a> Supposed<'a> {
    ghost use Rattle.std.specs.Prelude.{◌≡◌, ◌<◌, ◌++◌, length, Some, slice_get};
    ghost use Rattle.optimistic_set.specs.Drafts.{IsDraft};
    ghost use Rattle.optimistic_set.specs.Entries.{IsBase, ArePlainEntries};
    ghost use Rattle.task_model.specs.Dreams.{supposing};

    /// What was written.
    pub(crate) fn new(task: &Task, draft: Draft<'a>) -> Supposed<'a>
        requires base { IsBase task.now draft.facts.now.known }
        requires draft { IsDraft task.now draft.facts.now.known draft }
        ensures base { result.base ≡ draft.entry.facts.now.known }
        ensures list { result.list ≡ draft.entry.entries.items }
        ensures known { result.known ≡ supposing task.now draft.entry.facts.now.known
            draft.entry.entries.items draft.entry.entries.items }
        ensures plain { ArePlainEntries task.now draft.entry.facts.now.known
            draft.entry.entries.items }
    {
        Supposed { draft }
    }

    /// How many entries there are.
    pub fn len(&self) -> usize
        ensures { result ≡ length self.now.list }
    {
        self.draft.entries.len()
    }

    /// The entry at this place, from 0.
    pub fn entry(&self, place: usize) -> &OptEntry
        requires { place < length self.now.list }
        ensures { slice_get self.now.list place ≡ Some result.now }
    {
        &self.draft.entries.as_slice()[place]
    }

    /// The entries.
    pub fn entries(&self) -> &[OptEntry]
        ensures { result.now ≡ self.now.list }
    {
        self.draft.entries.as_slice()
    }

    /// What is known without the entries.
    pub fn facts(&self) -> &Facts
        ensures { result.now.known ≡ self.now.base }
    {
        self.draft.facts
    }

    /// The placeholders' names, which stand behind those of the objects.
    pub fn names(&self) -> &[Name]
        ensures { self.now.known.names ≡ self.now.base.names ++ result.now }
    {
        self.draft.names.as_slice()
    }

    /// What is known with all entries, for look-ups. It takes no memory.
    pub fn look(&self) -> Layer<'_>
        ensures { result.known ≡ self.now.known }
    {
        Layer::new(
            self.draft.facts,
            self.draft.names.as_slice(),
            &self.draft.more,
        )
    }
}
