//! What gives the places in a condition their names.
ghost use Rattle.std.specs.Prelude.{◌≡◌, ◌++◌, IfOk, OnOk};
ghost use Rattle.task_model.specs.Streams.{name_at as name_in};
ghost use Rattle.condition_text.specs.Texts as specs;

use std::alloc::{AllocError, Global};
use task_model::{Domain, Formula, Name, Obj, Term};

/// What gives the places in a condition their names: a domain, the names of objects by their
/// places, and the objects that the first slots hold, which are an action's arguments.
#[derive(Clone, Copy)]
pub struct Naming<'a> {
    /// The domain, whose predicates and types the condition names.
    pub domain: &'a Domain,
    /// The names of the objects, by their places.
    pub names: &'a [Name],
    /// The objects in the slots from 0 on. The slots behind them are variables.
    pub objects: &'a [Obj],
}

impl Naming<'_> {
    /// The condition as PDDL text: each slot with an object is that object's name. A variable that
    /// the condition binds is `?x` and the number of its slot. Between two words stands one space.
    /// Fails only where memory is wanting.
    pub fn condition_text(&self, alloc: Global, formula: &Formula) -> Result<Vec<u8>, AllocError>
        ensures { IfOk result (λ text. text.items
            ≡ specs.condition_text self.now.domain.now self.now.names.now self.now.objects.now
            formula.now) }
    {
        let mut text = Vec::new(alloc);
        self.put_condition(alloc, &mut text, formula)?;
        Ok(text)
    }

    /// The name of an object, and no bytes where the table has none.
    fn name_at(&self, object: Obj) -> &[u8]
        ensures { result.now ≡ name_in self.now.names.now object }
    {
        match self.names.get(object.place() as usize) {
            Some(name) => name.bytes(),
            None => &[],
        }
    }

    /// The name of a predicate, and no bytes where the domain has none.
    pub(crate) fn predicate_at(&self, place: u32) -> &[u8]
        ensures { result.now ≡ specs.predicate_name self.now.domain.now place }
    {
        match self.domain.predicates.as_slice().get(place as usize) {
            Some(predicate) => predicate.name.bytes(),
            None => &[],
        }
    }

    /// The name of a type, and no bytes where the domain has none.
    pub(crate) fn sort_at(&self, place: u32) -> &[u8]
        ensures { result.now ≡ specs.sort_name self.now.domain.now place }
    {
        match self.domain.sorts.as_slice().get(place as usize) {
            Some(sort) => sort.name.bytes(),
            None => &[],
        }
    }

    /// Puts the variable of a slot behind the text.
    pub(crate) fn put_variable(
        &self,
        alloc: Global,
        text: &mut Vec<u8>,
        slot: usize,
    ) -> Result<(), AllocError>
        ensures { OnOk result (text.new.items ≡ text.old.items ++ specs.variable slot) }
    {
        let word = format!(in alloc; "?x{slot}")?;
        text.extend_from_slice(word.as_bytes())
    }

    /// Puts a term behind the text.
    pub(crate) fn put_term(
        &self,
        alloc: Global,
        text: &mut Vec<u8>,
        term: Term,
    ) -> Result<(), AllocError>
        ensures { OnOk result (text.new.items ≡ text.old.items
            ++ specs.term_text self.now.names.now self.now.objects.now term) }
    {
        match term {
            Term::Object(object) => text.extend_from_slice(self.name_at(object)),
            Term::Slot(slot) => match self.objects.get(slot as usize) {
                Some(object) => text.extend_from_slice(self.name_at(*object)),
                None => self.put_variable(alloc, text, slot as usize),
            },
        }
    }
}
