//! Tuples of which some objects are fixed.
ghost use Rattle.std.specs.Prelude.{◌≡◌, ◌<◌, ◌≤◌, ◌↔◌, List, ℕ, length, true, Some, None, IfSome, IfOk, IsTrue, slice_get, slice_index, Contains, MatchOption};
ghost use Rattle.std.specs.List.{list_all};
ghost use Rattle.formula_eval.specs.Readable.{is_readable_term};
ghost use Rattle.task_model.specs.Truth.{object_of, objects_at, slots_of};
ghost use Rattle.fact_join.specs.Partials.{Agrees, Narrows, IsFixed, IsGrounding, AreFixed, free_slots, left_if};
ghost use Rattle.task_model.specs.declared.condition.Term.TheVariants.{Slot};
ghost use Rattle.task_model.specs.declared.limits.TheConstants.{SLOTS};

use formula_eval::Env;
use std::alloc::{AllocError, Global};
use task_model::{Obj, Row, SLOTS, Term};

/// [`SLOTS`] slots, some of which have an object: the tuples that agree with it have these objects
/// there.
#[derive(Clone, Copy, Debug)]
pub struct Partial {
    /// The slots, each with its object, or None where it is free.
    pub slots: [Option<Obj>; SLOTS],
}

/// What an atom's terms are, as far as a partial tuple says.
pub(crate) enum Grounding {
    /// They are these objects.
    Row(Row),
    /// One of them is this slot, which is free.
    Free(u8),
}

impl Partial {
    /// The one with which all tuples agree: each slot is free.
    pub fn new() -> Partial
        ensures { (slots : List ℕ) → Agrees result slots }
    {
        Partial {
            slots: [None; SLOTS],
        }
    }

    /// The object in this slot, which is below [`SLOTS`], or None where it is free.
    fn get(&self, slot: u8) -> Option<Obj>
        requires { slot < SLOTS }
        ensures { slice_get self.now.slots slot ≡ Some result }
    {
        self.slots[slot as usize]
    }

    /// Puts an object into this slot, which is below [`SLOTS`] and free.
    fn put(&mut self, slot: u8, object: Obj)
        requires slot { slot < SLOTS }
        requires free { slice_get self.old.slots slot ≡ Some None }
        ensures agrees { (slots : List ℕ)
            → Agrees self.new slots ↔ (Agrees self.old slots × (slice_index slots slot ≡ object)) }
        ensures fewer { free_slots self.new < free_slots self.old }
    {
        self.slots[slot as usize] = Some(object);
    }

    /// The same with an object in this slot, which is below [`SLOTS`] and free.
    pub fn with(&self, slot: u8, object: Obj) -> Partial
        requires slot { slot < SLOTS }
        requires free { slice_get self.now.slots slot ≡ Some None }
        ensures agrees { (slots : List ℕ)
            → Agrees result slots ↔ (Agrees self.now slots × (slice_index slots slot ≡ object)) }
        ensures fewer { free_slots result < free_slots self.now }
    {
        let mut more = *self;
        more.put(slot, object);
        more
    }

    /// The object that the term has in each tuple that agrees, or None where it is a free slot.
    pub(crate) fn fixed(&self, term: Term) -> Option<Obj>
        requires { is_readable_term term ≡ true }
        ensures { IfSome result (IsFixed self.now term) }
    {
        match term {
            Term::Slot(slot) => self.get(slot),
            Term::Object(object) => Some(object),
        }
    }

    /// Leaves what agrees where the term has to be this object, or answers false where it can't be.
    fn bind(&mut self, term: Term, object: Obj) -> bool
        requires { is_readable_term term ≡ true }
        ensures { Narrows self.old (λ slots. object_of slots term ≡ object)
            (left_if result self.new) }
    {
        match term {
            Term::Object(same) => same == object,
            Term::Slot(slot) => match self.get(slot) {
                None => {
                    self.put(slot, object);
                    true
                }
                Some(same) => same == object,
            },
        }
    }

    /// Leaves what agrees where the terms have to be these objects, one by one, or answers false
    /// where they can't be.
    fn bind_all(&mut self, terms: &[Term], objects: &[Obj]) -> bool
        requires { list_all is_readable_term terms.now ≡ true }
        ensures { Narrows self.old (λ slots. objects_at slots terms.now ≡ objects.now)
            (left_if result self.new) }
    {
        match (terms.split_first(), objects.split_first()) {
            (None, None) => true,
            (Some((term, terms)), Some((object, objects))) => {
                self.bind(*term, *object) && self.bind_all(terms, objects)
            }
            _ => false,
        }
    }

    /// What is left where the terms have to be these objects, one by one, or None where they can't
    /// be.
    pub fn fit(&self, terms: &[Term], objects: &[Obj]) -> Option<Partial>
        requires { list_all is_readable_term terms.now ≡ true }
        ensures { Narrows self.now (λ slots. objects_at slots terms.now ≡ objects.now) result }
    {
        let mut left = *self;
        if left.bind_all(terms, objects) {
            Some(left)
        } else {
            None
        }
    }

    /// The first of the terms that is a free slot.
    fn free_in(&self, terms: &[Term]) -> Option<u8>
        requires { list_all is_readable_term terms.now ≡ true }
        ensures { IfSome result (λ slot. Contains terms.now (Slot slot)
            × (slice_get self.now.slots slot ≡ Some None)) }
    {
        for term in terms {
            if let Term::Slot(slot) = *term {
                if self.get(slot).is_none() {
                    return Some(slot);
                }
            }
        }
        None
    }

    /// The objects of the terms, if each is fixed, and else one of them that is a free slot. Fails
    /// only where memory is wanting.
    pub(crate) fn ground(&self, alloc: Global, terms: &[Term]) -> Result<Grounding, AllocError>
        requires { list_all is_readable_term terms.now ≡ true }
        ensures { IfOk result (IsGrounding self.now terms.now) }
    {
        if let Some(slot) = self.free_in(terms) {
            return Ok(Grounding::Free(slot));
        }
        let mut row = Row::empty(alloc);
        for term in terms {
            let object = match *term {
                Term::Object(object) => object,
                Term::Slot(slot) => match self.get(slot) {
                    Some(object) => object,
                    None => return Ok(Grounding::Free(slot)),
                },
            };
            row.push(object)?;
        }
        Ok(Grounding::Row(row))
    }

    /// The first free slot among the first `width`, of which there are at most [`SLOTS`].
    pub(crate) fn free_slot(&self, width: usize) -> Option<u8>
        requires { width ≤ SLOTS }
        ensures { MatchOption result (AreFixed self.now width)
            (λ slot. (slot < width) × (slice_get self.now.slots slot ≡ Some None)) }
    {
        for slot in 0..width as u8 {
            if self.get(slot).is_none() {
                return Some(slot);
            }
        }
        None
    }

    /// Whether a tuple of at most [`SLOTS`] objects agrees. Behind its objects a tuple counts as
    /// having the object 0.
    pub(crate) fn agrees(&self, tuple: &[Obj]) -> bool
        requires { length tuple.now ≤ SLOTS }
        ensures { IsTrue result ↔ Agrees self.now (slots_of tuple.now) }
    {
        let env = Env::new(tuple);
        for slot in 0..SLOTS as u8 {
            if let Some(object) = self.get(slot) {
                if env.get(slot) != object {
                    return false;
                }
            }
        }
        true
    }

    /// The objects in the slots, and the object 0 where a slot is free.
    pub(crate) fn objects(&self) -> [Obj; SLOTS]
        ensures { (slot object : ℕ) → slot < SLOTS
            → slice_get self.now.slots slot ≡ Some (Some object)
            → slice_get result slot ≡ Some object }
    {
        let mut objects = [Obj::new(0); SLOTS];
        for (slot, object) in self.slots.iter().enumerate() {
            if let Some(object) = *object {
                objects[slot] = object;
            }
        }
        objects
    }
}
