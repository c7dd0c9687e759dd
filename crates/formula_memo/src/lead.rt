//! Atoms that have to be true so that a condition is, and the objects that their terms can have.
ghost use Rattle.std.specs.Prelude.{◌≡◌, true, ℕ, List, IfSome};
ghost use Rattle.std.specs.List.{list_all};
ghost use Rattle.task_model.specs.Truth.{object_of as object_in, objects_at};
ghost use Rattle.formula_eval.specs.Readable.{is_readable_term};
ghost use Rattle.formula_memo.specs.Tries.{IsSameBelow};

use formula_eval::Env;
use task_model::{Obj, Term};

/// Where an atom has to be so that it is true.
#[derive(Clone, Copy)]
pub(crate) enum Among {
    /// In the state, if its predicate is a fluent.
    State,
    /// Among the facts that have this object at this place, if its predicate is static.
    Facts { at: usize, object: Obj },
}

/// An atom that has to be true so that a condition is, and the place of a slot among its terms.
#[derive(Clone, Copy)]
pub(crate) struct Lead<'a> {
    pub(crate) pred: u32,
    pub(crate) terms: &'a [Term],
    pub(crate) place: usize,
    pub(crate) among: Among,
}

/// The object of the term, as far as the slots below this one say.
pub(crate) fn filled(term: Term, slot: u8, env: &Env) -> Option<Obj>
    requires { is_readable_term term ≡ true }
    ensures { IfSome result (λ object. (after : List ℕ) → IsSameBelow slot env.now after
        → object_in after term ≡ object) }
{
    match term {
        Term::Slot(other) if other < slot => Some(env.get(other)),
        Term::Slot(_) => None,
        Term::Object(object) => Some(object),
    }
}

/// Whether the term can be this object, as far as the slots below this one say.
fn can_be(term: Term, object: Obj, slot: u8, env: &Env) -> bool
    requires { is_readable_term term ≡ true }
    ensures { (after : List ℕ) → object ≡ object_in after term → IsSameBelow slot env.now after
        → result ≡ true }
{
    match filled(term, slot, env) {
        Some(known) => known == object,
        None => true,
    }
}

/// Whether these can be the objects of the terms, as far as the slots below this one say.
pub(crate) fn agrees(terms: &[Term], objects: &[Obj], slot: u8, env: &Env) -> bool
    requires { list_all is_readable_term terms.now ≡ true }
    ensures { (after : List ℕ) → objects.now ≡ objects_at after terms.now
        → IsSameBelow slot env.now after → result ≡ true }
{
    for (place, term) in terms.iter().enumerate() {
        let Some(object) = objects.get(place) else {
            return false;
        };
        if !can_be(*term, *object, slot, env) {
            return false;
        }
    }
    true
}
