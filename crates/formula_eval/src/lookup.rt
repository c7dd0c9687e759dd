//! The objects of terms, and types.
ghost use Rattle.std.specs.Prelude.{◌≡◌, ◌≤◌, length, true};
ghost use Rattle.std.specs.List.{list_all};
ghost use Rattle.task_model.specs.Truth.{object_of as object_of_term, has_type, have_types as types_fit, objects_at as objects_of_terms};
ghost use Rattle.formula_eval.specs.Readable.{is_readable_term};

use crate::env::Env;
use std::alloc::Global;
use task_model::{Fact, Kind, Look, Obj, Row, Term};

/// The object that a term stands for.
pub fn object_of(term: Term, env: &Env) -> Obj
    requires { is_readable_term term ≡ true }
    ensures { result ≡ object_of_term env.now term }
{
    match term {
        Term::Slot(slot) => env.get(slot),
        Term::Object(object) => object,
    }
}

/// A row of at most eight objects, which takes no memory.
fn short_row(alloc: Global, objects: &[Obj]) -> Row
    requires { length objects.now ≤ 8 }
    ensures { result ≡ objects.now }
{
    match Row::new(alloc, objects) {
        Ok(row) => row,
        Err(_) => unreachable!(),
    }
}

/// The objects that at most eight terms stand for. It takes no memory.
pub fn objects_at(alloc: Global, terms: &[Term], env: &Env) -> Row
    requires short { length terms.now ≤ 8 }
    requires readable { list_all is_readable_term terms.now ≡ true }
    ensures { result ≡ objects_of_terms env.now terms.now }
{
    let mut objects = [Obj::new(0); 8];
    for (place, term) in terms.iter().enumerate() {
        objects[place] = object_of(*term, env);
    }
    short_row(alloc, &objects[..terms.len()])
}

/// Whether the object has the type.
fn has_type_of<L: Look>(alloc: Global, look: &L, object: Obj, sort: u32) -> bool
    ensures { result ≡ has_type (L.known look.now) object sort }
{
    let args = short_row(alloc, &[object]);
    look.has(&Fact {
        kind: Kind::Sort,
        name: sort,
        args,
    })
}

/// Whether there are as many objects as types, and each has its type. It takes no memory.
pub fn have_types<L: Look>(alloc: Global, look: &L, objects: &[Obj], sorts: &[u32]) -> bool
    ensures { result ≡ types_fit (L.known look.now) objects.now sorts.now }
{
    if objects.len() != sorts.len() {
        return false;
    }
    for (place, object) in objects.iter().enumerate() {
        if !has_type_of(alloc, look, *object, sorts[place]) {
            return false;
        }
    }
    true
}
