//! What is known, with a list of the objects of one type.
ghost use Rattle.std.specs.Prelude.{◌≡◌, IfOk};
ghost use Rattle.std.specs.Option.{ForSome};
ghost use Rattle.task_model.specs.Known.{objects_of as objects_with};

use std::alloc::{AllocError, Global};
use task_model::{Fact, Kind, Look, Name, Obj};

/// What is known, with a list of the objects of one type, which finds them without a look-up.
#[derive(Drop)]
pub(crate) struct Listed<'a, L: Look> {
    look: &'a L,
    /// The type, if there is a list.
    sort: Option<u32>,
    /// The objects that have it.
    objects: Vec<Obj>,
    ghost right: { ForSome sort
        (λ listed. objects.items ≡ objects_with (L.known look.now).facts listed) },
}

/// The objects that have the type. Fails only where memory is wanting.
fn objects_of<L: Look>(alloc: Global, look: &L, sort: u32) -> Result<Vec<Obj>, AllocError>
    ensures { IfOk result (λ objects. objects.items ≡ objects_with (L.known look.now).facts sort) }
{
    let count = look.count(sort);
    let mut objects = Vec::with_capacity(alloc, count)?;
    for place in 0..count {
        objects.push(look.object(sort, place))?;
    }
    Ok(objects)
}

impl<'a, L: Look> Listed<'a, L> {
    ghost use Rattle.std.specs.Prelude.{IsTrue, Contains, true};
    ghost use Rattle.task_model.specs.Known.{is_fact};

    /// What is known, with a list of the objects of this type, or with none. Fails only where
    /// memory is wanting.
    pub(crate) fn new(
        alloc: Global,
        look: &'a L,
        sort: Option<u32>,
    ) -> Result<Listed<'a, L>, AllocError>
        ensures { IfOk result (λ listed. listed.look.now ≡ look.now) }
    {
        let objects = match sort {
            Some(sort) => objects_of(alloc, look, sort)?,
            None => Vec::new(alloc),
        };
        Ok(Listed {
            look,
            sort,
            objects,
        })
    }

    /// Whether the object is found in the list: where its place is as far behind the first's as its
    /// number there. Objects that were declared together are.
    fn lists(&self, object: Obj) -> bool
        ensures { IsTrue result → Contains self.now.objects.items object }
    {
        let objects = self.objects.as_slice();
        let Some(first) = objects.first() else {
            return false;
        };
        let Some(number) = object.place().checked_sub(first.place()) else {
            return false;
        };
        match objects.get(number as usize) {
            Some(found) => *found == object,
            None => false,
        }
    }

    /// Whether the fact is found by the list.
    fn is_found(&self, fact: &Fact) -> bool
        ensures { IsTrue result → is_fact (L.known self.now.look.now).facts fact.now ≡ true }
    {
        match (self.sort, fact.kind, fact.args.as_slice()) {
            (Some(sort), Kind::Sort, [object]) => sort == fact.name && self.lists(*object),
            _ => false,
        }
    }
}

impl<'a, L: Look> Look for Listed<'a, L> {
    ghost known = { λ listed. L.known listed.look.now };

    ghost coherent = { λ listed. L.coherent listed.look.now };

    fn has(&self, fact: &Fact) -> bool {
        self.is_found(fact) || self.look.has(fact)
    }

    fn count(&self, sort: u32) -> usize {
        self.look.count(sort)
    }

    fn object(&self, sort: u32, place: usize) -> Obj {
        match self.sort {
            Some(listed) if listed == sort => self.objects[place],
            _ => self.look.object(sort, place),
        }
    }

    fn value(&self, func: u32, args: &[Obj]) -> Option<u32> {
        self.look.value(func, args)
    }

    fn name(&self, object: Obj) -> &Name {
        self.look.name(object)
    }

    fn matches(&self, pred: u32, place: usize, object: Obj) -> usize {
        self.look.matches(pred, place, object)
    }

    fn matched(&self, pred: u32, place: usize, object: Obj, number: usize) -> &[Obj] {
        self.look.matched(pred, place, object, number)
    }
}
