//! What planning looks up: the facts, the objects of a type, the values of functions, and names.
ghost use Rattle.std.specs.Prelude.{◌≡◌, ◌<◌, length, Some, slice_get};
ghost use Rattle.task_model.specs.Known.{Known, IsCoherent, atom_fact, is_fact, objects_of, value_of, matches_of};

use crate::fact::Fact;
use crate::name::Name;
use crate::object::Obj;

/// What is known, for look-ups: each call answers what one list of names, facts and values says.
pub trait Look {
    ghost known: { Self → Known };

    /// Whether the fact is known.
    fn has(&self, fact: &Fact) -> bool
        ensures { result ≡ is_fact (known self.now).facts fact.now };

    /// How many objects have the type, given by its place in the domain.
    fn count(&self, sort: u32) -> usize
        ensures { result ≡ length (objects_of (known self.now).facts sort) };

    /// The object at this place among those that have the type. Each stands there once.
    fn object(&self, sort: u32, place: usize) -> Obj
        requires { place < length (objects_of (known self.now).facts sort) }
        ensures { slice_get (objects_of (known self.now).facts sort) place ≡ Some result };

    /// The value of a function's term, given by the function's place in the domain: the least that
    /// is known, at most 1,000,000, or None where none is.
    fn value(&self, func: u32, args: &[Obj]) -> Option<u32>
        ensures { result ≡ value_of (known self.now).values func args.now };

    /// The name of an object, which has to be in the table of names.
    fn name(&self, object: Obj) -> &Name
        requires { object < length (known self.now).names }
        ensures { slice_get (known self.now).names object ≡ Some result.now };

    /// How many atoms of the predicate have the object at this place of their arguments.
    fn matches(&self, pred: u32, place: usize, object: Obj) -> usize
        ensures { result ≡ length (matches_of (known self.now).facts pred place object) };

    /// The arguments of one of these atoms, by its number from 0. Each stands there once.
    fn matched(&self, pred: u32, place: usize, object: Obj, number: usize) -> &[Obj]
        requires { number < length (matches_of (known self.now).facts pred place object) }
        ensures { slice_get (matches_of (known self.now).facts pred place object) number
            ≡ Some (atom_fact pred result.now) };

    /// Names, facts and values stand once each, objects have names, and values are costs.
    ghost coherent: { (look : Self) → IsCoherent (known look) };
}
