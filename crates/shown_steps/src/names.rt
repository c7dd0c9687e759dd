//! Looking up objects by their names.
ghost use Rattle.std.specs.Prelude.{◌≡◌, ℕ, List, Contains, Some, IfSome, IfNone, slice_get};

use fact_store::Facts;
use task_model::Obj;

/// A table of the names of objects, an object being its place there.
pub trait Named {
    ghost names: { Self → List (List ℕ) };

    /// The object with this name, or None exactly where no object has it.
    fn object_named(&self, name: &[u8]) -> Option<Obj>
        ensures found { IfSome result
            (λ object. slice_get (names self.now) object ≡ Some name.now) }
        ensures none { IfNone result (¬ (Contains (names self.now) name.now)) };
}

impl Named for Facts {
    ghost names = { λ f. f.known.names };

    fn object_named(&self, name: &[u8]) -> Option<Obj> {
        self.object_of(name)
    }
}
