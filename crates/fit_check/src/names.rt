//! Names.
ghost use Rattle.std.specs.Prelude.{◌≡◌, ◌+◌, ◌<◌, map, length, drop, Some, slice_get};
ghost use Rattle.std.specs.List.{list_any, list_all};
ghost use Rattle.task_model.specs.Fit as fit;
ghost use Rattle.task_model.specs.Known.{same_numbers};
ghost use Rattle.fit_check.specs.Tests.{are_different, are_fit_names};

use task_model::{Action, Declared, Name, Signature, Sort, Stream, is_name};

/// What has a name.
pub(crate) trait Named {
    ghost use Rattle.std.specs.Prelude.{List, ℕ};

    ghost named: { Self → List ℕ };

    /// Its name.
    fn name(&self) -> &Name
        ensures { result.now ≡ named self.now };
}

impl Named for Sort {
    ghost named = { λ s. s.name };

    fn name(&self) -> &Name {
        &self.name
    }
}

impl Named for Signature {
    ghost named = { λ s. s.name };

    fn name(&self) -> &Name {
        &self.name
    }
}

impl Named for Declared {
    ghost named = { λ d. d.name };

    fn name(&self) -> &Name {
        &self.name
    }
}

impl Named for Action {
    ghost named = { λ a. a.name };

    fn name(&self) -> &Name {
        &self.name
    }
}

impl Named for Stream {
    ghost named = { λ s. s.name };

    fn name(&self) -> &Name {
        &self.name
    }
}

/// Whether the names are equal.
pub(crate) fn same_name(name: &Name, other: &Name) -> bool
    ensures { result ≡ same_numbers name.now other.now }
{
    name.bytes() == other.bytes()
}

/// Whether the name of the item at this place is that of one behind it.
fn is_repeated<T: Named>(items: &[T], place: usize) -> bool
    requires { place < length items.now }
    ensures { (x : T) → slice_get items.now place ≡ Some x → result
        ≡ list_any (λ y. same_numbers (T.named x) (T.named y)) (drop (place + 1) items.now) }
{
    let name = items[place].name();
    for other in place + 1..items.len() {
        if same_name(name, items[other].name()) {
            return true;
        }
    }
    false
}

/// Whether no two of these have the same name.
fn have_different_names<T: Named>(items: &[T]) -> bool
    ensures { result ≡ are_different (map T.named items.now) }
{
    for place in 0..items.len() {
        if is_repeated(items, place) {
            return false;
        }
    }
    true
}

/// Whether these have names.
fn have_names<T: Named>(items: &[T]) -> bool
    ensures { result ≡ list_all (λ x. fit.is_name (T.named x)) items.now }
{
    items.iter().all(|item| is_name(item.name().bytes()))
}

/// Whether these have names, each its own.
pub(crate) fn are_named<T: Named>(items: &[T]) -> bool
    ensures { result ≡ are_fit_names (map T.named items.now) }
{
    have_names(items) && have_different_names(items)
}
