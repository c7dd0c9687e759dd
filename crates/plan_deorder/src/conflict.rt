//! Whether steps conflict.
ghost use Rattle.std.specs.Prelude.{◌≡◌};
ghost use Rattle.std.specs.List.{list_any};
ghost use Rattle.task_model.specs.State.{contains, items};
ghost use Rattle.plan_deorder.specs.Clashes.{clash, disturbs, is_read};

use crate::touched::Touched;
use task_model::{Atom, State};

/// Whether the sets have an atom in common.
fn meet(first: &State, second: &State) -> bool
    ensures { result ≡ list_any (contains second.now) (items first.now) }
{
    for atom in first.as_slice() {
        if second.has(atom) {
            return true;
        }
    }
    false
}

/// Whether the step reads the atom.
fn reads(touched: &Touched, atom: &Atom) -> bool
    ensures { result ≡ is_read touched.now atom.now }
{
    touched.reads.has(atom) || touched.whole.as_slice().contains(&atom.pred)
}

/// Whether the step reads one of the atoms.
fn reads_some(touched: &Touched, atoms: &State) -> bool
    ensures { result ≡ list_any (is_read touched.now) (items atoms.now) }
{
    for atom in atoms.as_slice() {
        if reads(touched, atom) {
            return true;
        }
    }
    false
}

/// Whether the first step writes what the second reads.
fn disturb(first: &Touched, second: &Touched) -> bool
    ensures { result ≡ disturbs first.now second.now }
{
    reads_some(second, &first.adds) || reads_some(second, &first.deletes)
}

/// Whether the one step adds what the other deletes, or writes what the other reads. It takes no
/// memory.
pub(crate) fn conflict(first: &Touched, second: &Touched) -> bool
    ensures { result ≡ clash first.now second.now }
{
    meet(&first.adds, &second.deletes)
        || meet(&second.adds, &first.deletes)
        || disturb(first, second)
        || disturb(second, first)
}
