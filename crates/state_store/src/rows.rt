//! Atoms and their numbers.
ghost use Rattle.std.specs.Prelude.{◌≡◌, ◌<◌, length, All, IfOk, Some, slice_get};
ghost use Rattle.lemmas.specs.Lists.{AreDistinct};
ghost use Rattle.state_store.specs.Rows.{AddsAtoms, row_atoms as atoms_with};

use indexmap::IndexSet;
use std::alloc::{AllocError, Global};
use std::hash::BuildHasherDefault;
use task_model::{Atom, NumberHasher};

/// Atoms that are known by their places.
pub type AtomSet = IndexSet<Atom, BuildHasherDefault<NumberHasher>>;

/// The place of an atom among those that have numbers, behind which it is put where it is new.
fn place_of(numbered: &mut AtomSet, atom: &Atom) -> Result<usize, AllocError>
    requires { AreDistinct numbered.old.keys }
    ensures place { IfOk result (λ place. slice_get numbered.new.keys place ≡ Some atom.now) }
    ensures grows { AddsAtoms numbered.old.keys numbered.new.keys }
    ensures distinct { AreDistinct numbered.new.keys }
{
    if let Some(place) = numbered.get_index_of(atom) {
        return Ok(place);
    }
    let (place, _) = numbered.insert_full(atom.copy()?)?;
    Ok(place)
}

/// The number of an atom, which is put behind the others where it is new. Fails only where memory
/// is wanting, or where there are 2^32 other atoms.
pub(crate) fn number_of(numbered: &mut AtomSet, atom: &Atom) -> Result<u32, AllocError>
    requires { AreDistinct numbered.old.keys }
    ensures number { IfOk result (λ number. slice_get numbered.new.keys number ≡ Some atom.now) }
    ensures grows { AddsAtoms numbered.old.keys numbered.new.keys }
    ensures distinct { AreDistinct numbered.new.keys }
{
    match u32::try_from(place_of(numbered, atom)?) {
        Ok(number) => Ok(number),
        Err(_) => Err(AllocError),
    }
}

/// The numbers of atoms, in their order; those that are new are put behind the others. Fails only
/// where memory is wanting, or where there are 2^32 other atoms.
pub fn numbers_of(
    alloc: Global,
    numbered: &mut AtomSet,
    atoms: &[Atom],
) -> Result<Vec<u32>, AllocError>
    requires { AreDistinct numbered.old.keys }
    ensures row { IfOk result (λ row. atoms_with numbered.new.keys row.items ≡ atoms.now) }
    ensures known { IfOk result (λ row. All (λ n. n < length numbered.new.keys) row.items) }
    ensures grows { AddsAtoms numbered.old.keys numbered.new.keys }
    ensures distinct { AreDistinct numbered.new.keys }
{
    let mut row = Vec::with_capacity(alloc, atoms.len())?;
    for atom in atoms {
        row.push(number_of(numbered, atom)?)?;
    }
    Ok(row)
}

/// A copy of the row, with room for so many more numbers. Fails only where memory is wanting.
pub(crate) fn copy_with_room(
    alloc: Global,
    row: &[u32],
    more: usize,
) -> Result<Vec<u32>, AllocError>
    ensures items { IfOk result (λ copy. copy.items ≡ row.now) }
{
    let mut copy = Vec::with_capacity(alloc, row.len().saturating_add(more))?;
    copy.extend_from_slice(row)?;
    Ok(copy)
}

/// The atoms that have these numbers. Fails only where memory is wanting.
pub(crate) fn atoms_of(
    alloc: Global,
    numbered: &[Atom],
    row: &[u32],
) -> Result<Vec<Atom>, AllocError>
    requires { All (λ n. n < length numbered.now) row.now }
    ensures { IfOk result (λ atoms. atoms.items ≡ atoms_with numbered.now row.now) }
{
    let mut atoms = Vec::with_capacity(alloc, row.len())?;
    for number in row {
        atoms.push_reserved(numbered[*number as usize].copy()?);
    }
    Ok(atoms)
}
