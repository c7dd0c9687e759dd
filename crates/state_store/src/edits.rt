//! Rows with atoms put in or taken out.
ghost use Rattle.std.specs.Prelude.{◌≡◌, ◌<◌, length, OnOk};
ghost use Rattle.std.specs.List.Sorted.{IsSearchInRange, IsBinarySearchResult};
ghost use Rattle.lemmas.specs.Lists.{AreDistinct};
ghost use Rattle.task_model.specs.AtomOrder.{atom_cmp};
ghost use Rattle.task_model.specs.State.{insert, remove, with_atoms, without_atoms};
ghost use Rattle.state_store.specs.Rows.{AddsAtoms, IsRow, row_atoms, state_of};

use crate::rows::{AtomSet, number_of};
use std::alloc::AllocError;
use std::cmp::Ordering;
use task_model::Atom;

/// The place where the atom stands in the row, or else the place where it is to be put in.
fn place_in(numbered: &[Atom], row: &[u32], atom: &Atom) -> Result<usize, usize>
    requires { IsRow numbered.now row.now }
    ensures bound { IsSearchInRange result (length row.now) }
    ensures position { IsBinarySearchResult (λ other. atom_cmp other atom.now)
        (row_atoms numbered.now row.now) result }
{
    let mut low = 0;
    let mut high = row.len();
    while low < high {
        let middle = low + (high - low) / 2;
        match numbered[row[middle] as usize].cmp(atom) {
            Ordering::Less => low = middle + 1,
            Ordering::Equal => return Ok(middle),
            Ordering::Greater => high = middle,
        }
    }
    Err(low)
}

/// Takes the atom out of the row.
fn take_one(numbered: &[Atom], row: &mut Vec<u32>, atom: &Atom)
    requires { IsRow numbered.now row.old.items }
    ensures row { IsRow numbered.now row.new.items }
    ensures state { state_of numbered.now row.new.items
        ≡ remove (state_of numbered.now row.old.items) atom.now }
{
    if let Ok(place) = place_in(numbered, row.as_slice(), atom) {
        row.remove(place);
    }
}

/// Takes the atoms out of the row.
pub(crate) fn take_out(numbered: &[Atom], row: &mut Vec<u32>, atoms: &[Atom])
    requires { IsRow numbered.now row.old.items }
    ensures row { IsRow numbered.now row.new.items }
    ensures state { state_of numbered.now row.new.items
        ≡ without_atoms (state_of numbered.now row.old.items) atoms.now }
{
    for atom in atoms {
        take_one(numbered, row, atom);
    }
}

/// Puts the atom into the row. Fails only where memory is wanting, or where there are 2^32 other
/// atoms.
fn put_one(numbered: &mut AtomSet, row: &mut Vec<u32>, atom: &Atom) -> Result<(), AllocError>
    requires numbered { AreDistinct numbered.old.keys }
    requires row { IsRow numbered.old.keys row.old.items }
    ensures row { OnOk result (IsRow numbered.new.keys row.new.items) }
    ensures state { OnOk result (state_of numbered.new.keys row.new.items
        ≡ insert (state_of numbered.old.keys row.old.items) atom.now) }
    ensures grows { AddsAtoms numbered.old.keys numbered.new.keys }
    ensures distinct { AreDistinct numbered.new.keys }
{
    if let Err(place) = place_in(numbered.as_slice(), row.as_slice(), atom) {
        let number = number_of(numbered, atom)?;
        row.insert(place, number)?;
    }
    Ok(())
}

/// Puts the atoms into the row; those that are new are put behind the others that have numbers.
/// Fails only where memory is wanting, or where there are 2^32 other atoms.
pub(crate) fn put_in(
    numbered: &mut AtomSet,
    row: &mut Vec<u32>,
    atoms: &[Atom],
) -> Result<(), AllocError>
    requires numbered { AreDistinct numbered.old.keys }
    requires row { IsRow numbered.old.keys row.old.items }
    ensures row { OnOk result (IsRow numbered.new.keys row.new.items) }
    ensures state { OnOk result (state_of numbered.new.keys row.new.items
        ≡ with_atoms (state_of numbered.old.keys row.old.items) atoms.now) }
    ensures grows { AddsAtoms numbered.old.keys numbered.new.keys }
    ensures distinct { AreDistinct numbered.new.keys }
{
    for atom in atoms {
        put_one(numbered, row, atom)?;
    }
    Ok(())
}
