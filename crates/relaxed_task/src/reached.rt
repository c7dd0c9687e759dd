//! What can be reached where deletes are ignored.
use crate::lists::number;
use indexmap::IndexSet;
use std::alloc::{AllocError, Global};
use std::hash::BuildHasherDefault;
use task_model::{Atom, NumberHasher};

/// The fluent atoms that are reached where deletes are ignored, and the steps.
#[derive(Drop)]
pub(crate) struct Reached {
    atoms: IndexSet<Atom, BuildHasherDefault<NumberHasher>>,
    /// The atoms of each predicate, by their numbers.
    by_predicate: Vec<Vec<u32>>,
    /// Whether each step is reached, in the order of the steps.
    steps: Vec<bool>,
}

impl Reached {
    /// No atoms and no steps, which take no memory.
    pub(crate) fn new(alloc: Global) -> Reached {
        Reached {
            atoms: IndexSet::with_hasher(alloc, BuildHasherDefault::new()),
            by_predicate: Vec::new(alloc),
            steps: Vec::new(alloc),
        }
    }

    /// Takes room for atoms of so many predicates. Fails only where memory is wanting.
    pub(crate) fn make_room(&mut self, alloc: Global, predicates: usize) -> Result<(), AllocError> {
        for _ in 0..predicates {
            self.by_predicate.push(Vec::new(alloc))?;
        }
        Ok(())
    }

    /// Says whether the next step is reached. Fails only where memory is wanting.
    pub(crate) fn note_step(&mut self, is_reached: bool) -> Result<(), AllocError> {
        self.steps.push(is_reached)?;
        Ok(())
    }

    /// Puts atoms behind the others, unless they are there. Fails only where memory is wanting.
    pub(crate) fn add_all(&mut self, atoms: &[Atom]) -> Result<(), AllocError> {
        for atom in atoms {
            self.add(atom.copy()?)?;
        }
        Ok(())
    }

    /// Puts an atom behind the others, unless it is there. Fails only where memory is wanting.
    pub(crate) fn add(&mut self, atom: Atom) -> Result<(), AllocError> {
        let pred = atom.pred;
        let (place, is_new) = self.atoms.insert_full(atom)?;
        if is_new {
            if let Some(atoms) = self.by_predicate.get_mut(pred as usize) {
                atoms.push(number(place))?;
            }
        }
        Ok(())
    }

    /// All atoms.
    pub(crate) fn atoms(&self) -> &[Atom] {
        self.atoms.as_slice()
    }

    /// Whether the atom is there.
    pub(crate) fn has(&self, atom: &Atom) -> bool {
        self.atoms.contains(atom)
    }

    /// Whether the step at this place is reached.
    pub(crate) fn has_step(&self, place: usize) -> bool {
        self.steps.get(place).copied().unwrap_or(false)
    }

    /// The numbers of the predicate's atoms.
    pub(crate) fn numbers(&self, pred: u32) -> &[u32] {
        match self.by_predicate.as_slice().get(pred as usize) {
            Some(numbers) => numbers.as_slice(),
            None => &[],
        }
    }

    /// The atom with this number.
    pub(crate) fn atom(&self, number: u32) -> Option<&Atom> {
        self.atoms.get_index(number as usize)
    }
}

/// Copies of the atoms. Fails only where memory is wanting.
pub(crate) fn copies(alloc: Global, atoms: &[Atom]) -> Result<Vec<Atom>, AllocError> {
    let mut copies = Vec::with_capacity(alloc, atoms.len())?;
    for atom in atoms {
        copies.push(atom.copy()?)?;
    }
    Ok(copies)
}
