//! States.
ghost use Rattle.std.specs.Prelude.{◌≡◌, ◌<◌, not, slice_get, Some, IfOk, OnOk, OnErr};
ghost use Rattle.std.specs.List.Sorted.{IsStrictlySortedBy};
ghost use Rattle.task_model.specs.AtomOrder.{atom_cmp};
ghost use Rattle.task_model.specs.State as set;

use crate::fact::Atom;
use std::alloc::{AllocError, Global};
use std::marker::Model;

/// A state: the set of the atoms of fluents that are true (PDDL 2.1).
///
/// The atoms are kept ascending, each once, so that `has` looks at few of them, and a copy takes
/// one allocation.
#[derive(Drop)]
pub struct State {
    atoms: Vec<Atom>,
}

impl Model for State {
    ghost use Rattle.std.specs.List.Sorted.{IsStrictlySortedBy};
    ghost use Rattle.task_model.specs.AtomOrder.{atom_cmp};
    ghost use Rattle.task_model.specs.State.{Atoms, atoms_code, from_list};

    ghost Value = { Atoms };

    ghost coded = { atoms_code };

    ghost view = { λ s. from_list s.atoms.items };

    ghost invariant = { λ s. IsStrictlySortedBy atom_cmp s.atoms.items };
}

impl State {
    /// The empty state, which takes no memory.
    pub fn new(alloc: Global) -> State
        ensures { result ≡ set.empty }
    {
        State {
            atoms: Vec::new(alloc),
        }
    }

    /// The state of these atoms, whose order doesn't matter, nor that one stands twice. It takes no
    /// memory.
    pub fn from_atoms(atoms: Vec<Atom>) -> State
        ensures { result ≡ set.from_list atoms.items }
    {
        let mut atoms = atoms;
        atoms.sort_unstable();
        atoms.dedup();
        State { atoms }
    }

    /// The state of these atoms, which ascend, each once. It compares none and takes no memory.
    pub fn from_ascending(atoms: Vec<Atom>) -> State
        requires { IsStrictlySortedBy atom_cmp atoms.items }
        ensures { result ≡ set.from_list atoms.items }
    {
        State { atoms }
    }

    /// The allocator that the state was made with.
    pub fn allocator(&self) -> Global {
        *self.atoms.allocator()
    }

    /// An equal state. Fails only where memory is wanting.
    pub fn copy(&self) -> Result<State, AllocError>
        ensures { IfOk result (λ state. state ≡ self.now) }
    {
        let mut atoms = Vec::with_capacity(self.allocator(), self.atoms.len())?;
        for atom in self.atoms.as_slice() {
            atoms.push(atom.copy()?)?;
        }
        Ok(State { atoms })
    }

    /// Whether the atom is in the state.
    pub fn has(&self, atom: &Atom) -> bool
        ensures { result ≡ set.contains self.now atom.now }
    {
        self.atoms.binary_search(atom).is_ok()
    }

    /// How many atoms are in the state.
    pub fn len(&self) -> usize
        ensures { result ≡ set.len self.now }
    {
        self.atoms.len()
    }

    /// The atoms in their order: by predicate, and then by arguments.
    pub fn as_slice(&self) -> &[Atom]
        ensures { result.now ≡ set.items self.now }
    {
        self.atoms.as_slice()
    }

    /// The atom at this place among the state's atoms in their order.
    pub fn atom(&self, place: usize) -> &Atom
        requires { place < set.len self.now }
        ensures { slice_get (set.items self.now) place ≡ Some result.now }
    {
        &self.atoms[place]
    }

    /// Puts the atom in, and answers whether it is new. Where memory is wanting the state stays as
    /// it was.
    pub fn add(&mut self, atom: Atom) -> Result<bool, AllocError>
        ensures state { OnOk result (self.new ≡ set.insert self.old atom) }
        ensures fresh { IfOk result (λ fresh. fresh ≡ not (set.contains self.old atom)) }
        ensures err { OnErr result (self.new ≡ self.old) }
    {
        match self.atoms.binary_search(&atom) {
            Ok(_) => Ok(false),
            Err(place) => {
                self.atoms.insert(place, atom)?;
                Ok(true)
            }
        }
    }

    /// Takes the atom out, and answers whether it was there.
    pub fn remove(&mut self, atom: &Atom) -> bool
        ensures state { self.new ≡ set.remove self.old atom.now }
        ensures there { result ≡ set.contains self.old atom.now }
    {
        match self.atoms.binary_search(atom) {
            Ok(place) => {
                self.atoms.remove(place);
                true
            }
            Err(_) => false,
        }
    }
}
