//! Atoms, spread over cells.
ghost use Rattle.std.specs.Prelude.{◌≡◌, ◌<◌, ◌++◌, IfOk, OnOk, OnErr};
ghost use Rattle.spread_state.specs.Cells as specs;
ghost use Rattle.task_model.specs.State as set;

use std::alloc::{AllocError, Global};
use std::marker::Model;
use task_model::{Atom, State};

/// How many cells there are.
pub const CELLS: usize = 4096;

/// The cell of an atom.
fn cell_of(atom: &Atom) -> usize
    ensures cell { result ≡ specs.cell_of atom.now }
    ensures within { result < CELLS }
{
    let mut cell = atom.pred as usize % CELLS;
    for object in atom.args.as_slice() {
        cell = (cell * 1021 + object.place() as usize) % CELLS;
    }
    cell
}

/// Puts the atoms of a cell behind the others. Fails only where memory is wanting.
fn put_behind(atoms: &mut Vec<Atom>, cell: &State) -> Result<(), AllocError>
    ensures { OnOk result (atoms.new.items ≡ atoms.old.items ++ set.items cell.now) }
{
    for atom in cell.as_slice() {
        atoms.push(atom.copy()?)?;
    }
    Ok(())
}

/// A state: the set of the atoms of fluents that are true, each in its cell. What an atom's cell holds
/// besides is the only thing that a look at it, or a change of it, goes through.
#[derive(Drop)]
pub struct SpreadState {
    cells: Vec<State>,
    alloc: Global,
}

impl Model for SpreadState {
    ghost use Rattle.task_model.specs.State.{Atoms, atoms_code};
    ghost use Rattle.spread_state.specs.Cells.{IsSpread, cell_atoms};

    ghost Value = { Atoms };

    ghost coded = { atoms_code };

    ghost view = { λ s. cell_atoms s.cells.items };

    ghost invariant = { λ s. IsSpread s.cells.items };
}

impl SpreadState {
    /// The empty state. Fails only where memory is wanting.
    pub fn new(alloc: Global) -> Result<SpreadState, AllocError>
        ensures { IfOk result (λ state. state ≡ set.empty) }
    {
        let mut cells = Vec::with_capacity(alloc, CELLS)?;
        for _ in 0..CELLS {
            cells.push(State::new(alloc))?;
        }
        Ok(SpreadState { cells, alloc })
    }

    /// An equal state. Fails only where memory is wanting.
    pub fn spread(state: &State) -> Result<SpreadState, AllocError>
        ensures { IfOk result (λ spread. spread ≡ state.now) }
    {
        let mut spread = SpreadState::new(state.allocator())?;
        for atom in state.as_slice() {
            spread.add(atom.copy()?)?;
        }
        Ok(spread)
    }

    /// The allocator that the state was made with.
    pub fn allocator(&self) -> Global {
        self.alloc
    }

    /// Whether the atom is in the state.
    pub fn has(&self, atom: &Atom) -> bool
        ensures { result ≡ set.contains self.now atom.now }
    {
        self.cells[cell_of(atom)].has(atom)
    }

    /// Puts the atom in. Where memory is wanting the state stays as it was.
    pub fn add(&mut self, atom: Atom) -> Result<(), AllocError>
        ensures state { OnOk result (self.new ≡ set.insert self.old atom) }
        ensures err { OnErr result (self.new ≡ self.old) }
    {
        let cell = &mut self.cells[cell_of(&atom)];
        cell.add(atom)?;
        Ok(())
    }

    /// Takes the atom out.
    pub fn remove(&mut self, atom: &Atom)
        ensures { self.new ≡ set.remove self.old atom.now }
    {
        let cell = &mut self.cells[cell_of(atom)];
        cell.remove(atom);
    }

    /// An equal state that isn't spread. Fails only where memory is wanting.
    pub fn whole(&self) -> Result<State, AllocError>
        ensures { IfOk result (λ state. state ≡ self.now) }
    {
        let mut atoms = Vec::new(self.alloc);
        for cell in self.cells.as_slice() {
            put_behind(&mut atoms, cell)?;
        }
        Ok(State::from_atoms(atoms))
    }
}
