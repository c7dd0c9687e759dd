//! A list of distinct states.
ghost use Rattle.std.specs.Prelude.{◌≡◌, ◌<◌, ◌↔◌, ◌++◌, ◌∷◌, [], length, Contains, IsTrue, IfOk, OnErr, Some, slice_get, if◌then◌else◌};
ghost use Rattle.lemmas.specs.Lists.{AreDistinct};
ghost use Rattle.state_store.specs.Changed.{state_after};

use crate::edits::{put_in, take_out};
use crate::rows::{AtomSet, atoms_of, copy_with_room, numbers_of};
use indexmap::IndexSet;
use std::alloc::{AllocError, Global};
use std::hash::BuildHasherDefault;
use std::marker::Model;
use task_model::{Atom, NumberHasher, State};

/// A list of distinct states, at most 200,001. A state is known by its place in the list, from 0,
/// which never changes.
///
/// Each atom is kept once and has a number, and a state is kept as the row of its atoms' numbers,
/// in the order of the atoms. Rows are found by their hash.
#[derive(Drop)]
pub struct StateStore {
    atoms: AtomSet,
    rows: IndexSet<Vec<u32>, BuildHasherDefault<NumberHasher>>,
    alloc: Global,
}

impl Model for StateStore {
    ghost use Rattle.std.specs.Prelude.{List, map};
    ghost use Rattle.std.specs.Coded.{coded_list};
    ghost use Rattle.task_model.specs.State.{Atoms, atoms_code};
    ghost use Rattle.state_store.specs.Rows.{AreRows, states_of};

    ghost Value = { List Atoms };

    ghost coded = { coded_list atoms_code };

    ghost view = { λ s. states_of s.atoms.keys (map (λ row. row.items) s.rows.keys) };

    ghost invariant = { λ s. AreRows s.atoms.keys (map (λ row. row.items) s.rows.keys) };
}

impl StateStore {
    /// The store without states. Fails only where memory is wanting.
    pub fn new(alloc: Global) -> Result<StateStore, AllocError>
        ensures { IfOk result (λ store. store ≡ []) }
    {
        Ok(StateStore {
            atoms: IndexSet::with_hasher(alloc, BuildHasherDefault::new()),
            rows: IndexSet::with_hasher(alloc, BuildHasherDefault::new()),
            alloc,
        })
    }

    /// How many states there are.
    pub fn len(&self) -> usize
        ensures { result ≡ length self.now }
    {
        self.rows.len()
    }

    /// The place of a state, and whether it is new. A new state is put behind the others, of which
    /// there are at most 200,000. Fails only where memory is wanting (or where the states have 2^32
    /// different atoms, which take more than 200 GB), and leaves the states as they were then.
    pub fn intern(&mut self, state: State) -> Result<(u32, bool), AllocError>
        requires { length self.old < 200001 }
        ensures place { IfOk result (λ found. slice_get self.new found.0 ≡ Some state) }
        ensures fresh { IfOk result (λ found. IsTrue found.1 ↔ ¬ (Contains self.old state)) }
        ensures states { IfOk result
            (λ found. self.new ≡ (if found.1 then self.old ++ state ∷ [] else self.old)) }
        ensures distinct { AreDistinct self.new }
        ensures err { OnErr result (self.new ≡ self.old) }
    {
        let row = numbers_of(self.alloc, &mut self.atoms, state.as_slice())?;
        let (place, fresh) = self.rows.insert_full(row)?;
        Ok((place as u32, fresh))
    }

    /// The place of the state that comes of the one at `from` where the atoms `gone` are taken out
    /// and then the atoms `come` put in, and whether it is new. A new state is put behind the
    /// others. Fails as `intern`.
    ///
    /// No state is made: the row of the one at `from` is copied and changed, and an atom that stays
    /// isn't looked up.
    pub fn intern_after(
        &mut self,
        from: u32,
        gone: &[Atom],
        come: &[Atom],
    ) -> Result<(u32, bool), AllocError>
        requires few { length self.old < 200001 }
        requires there { from < length self.old }
        ensures place { IfOk result (λ found. slice_get self.new found.0
            ≡ Some (state_after self.old from gone.now come.now)) }
        ensures fresh { IfOk result (λ found. IsTrue found.1
            ↔ ¬ (Contains self.old (state_after self.old from gone.now come.now))) }
        ensures states { IfOk result (λ found. self.new ≡ (if found.1
            then self.old ++ state_after self.old from gone.now come.now ∷ [] else self.old)) }
        ensures distinct { AreDistinct self.new }
        ensures err { OnErr result (self.new ≡ self.old) }
    {
        let old = self.rows.as_slice()[from as usize].as_slice();
        let more = come.len().saturating_sub(gone.len());
        let mut row = copy_with_room(self.alloc, old, more)?;
        take_out(self.atoms.as_slice(), &mut row, gone);
        put_in(&mut self.atoms, &mut row, come)?;
        let (place, is_new) = self.rows.insert_full(row)?;
        Ok((place as u32, is_new))
    }

    /// A state equal to the one at this place. Fails only where memory is wanting.
    pub fn get(&self, id: u32) -> Result<State, AllocError>
        requires { id < length self.now }
        ensures { IfOk result (λ state. slice_get self.now id ≡ Some state) }
    {
        let row = &self.rows.as_slice()[id as usize];
        let atoms = atoms_of(self.alloc, self.atoms.as_slice(), row.as_slice())?;
        Ok(State::from_ascending(atoms))
    }
}
