//! States, and a store of them.
use crate::fault::Fault;
use crate::print::push_atoms;
use crate::words::{atom_of, halves, objects_of};
use state_store::StateStore;
use std::alloc::{AllocError, Global};
use std::fmt::Write;
use task_model::{Atom, Obj, Row, State};
use test_rows::{Part, first_word, number};

/// Adds whether a change was made, and how many atoms the state has then.
fn push_changed(out: &mut String, changed: bool, state: &State) -> Result<(), AllocError> {
    let count = state.len();
    write!(out, "{changed} {count}\n")
}

/// Adds where the store keeps a state, and whether it is new there.
fn push_kept(out: &mut String, kept: (u32, bool)) -> Result<(), AllocError> {
    let (place, fresh) = kept;
    let word = if fresh { "new" } else { "old" };
    write!(out, "{place} {word}\n")
}

/// The atoms in which predicate 1 is true of each of these objects.
fn atoms_of(alloc: Global, line: &[u8]) -> Result<Vec<Atom>, AllocError> {
    let objects: Row = objects_of(alloc, line)?;
    let mut atoms = Vec::new(alloc);
    for object in objects.as_slice() {
        let args = Row::new(alloc, &[*object])?;
        atoms.push(Atom { pred: 1, args })?;
    }
    Ok(atoms)
}

/// Puts a state into the store, and answers where it is kept and whether it is new.
fn put(store: &mut StateStore, state: State) -> Result<(u32, bool), Fault> {
    if store.len() > 200_000 {
        return Err(Fault::Unfit);
    }
    Ok(store.intern(state)?)
}

/// Puts the state of these objects into the store, and adds where it is kept.
fn put_state(
    alloc: Global,
    store: &mut StateStore,
    line: &[u8],
    out: &mut String,
) -> Result<(), Fault> {
    let atoms = atoms_of(alloc, line)?;
    let kept = put(store, State::from_atoms(atoms))?;
    Ok(push_kept(out, kept)?)
}

/// Adds where the store keeps what comes of the state at a place: `PLACE, GONE, COME`, the objects
/// that are taken out and those that are put in.
fn change(
    alloc: Global,
    store: &mut StateStore,
    line: &[u8],
    out: &mut String,
) -> Result<(), Fault> {
    let (from, rest) = halves(line);
    let (gone, come) = halves(rest);
    let from = number(from);
    if store.len() > 200_000 || from as usize >= store.len() {
        return Err(Fault::Unfit);
    }
    let gone = atoms_of(alloc, gone)?;
    let come = atoms_of(alloc, come)?;
    let kept = store.intern_after(from, gone.as_slice(), come.as_slice())?;
    Ok(push_kept(out, kept)?)
}

/// Adds the atoms of the state at a place of the store.
fn add_stored(
    alloc: Global,
    store: &StateStore,
    place: u32,
    out: &mut String,
) -> Result<(), Fault> {
    if place as usize >= store.len() {
        return Err(Fault::Unfit);
    }
    let state = Box::new(alloc, store.get(place)?)?;
    Ok(push_atoms(out, state.as_slice())?)
}

/// The state of 18 switches, which are up or down as the number's bits say.
fn switches(alloc: Global, number: u32) -> Result<State, AllocError> {
    let mut atoms = Vec::with_capacity(alloc, 18)?;
    for switch in 0..18_u32 {
        let args = Row::new(alloc, &[Obj::new(number >> switch & 1)])?;
        atoms.push(Atom { pred: switch, args })?;
    }
    Ok(State::from_atoms(atoms))
}

/// Puts in states of switches, and adds whether each has its number as it is put in, and is new or
/// not, as is said: `COUNT new` or `COUNT old`.
fn put_switches(
    alloc: Global,
    store: &mut StateStore,
    line: &[u8],
    out: &mut String,
) -> Result<(), Fault> {
    let (count, word) = first_word(line);
    let fresh = word == b"new".as_slice();
    let mut all = true;
    for place in 0..number(count) {
        let kept = put(store, switches(alloc, place)?)?;
        all = all && kept == (place, fresh);
    }
    Ok(write!(out, "{all}\n")?)
}

/// Does and answers what a part of a row says of a state and its copy, or answers false where it
/// says nothing of them.
pub(crate) fn tell_state(
    alloc: Global,
    state: &mut State,
    copy: &mut State,
    part: &Part,
    out: &mut String,
) -> Result<bool, Fault> {
    let line = part.rest.as_slice();
    match part.key.as_str() {
        "add" => {
            let fresh = state.add(atom_of(alloc, line)?)?;
            push_changed(out, fresh, state)?;
        }
        "remove" => {
            let found = state.remove(&atom_of(alloc, line)?);
            push_changed(out, found, state)?;
        }
        "has" => {
            let found = state.has(&atom_of(alloc, line)?);
            push_changed(out, found, state)?;
        }
        "atoms" => push_atoms(out, state.as_slice())?,
        "copy" => *copy = state.copy()?,
        "copied" => push_atoms(out, copy.as_slice())?,
        _ => return Ok(false),
    }
    Ok(true)
}

/// Does and answers what a part of a row says of a store of states, or answers false where it says
/// nothing of it.
pub(crate) fn tell_stored(
    alloc: Global,
    store: &mut StateStore,
    part: &Part,
    out: &mut String,
) -> Result<bool, Fault> {
    let line = part.rest.as_slice();
    match part.key.as_str() {
        "put" => put_state(alloc, store, line, out)?,
        "change" => change(alloc, store, line, out)?,
        "stored" => add_stored(alloc, store, number(line), out)?,
        "switches" => put_switches(alloc, store, line, out)?,
        "states" => {
            let count = store.len();
            write!(out, "{count} states\n")?;
        }
        _ => return Ok(false),
    }
    Ok(true)
}
