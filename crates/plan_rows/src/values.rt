//! Values, their copies and their order.
use crate::fault::Fault;
use crate::print::push_places;
use crate::states::{tell_state, tell_stored};
use crate::words::{atom_of, fact_of, halves, instance_of, objects_of, step_of};
use instance_queue::Due;
use state_store::StateStore;
use std::alloc::{AllocError, Global};
use std::fmt::Write;
use task_model::{Name, Objects, Row, Seq, State};
use test_rows::{Part, first_word, number};

fn is_name_copied(alloc: Global, bytes: &[u8]) -> Result<bool, AllocError> {
    let name = Name::from_slice(alloc, bytes)?;
    Ok(name.copy(alloc)?.bytes() == bytes)
}

fn is_row_copied(alloc: Global, line: &[u8]) -> Result<bool, AllocError> {
    let row: Row = objects_of(alloc, line)?;
    Ok(row.copy()? == row)
}

fn is_fact_copied(alloc: Global, line: &[u8]) -> Result<bool, AllocError> {
    let fact = fact_of(alloc, line)?;
    Ok(fact.copy()? == *fact)
}

fn is_atom_copied(alloc: Global, line: &[u8]) -> Result<bool, AllocError> {
    let atom = atom_of(alloc, line)?;
    Ok(atom.copy()? == atom)
}

fn is_instance_copied(alloc: Global, line: &[u8]) -> Result<bool, AllocError> {
    let instance = instance_of(alloc, line)?;
    Ok(instance.copy()? == *instance)
}

fn is_step_copied(alloc: Global, line: &[u8]) -> Result<bool, AllocError> {
    let step = step_of(alloc, line)?;
    let copy = Box::new(alloc, step.copy()?)?;
    Ok(copy.action == step.action && copy.args.as_slice() == step.args.as_slice())
}

/// Whether the copy of an ask has its turn and its instance: `TURN STREAM PLACES`.
fn is_due_copied(alloc: Global, line: &[u8]) -> Result<bool, AllocError> {
    let (turn, rest) = first_word(line);
    let instance = Box::into_inner(instance_of(alloc, rest)?);
    let turn = number(turn);
    let due = Box::new(alloc, Due { instance, turn })?;
    let copy = Box::new(alloc, due.copy()?)?;
    Ok(copy.turn == due.turn && copy.instance == due.instance)
}

/// Whether the copy of what a line writes is equal: `KIND VALUE`.
fn is_copied(alloc: Global, line: &[u8]) -> Result<bool, Fault> {
    let (kind, rest) = first_word(line);
    match kind {
        b"name" => Ok(is_name_copied(alloc, rest)?),
        b"row" => Ok(is_row_copied(alloc, rest)?),
        b"fact" => Ok(is_fact_copied(alloc, rest)?),
        b"atom" => Ok(is_atom_copied(alloc, rest)?),
        b"instance" => Ok(is_instance_copied(alloc, rest)?),
        b"step" => Ok(is_step_copied(alloc, rest)?),
        b"due" => Ok(is_due_copied(alloc, rest)?),
        _ => Err(Fault::Unfit),
    }
}

/// Whether one fact is less than another: `FACT, FACT`.
fn is_fact_less(alloc: Global, line: &[u8]) -> Result<bool, AllocError> {
    let (first, second) = halves(line);
    let first = fact_of(alloc, first)?;
    let second = fact_of(alloc, second)?;
    Ok(*first < *second)
}

/// Whether one row of objects is less than another: `PLACES, PLACES`.
fn is_row_less(alloc: Global, line: &[u8]) -> Result<bool, AllocError> {
    let (first, second) = halves(line);
    let first: Row = objects_of(alloc, first)?;
    let second: Row = objects_of(alloc, second)?;
    Ok(first < second)
}

/// Adds a list of objects of which two lie in the value itself.
fn add_listed(alloc: Global, line: &[u8], out: &mut String) -> Result<(), AllocError> {
    let list: Objects<2> = objects_of(alloc, line)?;
    out.push_str("list")?;
    push_places(out, list.as_slice())?;
    out.push('\n')
}

/// Adds how many members a list has, whether there are none, the members, and how many it gives
/// back.
fn add_members(alloc: Global, line: &[u8], out: &mut String) -> Result<(), AllocError> {
    let mut places = Vec::new(alloc);
    for word in line.split(|byte| *byte == b' ') {
        places.push(number(word))?;
    }
    let list = Seq::from_vec(places);
    let (count, empty) = (list.len(), list.is_empty());
    write!(out, "{count} members, none {empty}:")?;
    for place in list.as_slice() {
        write!(out, " {place}")?;
    }
    let back = list.into_vec().len();
    write!(out, "; {back} back\n")
}

/// Answers what a part of a row asks of values.
fn answer_part(alloc: Global, part: &Part, out: &mut String) -> Result<(), Fault> {
    let line = part.rest.as_slice();
    match part.key.as_str() {
        "copies" => {
            let equal = is_copied(alloc, line)?;
            write!(out, "{equal}\n")?;
        }
        "less_fact" => {
            let less = is_fact_less(alloc, line)?;
            write!(out, "{less}\n")?;
        }
        "less_row" => {
            let less = is_row_less(alloc, line)?;
            write!(out, "{less}\n")?;
        }
        "listed" => add_listed(alloc, line, out)?,
        "members" => add_members(alloc, line, out)?,
        _ => return Err(Fault::Unfit),
    }
    Ok(())
}

/// Adds what comes of the parts of a row, one after another, over a state without atoms and a store
/// without states.
pub(crate) fn tell_values(alloc: Global, parts: &[Part], out: &mut String) -> Result<(), Fault> {
    let mut state = Box::new(alloc, State::new(alloc))?;
    let mut copy = Box::new(alloc, State::new(alloc))?;
    let mut store = Box::new(alloc, StateStore::new(alloc)?)?;
    for part in parts {
        let told = tell_state(alloc, &mut state, &mut copy, part, out)?
            || tell_stored(alloc, &mut store, part, out)?;
        if !told {
            answer_part(alloc, part, out)?;
        }
    }
    Ok(())
}
