//! Values as they are printed.
use fact_store::Facts;
use optimistic_set::Supposed;
use std::alloc::AllocError;
use std::fmt::Write;
use task_model::{Atom, GroundAction, Name, Obj, Task};

/// The names of objects: those that are known, and behind them the placeholders.
#[derive(Clone, Copy)]
pub(crate) struct Names<'a> {
    known: &'a [Name],
    supposed: &'a [Name],
}

impl<'a> Names<'a> {
    /// Those that are known.
    pub(crate) fn of_facts(facts: &'a Facts) -> Names<'a> {
        Names {
            known: facts.names(),
            supposed: &[],
        }
    }

    /// Those that are known, and the placeholders.
    pub(crate) fn of_supposed(supposed: &'a Supposed<'_>) -> Names<'a> {
        Names {
            known: supposed.facts().names(),
            supposed: supposed.names(),
        }
    }

    /// The name of an object.
    fn name_of(self, object: Obj) -> &'a [u8] {
        let place = object.place() as usize;
        let found = if place < self.known.len() {
            self.known.get(place)
        } else {
            self.supposed.get(place - self.known.len())
        };
        match found {
            Some(name) => name.bytes(),
            None => b"?",
        }
    }
}

/// Adds bytes, which are those of names and lines.
pub(crate) fn push_bytes(out: &mut String, bytes: &[u8]) -> Result<(), AllocError> {
    for byte in bytes {
        out.push(char::from(*byte))?;
    }
    Ok(())
}

/// Adds the names of objects, a space before each.
pub(crate) fn push_objects(
    out: &mut String,
    names: Names<'_>,
    objects: &[Obj],
) -> Result<(), AllocError> {
    for object in objects {
        out.push(' ')?;
        push_bytes(out, names.name_of(*object))?;
    }
    Ok(())
}

/// Adds the name of a stream.
pub(crate) fn push_stream(out: &mut String, task: &Task, stream: u32) -> Result<(), AllocError> {
    match task.streams.as_slice().get(stream as usize) {
        Some(stream) => push_bytes(out, stream.name.bytes()),
        None => out.push('?'),
    }
}

/// Adds a step: its action and its arguments.
pub(crate) fn push_step(
    out: &mut String,
    task: &Task,
    names: Names<'_>,
    step: &GroundAction,
) -> Result<(), AllocError> {
    match task.domain.actions.as_slice().get(step.action as usize) {
        Some(action) => push_bytes(out, action.name.bytes())?,
        None => out.push('?')?,
    }
    push_objects(out, names, step.args.as_slice())?;
    out.push('\n')
}

/// Adds the places of objects, a space before each.
pub(crate) fn push_places(out: &mut String, objects: &[Obj]) -> Result<(), AllocError> {
    for object in objects {
        let place = object.place();
        write!(out, " {place}")?;
    }
    Ok(())
}

/// Adds atoms, a line each: the place of the predicate, and those of its arguments.
pub(crate) fn push_atoms(out: &mut String, atoms: &[Atom]) -> Result<(), AllocError> {
    for atom in atoms {
        let pred = atom.pred;
        write!(out, "{pred}")?;
        push_places(out, atom.args.as_slice())?;
        out.push('\n')?;
    }
    Ok(())
}

/// Adds a number in a line of its own, or that there is none.
pub(crate) fn push_option(out: &mut String, number: Option<u32>) -> Result<(), AllocError> {
    match number {
        Some(number) => write!(out, "{number}\n"),
        None => out.push_str("none\n"),
    }
}
