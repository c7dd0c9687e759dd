//! Lines of rows as numbers, objects and what is made of them.
ghost use Rattle.std.specs.Prelude.{◌≡◌, ◌∷◌, [], IfOk};

use std::alloc::{AllocError, Global};
use task_model::{Atom, Fact, GroundAction, Instance, Kind, Obj, Objects, Row};
use test_rows::{first_word, number};

/// The objects at the places that this line gives, parted by spaces.
pub(crate) fn objects_of<const N: usize>(
    alloc: Global,
    line: &[u8],
) -> Result<Objects<N>, AllocError> {
    let mut objects = Objects::empty(alloc);
    for word in line.split(|byte| *byte == b' ') {
        if !word.is_empty() {
            objects.push(Obj::new(number(word)))?;
        }
    }
    Ok(objects)
}

/// The numbers of a line, parted by spaces.
pub(crate) fn numbers_of(alloc: Global, line: &[u8]) -> Result<Vec<u32>, AllocError> {
    let mut numbers = Vec::new(alloc);
    for word in line.split(|byte| *byte == b' ') {
        if !word.is_empty() {
            numbers.push(number(word))?;
        }
    }
    Ok(numbers)
}

/// The two parts of a line that a comma parts, without a space behind it; the second is empty where
/// there is none.
pub(crate) fn halves(line: &[u8]) -> (&[u8], &[u8]) {
    match line.iter().position(|byte| *byte == b',') {
        Some(place) => match &line[place + 1..] {
            [b' ', rest @ ..] => (&line[..place], rest),
            rest => (&line[..place], rest),
        },
        None => (line, &[]),
    }
}

/// The instance of a line: the place of its stream, and those of its inputs.
pub(crate) fn instance_of(alloc: Global, line: &[u8]) -> Result<Box<Instance>, AllocError> {
    let (stream, places) = first_word(line);
    let inputs = objects_of(alloc, places)?;
    let stream = number(stream);
    Ok(Box::new(alloc, Instance { stream, inputs })?)
}

/// The step of a line: the place of its action, and those of its arguments.
pub(crate) fn step_of(alloc: Global, line: &[u8]) -> Result<Box<GroundAction>, AllocError> {
    let (action, places) = first_word(line);
    let args = objects_of(alloc, places)?;
    let action = number(action);
    Ok(Box::new(alloc, GroundAction { action, args })?)
}

/// The atom of a line: the place of its predicate, and those of its arguments.
pub(crate) fn atom_of(alloc: Global, line: &[u8]) -> Result<Atom, AllocError> {
    let (pred, places) = first_word(line);
    let args = objects_of(alloc, places)?;
    let pred = number(pred);
    Ok(Atom { pred, args })
}

/// What a fact's name stands for: `sort`, or `predicate`.
pub(crate) fn kind_of(word: &[u8]) -> Kind {
    match word {
        b"sort" => Kind::Sort,
        _ => Kind::Predicate,
    }
}

/// The fact of a line: what its name stands for, the name's number and the places of its arguments.
pub(crate) fn fact_of(alloc: Global, line: &[u8]) -> Result<Box<Fact>, AllocError> {
    let (kind, rest) = first_word(line);
    let (name, places) = first_word(rest);
    let (kind, name) = (kind_of(kind), number(name));
    let args = objects_of(alloc, places)?;
    Ok(Box::new(alloc, Fact { kind, name, args })?)
}

/// The fact of this kind and name about one object.
pub(crate) fn fact_about(
    alloc: Global,
    kind: Kind,
    name: u32,
    object: Obj,
) -> Result<Fact, AllocError>
    ensures { IfOk result (λ fact. fact.args ≡ object ∷ []) }
{
    let args = Row::new(alloc, &[object])?;
    Ok(Fact { kind, name, args })
}
