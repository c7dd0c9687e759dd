//! What a store of facts is told, and what it finds.
ghost use Rattle.std.specs.Prelude.{◌≡◌, Some, IfOk, slice_get};

use crate::fault::Fault;
use crate::print::{Names, push_bytes, push_objects, push_option};
use crate::words::{fact_about, kind_of};
use fact_store::Facts;
use gen_lines::request_text;
use std::alloc::{AllocError, Global};
use std::fmt::Write;
use task_model::{Fact, Instance, LARGEST_NUMBER, Look, Name, Obj, Row, Task};
use test_rows::{Part, first_word, number};

/// The object of this name.
fn object_named(facts: &Facts, name: &[u8]) -> Result<Obj, Fault>
    ensures { IfOk result (λ object. slice_get facts.now.known.names object ≡ Some name.now) }
{
    match facts.object_of(name) {
        Some(object) => Ok(object),
        None => Err(Fault::Unfit),
    }
}

/// Names an object, new or old, and adds its place. There are fewer than 99.
fn add_name(alloc: Global, facts: &mut Facts, name: &[u8], out: &mut String) -> Result<(), Fault> {
    if facts.names().len() >= 99 {
        return Err(Fault::Unfit);
    }
    let name = Name::from_slice(alloc, name)?;
    let place = facts.add_name(name)?.place();
    Ok(write!(out, "{place}\n")?)
}

/// Puts the fact of a line behind the others, and adds whether it is new: `KIND NUMBER NAME`, what
/// its name stands for, that number, and the name of an object.
fn add_fact(alloc: Global, facts: &mut Facts, line: &[u8], out: &mut String) -> Result<(), Fault> {
    let (kind, rest) = first_word(line);
    let (number_of_name, name) = first_word(rest);
    let object = object_named(facts, name)?;
    let fact = fact_about(alloc, kind_of(kind), number(number_of_name), object)?;
    let fresh = facts.add(fact)?;
    Ok(write!(out, "{fresh}\n")?)
}

/// Puts the value of a line behind the others, and adds whether it is new: `FUNCTION NAME VALUE`.
fn put_value(alloc: Global, facts: &mut Facts, line: &[u8], out: &mut String) -> Result<(), Fault> {
    let (func, rest) = first_word(line);
    let (name, value) = first_word(rest);
    let object = object_named(facts, name)?;
    let value = number(value);
    if value > LARGEST_NUMBER {
        return Err(Fault::Unfit);
    }
    let args = Row::new(alloc, &[object])?;
    let fresh = facts.add_value(number(func), args, value)?;
    Ok(write!(out, "{fresh}\n")?)
}

/// Adds the value of a function's term: `FUNCTION NAME`.
pub(crate) fn add_value_of(facts: &Facts, line: &[u8], out: &mut String) -> Result<(), Fault> {
    let (func, name) = first_word(line);
    let object = object_named(facts, name)?;
    Ok(push_option(out, facts.value(number(func), &[object]))?)
}

/// Adds whether the fact of a line is known: `KIND NUMBER NAME`.
fn add_known(alloc: Global, facts: &Facts, line: &[u8], out: &mut String) -> Result<(), Fault> {
    let (kind, rest) = first_word(line);
    let (number_of_name, name) = first_word(rest);
    let object = object_named(facts, name)?;
    let fact = fact_about(alloc, kind_of(kind), number(number_of_name), object)?;
    let known = facts.has(&fact);
    Ok(write!(out, "{known}\n")?)
}

/// Adds how many atoms of a predicate have an object at a place: `PREDICATE PLACE NAME`.
fn add_matches(facts: &Facts, line: &[u8], out: &mut String) -> Result<(), Fault> {
    let (pred, rest) = first_word(line);
    let (place, name) = first_word(rest);
    let object = object_named(facts, name)?;
    let count = facts.matches(number(pred), number(place) as usize, object);
    Ok(write!(out, "{count} matches\n")?)
}

/// Adds the objects of a type, in the order in which that became known.
fn add_objects(alloc: Global, facts: &Facts, sort: u32, out: &mut String) -> Result<(), Fault> {
    let objects = facts.objects_with(alloc, sort)?;
    out.push_str("objects")?;
    push_objects(out, Names::of_facts(facts), objects.as_slice())?;
    Ok(out.push('\n')?)
}

/// Adds the request of the first stream for an object as both inputs, or that there is no such
/// object: `NUMBER NAME`.
fn add_request(
    alloc: Global,
    task: &Task,
    facts: &Facts,
    line: &[u8],
    out: &mut String,
) -> Result<(), Fault> {
    let (count, name) = first_word(line);
    let Some(object) = facts.object_of(name) else {
        return Ok(out.push_str("none\n")?);
    };
    if task.streams.is_empty() {
        return Err(Fault::Unfit);
    }
    let inputs = Row::new(alloc, &[object, object])?;
    let instance = Instance { stream: 0, inputs };
    let text = request_text(alloc, task, facts, number(count), &instance)?;
    Ok(push_bytes(out, text.as_slice())?)
}

/// Does and answers what a part of a row says of the store, or answers false where it says nothing
/// of it.
pub(crate) fn tell_store(
    alloc: Global,
    task: &Task,
    facts: &mut Facts,
    part: &Part,
    out: &mut String,
) -> Result<bool, Fault> {
    let line = part.rest.as_slice();
    match part.key.as_str() {
        "name" => add_name(alloc, facts, line, out)?,
        "add" => add_fact(alloc, facts, line, out)?,
        "put_value" => put_value(alloc, facts, line, out)?,
        "value" => add_value_of(facts, line, out)?,
        "has" => add_known(alloc, facts, line, out)?,
        "matches" => add_matches(facts, line, out)?,
        "objects" => add_objects(alloc, facts, number(line), out)?,
        "objects_count" => {
            let count = facts.count(number(line));
            write!(out, "{count} objects\n")?;
        }
        "place" => push_option(out, facts.object_of(line).map(|object| object.place()))?,
        "request" => add_request(alloc, task, facts, line, out)?,
        _ => return Ok(false),
    }
    Ok(true)
}
