//! What the instances of streams were told, and what is due then.
ghost use Rattle.task_model.specs.Fit.{IsFit};

use crate::fault::Fault;
use crate::print::{Names, push_objects, push_stream};
use crate::words::instance_of;
use fact_store::Facts;
use instance_queue::{Due, Queue};
use std::alloc::{AllocError, Global};
use std::fmt::Write;
use task_model::Task;
use test_rows::{Part, first_word};

/// An instance was told something: `yield STREAM PLACES`, a tuple, or `end STREAM PLACES`, that
/// nothing more comes.
fn note(alloc: Global, queue: &mut Queue, line: &[u8]) -> Result<(), AllocError> {
    let (word, rest) = first_word(line);
    let instance = instance_of(alloc, rest)?;
    if word == b"end".as_slice() {
        queue.note_end(&instance)
    } else if queue.yields(&instance) < 4_294_967_295 {
        queue.note_got(&instance)
    } else {
        Ok(())
    }
}

/// Adds asks, a line each: the turn, the stream and the inputs.
fn push_dues(out: &mut String, task: &Task, facts: &Facts, dues: &[Due]) -> Result<(), AllocError> {
    let names = Names::of_facts(facts);
    for due in dues {
        let turn = due.turn;
        write!(out, "{turn} ")?;
        push_stream(out, task, due.instance.stream)?;
        push_objects(out, names, due.instance.inputs.as_slice())?;
        out.push('\n')?;
    }
    Ok(())
}

/// Adds what is due, or how much.
fn add_due(
    task: &Task,
    facts: &Facts,
    queue: &Queue,
    counts: bool,
    out: &mut String,
) -> Result<(), Fault>
    requires { IsFit task.now }
{
    let dues = queue.next_level(task, facts)?;
    if counts {
        let count = dues.len();
        return Ok(write!(out, "{count} due\n")?);
    }
    Ok(push_dues(out, task, facts, dues.as_slice())?)
}

/// Does and answers what a part of a row says of the queue, or answers false where it says nothing
/// of it.
pub(crate) fn tell_queue(
    alloc: Global,
    task: &Task,
    facts: &Facts,
    queue: &mut Queue,
    part: &Part,
    out: &mut String,
) -> Result<bool, Fault>
    requires { IsFit task.now }
{
    let line = part.rest.as_slice();
    match part.key.as_str() {
        "told" => note(alloc, queue, line)?,
        "due" => add_due(task, facts, queue, false, out)?,
        "due_count" => add_due(task, facts, queue, true, out)?,
        "finished" => {
            let finished = queue.finished(task, &*instance_of(alloc, line)?);
            write!(out, "{finished}\n")?;
        }
        "reachable" => {
            let reachable = queue.reachable(task, facts, &*instance_of(alloc, line)?);
            write!(out, "{reachable}\n")?;
        }
        "yields" => {
            let count = queue.yields(&*instance_of(alloc, line)?);
            write!(out, "{count} yields\n")?;
        }
        _ => return Ok(false),
    }
    Ok(true)
}
