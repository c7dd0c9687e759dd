//! What answers certify, put behind what is known, and what they tell, put behind the notes.
ghost use Rattle.std.specs.Prelude.{◌≡◌, ◌≤◌, ◌+◌, ◌<◌, ◌++◌, [], length, take, replicate, OnOk, OnErr};
ghost use Rattle.fact_store.specs.Growth.{IsBetween, LiesBetween};
ghost use Rattle.task_model.specs.Streams.{Yielded};
ghost use Rattle.task_model.specs.declared.limits.TheConstants.{LARGEST_COUNT};
ghost use Rattle.transcript_model.specs.Transcript.{known_of, notes_of, known_with, notes_with};
ghost use Rattle.transcript_model.specs.declared.entry.Entry.TheVariants as entry;
ghost use Rattle.learning.specs.Learning.{MayLearn, CanLearn, asked_by};
ghost use Rattle.transcript_model.specs.Legal.{answered_number};

use crate::tuple::learn_tuple;
use crate::worth::learn_value;
use fact_store::Facts;
use instance_queue::Queue;
use std::alloc::{AllocError, Global};
use task_model::{Instance, Name, Stream, Task};
use transcript_model::Entry;

/// The number of the request that the entry answers, if it is an answer.
pub fn answered(entry: &Entry) -> Option<u32>
    ensures { result ≡ answered_number entry.now }
{
    match entry {
        Entry::Got { number, .. } => Some(*number),
        Entry::Value { number, .. } => Some(*number),
        Entry::End { number } => Some(*number),
        _ => None,
    }
}

/// An instance that was asked, with its stream.
#[derive(Clone, Copy)]
struct Asked<'a> {
    stream: &'a Stream,
    instance: &'a Instance,
}

/// What so many tuples of an instance certify. Fails only where memory is wanting; then a part of
/// it may be known, and nothing else.
fn learn_tuples(
    alloc: Global,
    task: &Task,
    facts: &mut Facts,
    asked: &Asked<'_>,
    tuples: u8,
    values: &[Name],
) -> Result<(), AllocError>
    requires may { MayLearn task.now facts.old.known [] (asked_by asked.now)
        (entry.Got 0 tuples values.now) }
    ensures known { OnOk result (facts.new.known
        ≡ known_with task.now facts.old.known (asked_by asked.now)
        (entry.Got 0 tuples values.now)) }
    ensures part { OnErr result (LiesBetween facts.old.known facts.new.known
        (known_with task.now facts.old.known (asked_by asked.now)
        (entry.Got 0 tuples values.now))) }
{
    let mut rest = values;
    for _ in 0..tuples {
        let (tuple, later) = rest.split_at(asked.stream.outputs.len());
        let inputs = asked.instance.inputs.as_slice();
        learn_tuple(alloc, facts, &task.domain, asked.stream, inputs, tuple)?;
        rest = later;
    }
    Ok(())
}

/// Notes that the instance gave so many tuples. Fails only where memory is wanting; then the first
/// of them may be noted.
fn note_tuples(queue: &mut Queue, instance: &Instance, tuples: u8) -> Result<(), AllocError>
    requires { length queue.old + tuples < LARGEST_COUNT }
    ensures notes { OnOk result (queue.new ≡ queue.old ++ replicate tuples (Yielded instance.now)) }
    ensures part { OnErr result (IsBetween queue.old queue.new
        (queue.old ++ replicate tuples (Yielded instance.now))) }
{
    for _ in 0..tuples {
        queue.note_got(instance)?;
    }
    Ok(())
}

/// What an answer of an instance certifies and tells. Fails only where memory is wanting; then a
/// part of it may be known and noted, and nothing else.
fn learn_answer(
    alloc: Global,
    task: &Task,
    facts: &mut Facts,
    queue: &mut Queue,
    asked: &Asked<'_>,
    entry: &Entry,
) -> Result<(), AllocError>
    requires { MayLearn task.now facts.old.known queue.old (asked_by asked.now) entry.now }
    ensures known { OnOk result (facts.new.known
        ≡ known_with task.now facts.old.known (asked_by asked.now) entry.now) }
    ensures notes { OnOk result (queue.new
        ≡ notes_with queue.old (asked_by asked.now) entry.now) }
    ensures part { OnErr result (LiesBetween facts.old.known facts.new.known
        (known_with task.now facts.old.known (asked_by asked.now) entry.now)) }
    ensures noted { OnErr result (IsBetween queue.old queue.new
        (notes_with queue.old (asked_by asked.now) entry.now)) }
{
    match entry {
        Entry::Got { tuples, values, .. } => {
            learn_tuples(alloc, task, facts, asked, *tuples, values.as_slice())?;
            note_tuples(queue, asked.instance, *tuples)
        }
        Entry::Value { value, .. } => {
            let inputs = asked.instance.inputs.as_slice();
            learn_value(alloc, facts, &task.domain, asked.stream, inputs, *value)?;
            queue.note_end(asked.instance)
        }
        Entry::End { .. } => queue.note_end(asked.instance),
        _ => Ok(()),
    }
}

/// What the entries from a place on certify and tell, where these instances were asked: it is put
/// behind what is known and noted after the entries before that place. The transcript is legal.
/// Fails only where memory is wanting; then a part of it may be known and noted, and nothing else.
// Seven parameters and eight clauses: what changes of the knowledge and what is read of it are lent
// apart.
pub(crate) fn learn_from(
    alloc: Global,
    task: &Task,
    facts: &mut Facts,
    queue: &mut Queue,
    asked: &[Instance],
    entries: &[Entry],
    from: usize,
) -> Result<(), AllocError>
    requires can { CanLearn task.now asked.now entries.now }
    requires from { from ≤ length entries.now }
    requires known { facts.old.known ≡ known_of task.now (take from entries.now) }
    requires notes { queue.old ≡ notes_of task.now (take from entries.now) }
    ensures known { OnOk result (facts.new.known ≡ known_of task.now entries.now) }
    ensures notes { OnOk result (queue.new ≡ notes_of task.now entries.now) }
    ensures part { OnErr result (LiesBetween facts.old.known facts.new.known
        (known_of task.now entries.now)) }
    ensures noted { OnErr result (IsBetween queue.old queue.new (notes_of task.now entries.now)) }
{
    for place in from..entries.len() {
        let entry = &entries[place];
        if let Some(number) = answered(entry) {
            let instance = &asked[number as usize - 1];
            let stream = &task.streams.as_slice()[instance.stream as usize];
            learn_answer(
                alloc,
                task,
                facts,
                queue,
                &Asked { stream, instance },
                entry,
            )?;
        }
    }
    Ok(())
}
