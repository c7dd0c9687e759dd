//! How the entries of a transcript are written.
ghost use Rattle.std.specs.Prelude.{◌∷◌, [], ◌++◌, map, codes};
ghost use Rattle.std.specs.Fmt.{decimal};
ghost use Rattle.io_world.specs.Faults.{last_count, HasCause};
ghost use Rattle.io_world.specs.declared.sink.SinkFault.TheVariants.{Failed};
ghost use Rattle.report_text.specs.Prints.{Prints};
ghost use Rattle.report_text.specs.Texts.{call_fields, fields_text, line, line_text, lines_text, text_of_entry, tuple_fields, use_line};
ghost use Rattle.transcript_model.specs.declared.entry.Entry.TheVariants as entry;

use crate::lines::{
    put, put_begun, put_call, put_calls, put_field, put_names, put_number, put_numbered, put_pair,
};
use io_world::{Sink, SinkFault};
use task_model::Name;
use transcript_model::{Call, DreamUse, Entry};

/// Writes the lines of an entry, each with its line feed. No memory is taken.
///
/// # Errors
/// `Failed` where the sink took no more, and only where its count of faults rose; the first bytes
/// may have been written.
pub fn put_entry<O: Sink>(out: &mut O, entry: &Entry) -> Result<(), SinkFault>
    ensures told { Prints result (O.taken out.old) (O.taken out.new) (text_of_entry entry.now) }
    ensures cause { HasCause Failed last_count (O.faults out.old) (O.faults out.new) result }
{
    match entry {
        Entry::Level => put_word(out, b"level"),
        Entry::Ask { number, turn, call } => put_ask(out, *number, *turn, call),
        Entry::Got {
            number,
            tuples,
            values,
        } => put_got(out, *number, *tuples, values.as_slice()),
        Entry::Value { number, value } => put_pair(out, b"value", *number, *value),
        Entry::End { number } => put_numbered(out, b"end", *number),
        Entry::Dream { uses, steps } => put_dream(out, uses.as_slice(), steps.as_slice()),
        Entry::Nothing => put_word(out, b"none"),
        Entry::Reset => put_word(out, b"reset"),
        Entry::Pick(number) => put_numbered(out, b"pick", *number),
        Entry::Retire(number) => put_numbered(out, b"retire", *number),
    }
}

/// Writes a line of one word.
fn put_word<O: Sink>(out: &mut O, word: &[u8]) -> Result<(), SinkFault>
    ensures told { Prints result (O.taken out.old) (O.taken out.new)
        (line_text (line word.now [])) }
    ensures cause { HasCause Failed last_count (O.faults out.old) (O.faults out.new) result }
{
    put(out, word)?;
    put(out, b"\n")
}

/// Writes a request.
fn put_ask<O: Sink>(out: &mut O, number: u32, turn: u32, call: &Call) -> Result<(), SinkFault>
    ensures told { Prints result (O.taken out.old) (O.taken out.new)
        (line_text (line (codes "ask") (decimal number ∷ decimal turn ∷ call_fields call.now))) }
    ensures cause { HasCause Failed last_count (O.faults out.old) (O.faults out.new) result }
{
    put_begun(out, b"ask", number)?;
    put_number(out, turn)?;
    put_call(out, call)
}

/// Writes a yield.
fn put_got<O: Sink>(out: &mut O, number: u32, tuples: u8, values: &[Name]) -> Result<(), SinkFault>
    ensures told { Prints result (O.taken out.old) (O.taken out.new)
        (line_text (line (codes "got") (decimal number ∷ tuple_fields tuples values.now))) }
    ensures cause { HasCause Failed last_count (O.faults out.old) (O.faults out.new) result }
{
    put_begun(out, b"got", number)?;
    put_tuples(out, tuples, values)?;
    put(out, b"\n")
}

/// Writes the values of so many tuples, with a bar between each two.
fn put_tuples<O: Sink>(out: &mut O, tuples: u8, values: &[Name]) -> Result<(), SinkFault>
    ensures told { Prints result (O.taken out.old) (O.taken out.new)
        (fields_text (tuple_fields tuples values.now)) }
    ensures cause { HasCause Failed last_count (O.faults out.old) (O.faults out.new) result }
{
    if tuples < 2 {
        return put_names(out, values);
    }
    let width = values.len() / usize::from(tuples);
    let mut rest = values;
    let mut bars = tuples - 1;
    while bars > 0 {
        let (tuple, after) = rest.split_at(width);
        put_tuple(out, tuple)?;
        rest = after;
        bars -= 1;
    }
    put_names(out, rest)
}

/// Writes the values of a tuple, and a bar.
fn put_tuple<O: Sink>(out: &mut O, values: &[Name]) -> Result<(), SinkFault>
    ensures told { Prints result (O.taken out.old) (O.taken out.new)
        (fields_text values.now ++ 32 ∷ codes "|") }
    ensures cause { HasCause Failed last_count (O.faults out.old) (O.faults out.new) result }
{
    put_names(out, values)?;
    put_field(out, b"|")
}

/// Writes a dream.
fn put_dream<O: Sink>(out: &mut O, uses: &[DreamUse], steps: &[Call]) -> Result<(), SinkFault>
    ensures told { Prints result (O.taken out.old) (O.taken out.new)
        (text_of_entry (entry.Dream uses.now steps.now)) }
    ensures cause { HasCause Failed last_count (O.faults out.old) (O.faults out.new) result }
{
    put_pair(out, b"dream", uses.len(), steps.len())?;
    put_uses(out, uses)?;
    put_calls(out, b"step", steps)
}

/// Writes the entries that a dream uses.
fn put_uses<O: Sink>(out: &mut O, uses: &[DreamUse]) -> Result<(), SinkFault>
    ensures told { Prints result (O.taken out.old) (O.taken out.new)
        (lines_text (map use_line uses.now)) }
    ensures cause { HasCause Failed last_count (O.faults out.old) (O.faults out.new) result }
{
    for one in uses {
        put_use(out, one)?;
    }
    Ok(())
}

/// Writes an entry that a dream uses.
fn put_use<O: Sink>(out: &mut O, one: &DreamUse) -> Result<(), SinkFault>
    ensures told { Prints result (O.taken out.old) (O.taken out.new)
        (line_text (use_line one.now)) }
    ensures cause { HasCause Failed last_count (O.faults out.old) (O.faults out.new) result }
{
    put_begun(out, b"use", one.number)?;
    put_call(out, &one.call)
}
