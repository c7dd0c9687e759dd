//! Lines of fields with single spaces, written to a sink piece by piece: no memory is taken for
//! them.
ghost use Rattle.std.specs.Prelude.{◌∷◌, [], ◌++◌, map};
ghost use Rattle.io_world.specs.Faults.{last_count, HasCause};
ghost use Rattle.io_world.specs.declared.sink.SinkFault.TheVariants.{Failed};
ghost use Rattle.report_text.specs.Prints.{Prints};
ghost use Rattle.report_text.specs.Texts.{call_fields, fields_text, line, line_text, lines_text};

use io_world::{Sink, SinkFault, write_all};
use itoa::{Buffer, Integer};
use task_model::Name;
use transcript_model::Call;

/// Writes these bytes.
pub fn put<O: Sink>(out: &mut O, bytes: &[u8]) -> Result<(), SinkFault>
    ensures told { Prints result (O.taken out.old) (O.taken out.new) bytes.now }
    ensures cause { HasCause Failed last_count (O.faults out.old) (O.faults out.new) result }
{
    write_all(out, bytes)
}

/// Writes a space and a field.
pub fn put_field<O: Sink>(out: &mut O, field: &[u8]) -> Result<(), SinkFault>
    ensures told { Prints result (O.taken out.old) (O.taken out.new) (32 ∷ field.now) }
    ensures cause { HasCause Failed last_count (O.faults out.old) (O.faults out.new) result }
{
    put(out, b" ")?;
    put(out, field)
}

/// Writes a space and a number.
pub fn put_number<O: Sink, N: Integer>(out: &mut O, number: N) -> Result<(), SinkFault>
    ensures told { Prints result (O.taken out.old) (O.taken out.new) (32 ∷ N.text number) }
    ensures cause { HasCause Failed last_count (O.faults out.old) (O.faults out.new) result }
{
    let mut digits = Buffer::new();
    put_field(out, digits.format(number).as_bytes())
}

/// Writes each name with a space before it.
pub(crate) fn put_names<O: Sink>(out: &mut O, names: &[Name]) -> Result<(), SinkFault>
    ensures told { Prints result (O.taken out.old) (O.taken out.new) (fields_text names.now) }
    ensures cause { HasCause Failed last_count (O.faults out.old) (O.faults out.new) result }
{
    for name in names {
        put_field(out, name.bytes())?;
    }
    Ok(())
}

/// Writes a call behind the fields of a line, and ends the line.
pub(crate) fn put_call<O: Sink>(out: &mut O, call: &Call) -> Result<(), SinkFault>
    ensures told { Prints result (O.taken out.old) (O.taken out.new)
        (fields_text (call_fields call.now) ++ 10 ∷ []) }
    ensures cause { HasCause Failed last_count (O.faults out.old) (O.faults out.new) result }
{
    put_field(out, call.name.bytes())?;
    put_names(out, call.args.as_slice())?;
    put(out, b"\n")
}

/// Begins a line with a word and a number.
pub fn put_begun<O: Sink, N: Integer>(out: &mut O, word: &[u8], number: N) -> Result<(), SinkFault>
    ensures told { Prints result (O.taken out.old) (O.taken out.new)
        (word.now ++ 32 ∷ N.text number) }
    ensures cause { HasCause Failed last_count (O.faults out.old) (O.faults out.new) result }
{
    put(out, word)?;
    put_number(out, number)
}

/// Writes a line of a word and a number.
pub(crate) fn put_numbered<O: Sink, N: Integer>(
    out: &mut O,
    word: &[u8],
    number: N,
) -> Result<(), SinkFault>
    ensures told { Prints result (O.taken out.old) (O.taken out.new)
        (line_text (line word.now (N.text number ∷ []))) }
    ensures cause { HasCause Failed last_count (O.faults out.old) (O.faults out.new) result }
{
    put_begun(out, word, number)?;
    put(out, b"\n")
}

/// Writes a line of a word and two numbers.
pub fn put_pair<O: Sink, N: Integer>(
    out: &mut O,
    word: &[u8],
    first: N,
    second: N,
) -> Result<(), SinkFault>
    ensures told { Prints result (O.taken out.old) (O.taken out.new)
        (line_text (line word.now (N.text first ∷ N.text second ∷ []))) }
    ensures cause { HasCause Failed last_count (O.faults out.old) (O.faults out.new) result }
{
    put_begun(out, word, first)?;
    put_number(out, second)?;
    put(out, b"\n")
}

/// Writes a line for each call, with this word first.
pub fn put_calls<O: Sink>(out: &mut O, word: &[u8], calls: &[Call]) -> Result<(), SinkFault>
    ensures told { Prints result (O.taken out.old) (O.taken out.new)
        (lines_text (map (λ call. line word.now (call_fields call)) calls.now)) }
    ensures cause { HasCause Failed last_count (O.faults out.old) (O.faults out.new) result }
{
    for call in calls {
        put_call_line(out, word, call)?;
    }
    Ok(())
}

/// Writes a line of a word and a call.
fn put_call_line<O: Sink>(out: &mut O, word: &[u8], call: &Call) -> Result<(), SinkFault>
    ensures told { Prints result (O.taken out.old) (O.taken out.new)
        (line_text (line word.now (call_fields call.now))) }
    ensures cause { HasCause Failed last_count (O.faults out.old) (O.faults out.new) result }
{
    put(out, word)?;
    put_call(out, call)
}
