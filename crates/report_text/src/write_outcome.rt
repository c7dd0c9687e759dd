//! How what came of a run is written.
ghost use Rattle.std.specs.Prelude.{◌≡◌, ◌==◌, ◌∷◌, [], ◌++◌, codes, if◌then◌else◌, length, map};
ghost use Rattle.std.specs.Fmt.{decimal};
ghost use Rattle.io_world.specs.Faults.{last_count, HasCause};
ghost use Rattle.io_world.specs.declared.sink.SinkFault.TheVariants.{Failed};
ghost use Rattle.report_text.specs.Prints.{Prints};
ghost use Rattle.report_text.specs.Texts.{do_line, fields_text, from_line, line, line_text, lines_text, text_of_outcome};
ghost use Rattle.transcript_model.specs.declared.outcome.Outcome.TheVariants as outcome;

use crate::lines::{put, put_calls, put_field, put_number, put_numbered};
use io_world::{Sink, SinkFault};
use transcript_model::{Call, LimitKind, Origin, Outcome};

/// Writes the lines of an outcome, each with its line feed, as this version of reports has them:
/// version 1 does not show the tuple of an origin. No memory is taken.
///
/// # Errors
/// `Failed` where the sink took no more, and only where its count of faults rose; the first bytes
/// may have been written.
pub fn put_outcome<O: Sink>(out: &mut O, outcome: &Outcome, version: u8) -> Result<(), SinkFault>
    ensures told { Prints result (O.taken out.old) (O.taken out.new)
        (text_of_outcome version outcome.now) }
    ensures cause { HasCause Failed last_count (O.faults out.old) (O.faults out.new) result }
{
    match outcome {
        Outcome::Plan { steps, cost, from } => {
            put_plan(out, steps.as_slice(), *cost, from.as_slice(), version)
        }
        Outcome::NoPlan => put(out, b"no plan\n"),
        Outcome::Limit(kind) => put(out, limit_line(*kind)),
    }
}

/// The line of a limit.
fn limit_line(kind: LimitKind) -> &'static [u8]
    ensures { result.now ≡ text_of_outcome 1 (outcome.Limit kind) }
{
    match kind {
        LimitKind::Calls => b"limit calls\n",
        LimitKind::States => b"limit states\n",
        LimitKind::Instances => b"limit instances\n",
    }
}

/// Writes a plan: its steps, its cost, and where the objects came from.
fn put_plan<O: Sink>(
    out: &mut O,
    steps: &[Call],
    cost: u64,
    from: &[Origin],
    version: u8,
) -> Result<(), SinkFault>
    ensures told { Prints result (O.taken out.old) (O.taken out.new)
        (text_of_outcome version (outcome.Plan steps.now cost from.now)) }
    ensures cause { HasCause Failed last_count (O.faults out.old) (O.faults out.new) result }
{
    put_steps(out, steps)?;
    put_numbered(out, b"cost", cost)?;
    put_origins(out, from, version)
}

/// Writes how many steps a plan has, and the steps.
fn put_steps<O: Sink>(out: &mut O, steps: &[Call]) -> Result<(), SinkFault>
    ensures told { Prints result (O.taken out.old) (O.taken out.new)
        (lines_text (line (codes "plan") (decimal (length steps.now) ∷ [])
        ∷ map do_line steps.now)) }
    ensures cause { HasCause Failed last_count (O.faults out.old) (O.faults out.new) result }
{
    put_numbered(out, b"plan", steps.len())?;
    put_calls(out, b"do", steps)
}

/// Writes where the objects came from.
fn put_origins<O: Sink>(out: &mut O, from: &[Origin], version: u8) -> Result<(), SinkFault>
    ensures told { Prints result (O.taken out.old) (O.taken out.new)
        (lines_text (map (from_line version) from.now)) }
    ensures cause { HasCause Failed last_count (O.faults out.old) (O.faults out.new) result }
{
    for origin in from {
        put_origin(out, origin, version)?;
    }
    Ok(())
}

/// Writes where an object came from.
fn put_origin<O: Sink>(out: &mut O, origin: &Origin, version: u8) -> Result<(), SinkFault>
    ensures told { Prints result (O.taken out.old) (O.taken out.new)
        (line_text (from_line version origin.now)) }
    ensures cause { HasCause Failed last_count (O.faults out.old) (O.faults out.new) result }
{
    put_named(out, origin)?;
    put_tuple_number(out, origin.tuple, version)
}

/// Begins the line of an object: its name, and the number of the request that it came from.
fn put_named<O: Sink>(out: &mut O, origin: &Origin) -> Result<(), SinkFault>
    ensures told { Prints result (O.taken out.old) (O.taken out.new)
        ((codes "from" ++ 32 ∷ origin.now.object) ++ 32 ∷ decimal origin.now.number) }
    ensures cause { HasCause Failed last_count (O.faults out.old) (O.faults out.new) result }
{
    put(out, b"from")?;
    put_field(out, origin.object.bytes())?;
    put_number(out, origin.number)
}

/// Ends the line of an object, in version 1 without the number of its tuple.
fn put_tuple_number<O: Sink>(out: &mut O, tuple: u8, version: u8) -> Result<(), SinkFault>
    ensures told { Prints result (O.taken out.old) (O.taken out.new)
        (fields_text (if version == 1 then [] else decimal tuple ∷ []) ++ 10 ∷ []) }
    ensures cause { HasCause Failed last_count (O.faults out.old) (O.faults out.new) result }
{
    if version == 1 {
        return put(out, b"\n");
    }
    put_number(out, tuple)?;
    put(out, b"\n")
}
