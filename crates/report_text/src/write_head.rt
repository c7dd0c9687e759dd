//! How the head of a report is written.
ghost use Rattle.std.specs.Prelude.{◌≡◌, ◌<◌, ◌∷◌, [], All, length, map, codes};
ghost use Rattle.std.specs.Fmt.{decimal};
ghost use Rattle.gen_lines.specs.Request.{stream_name};
ghost use Rattle.io_world.specs.Faults.{last_count, HasCause};
ghost use Rattle.io_world.specs.declared.sink.SinkFault.TheVariants.{Failed};
ghost use Rattle.report_text.specs.Prints.{Prints};
ghost use Rattle.report_text.specs.Texts.{fields_text, line, line_text, lines_text, mode_word, pool_line, shown_pool, text_of_head};

use crate::lines::{put, put_begun, put_field, put_number};
use io_world::{Sink, SinkFault};
use task_model::Task;
use transcript_model::{Head, Mode, Pool};

/// Writes the first lines of a report, each with its line feed: the version and the mode, the
/// limits, and the pools. No memory is taken.
///
/// # Errors
/// `Failed` where the sink took no more, and only where its count of faults rose; the first bytes
/// may have been written.
pub fn put_head<O: Sink>(out: &mut O, task: &Task, head: &Head) -> Result<(), SinkFault>
    requires { All (λ pool. All (λ stream. stream < length task.now.streams) pool.streams)
        head.now.pools }
    ensures told { Prints result (O.taken out.old) (O.taken out.new)
        (text_of_head task.now head.now) }
    ensures cause { HasCause Failed last_count (O.faults out.old) (O.faults out.new) result }
{
    put_first(out, head.version, mode_bytes(head.mode))?;
    put_limits(out, head.calls, head.states, head.depth)?;
    put_pools(out, task, head.pools.as_slice())
}

/// Writes the version and the word of the mode.
pub(crate) fn put_first<O: Sink>(out: &mut O, version: u8, mode: &[u8]) -> Result<(), SinkFault>
    ensures told { Prints result (O.taken out.old) (O.taken out.new)
        (line_text (line (codes "pddlstream") (decimal version ∷ mode.now ∷ []))) }
    ensures cause { HasCause Failed last_count (O.faults out.old) (O.faults out.new) result }
{
    put_begun(out, b"pddlstream", version)?;
    put_field(out, mode)?;
    put(out, b"\n")
}

/// Writes the limits.
pub(crate) fn put_limits<O: Sink>(
    out: &mut O,
    calls: u32,
    states: u32,
    depth: u8,
) -> Result<(), SinkFault>
    ensures told { Prints result (O.taken out.old) (O.taken out.new)
        (line_text (line (codes "limits")
        (decimal calls ∷ decimal states ∷ decimal depth ∷ []))) }
    ensures cause { HasCause Failed last_count (O.faults out.old) (O.faults out.new) result }
{
    put_begun(out, b"limits", calls)?;
    put_number(out, states)?;
    put_number(out, depth)?;
    put(out, b"\n")
}

/// Writes the line of each pool.
fn put_pools<O: Sink>(out: &mut O, task: &Task, pools: &[Pool]) -> Result<(), SinkFault>
    requires { All (λ pool. All (λ stream. stream < length task.now.streams) pool.streams)
        pools.now }
    ensures told { Prints result (O.taken out.old) (O.taken out.new)
        (lines_text (map (λ pool. pool_line (shown_pool task.now pool)) pools.now)) }
    ensures cause { HasCause Failed last_count (O.faults out.old) (O.faults out.new) result }
{
    for pool in pools {
        put_pool(out, task, pool)?;
    }
    Ok(())
}

/// The word of a mode.
pub(crate) fn mode_bytes(mode: Mode) -> &'static [u8]
    ensures { result.now ≡ mode_word mode }
{
    match mode {
        Mode::Incremental => b"incremental",
        Mode::Focused => b"focused",
        Mode::Binding => b"binding",
        Mode::Adaptive => b"adaptive",
    }
}

/// Writes the line of a pool.
fn put_pool<O: Sink>(out: &mut O, task: &Task, pool: &Pool) -> Result<(), SinkFault>
    requires { All (λ stream. stream < length task.now.streams) pool.now.streams }
    ensures told { Prints result (O.taken out.old) (O.taken out.new)
        (line_text (pool_line (shown_pool task.now pool.now))) }
    ensures cause { HasCause Failed last_count (O.faults out.old) (O.faults out.new) result }
{
    put_begun(out, b"pool", pool.workers)?;
    put_streams(out, task, pool.streams.as_slice())?;
    put(out, b"\n")
}

/// Writes the names of streams of a task, each with a space before it.
fn put_streams<O: Sink>(out: &mut O, task: &Task, streams: &[u32]) -> Result<(), SinkFault>
    requires { All (λ stream. stream < length task.now.streams) streams.now }
    ensures told { Prints result (O.taken out.old) (O.taken out.new)
        (fields_text (map (stream_name task.now) streams.now)) }
    ensures cause { HasCause Failed last_count (O.faults out.old) (O.faults out.new) result }
{
    for stream in streams {
        put_stream(out, task, *stream)?;
    }
    Ok(())
}

/// Writes the name of a stream of a task, with a space before it.
fn put_stream<O: Sink>(out: &mut O, task: &Task, stream: u32) -> Result<(), SinkFault>
    requires { stream < length task.now.streams }
    ensures told { Prints result (O.taken out.old) (O.taken out.new)
        (32 ∷ stream_name task.now stream) }
    ensures cause { HasCause Failed last_count (O.faults out.old) (O.faults out.new) result }
{
    let found = &task.streams.as_slice()[stream as usize];
    put_field(out, found.name.bytes())
}
