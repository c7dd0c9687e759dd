//! How a whole report is written.
ghost use Rattle.std.specs.Prelude.{map};
ghost use Rattle.std.specs.List.{flat_map};
ghost use Rattle.io_world.specs.Faults.{last_count, HasCause};
ghost use Rattle.io_world.specs.declared.sink.SinkFault.TheVariants.{Failed};
ghost use Rattle.report_text.specs.Prints.{Prints};
ghost use Rattle.report_text.specs.Texts.{head_lines, in_version, line_text, lines_text, pool_line, text_of_entry, text_of_report};

use crate::lines::{put, put_begun, put_names};
use crate::write_entry::put_entry;
use crate::write_head::{mode_bytes, put_first, put_limits};
use crate::write_outcome::put_outcome;
use io_world::{Sink, SinkFault};
use transcript_model::{Entry, PoolLine, Report};

/// Writes all lines of a report, each with its line feed, as this version of reports has them: its
/// first lines, its entries, its outcome, and `done`. No memory is taken.
///
/// # Errors
/// `Failed` where the sink took no more, and only where its count of faults rose; the first bytes
/// may have been written.
pub fn put_report<O: Sink>(out: &mut O, report: &Report, version: u8) -> Result<(), SinkFault>
    ensures told { Prints result (O.taken out.old) (O.taken out.new)
        (text_of_report (in_version version report.now)) }
    ensures cause { HasCause Failed last_count (O.faults out.old) (O.faults out.new) result }
{
    put_shown_head(out, report, version)?;
    put_entries(out, report.entries.as_slice())?;
    put_outcome(out, &report.outcome, version)?;
    put(out, b"done\n")
}

/// Writes the first lines of a report: the version and the mode, the limits, and the pools.
fn put_shown_head<O: Sink>(out: &mut O, report: &Report, version: u8) -> Result<(), SinkFault>
    ensures told { Prints result (O.taken out.old) (O.taken out.new)
        (lines_text (head_lines version report.now.mode report.now.calls report.now.states
        report.now.depth report.now.pools)) }
    ensures cause { HasCause Failed last_count (O.faults out.old) (O.faults out.new) result }
{
    put_first(out, version, mode_bytes(report.mode))?;
    put_limits(out, report.calls, report.states, report.depth)?;
    put_pool_lines(out, report.pools.as_slice())
}

/// Writes the line of each pool.
fn put_pool_lines<O: Sink>(out: &mut O, pools: &[PoolLine]) -> Result<(), SinkFault>
    ensures told { Prints result (O.taken out.old) (O.taken out.new)
        (lines_text (map pool_line pools.now)) }
    ensures cause { HasCause Failed last_count (O.faults out.old) (O.faults out.new) result }
{
    for pool in pools {
        put_pool_line(out, pool)?;
    }
    Ok(())
}

/// Writes the line of a pool.
fn put_pool_line<O: Sink>(out: &mut O, pool: &PoolLine) -> Result<(), SinkFault>
    ensures told { Prints result (O.taken out.old) (O.taken out.new)
        (line_text (pool_line pool.now)) }
    ensures cause { HasCause Failed last_count (O.faults out.old) (O.faults out.new) result }
{
    put_begun(out, b"pool", pool.workers)?;
    put_names(out, pool.streams.as_slice())?;
    put(out, b"\n")
}

/// Writes the lines of each entry.
fn put_entries<O: Sink>(out: &mut O, entries: &[Entry]) -> Result<(), SinkFault>
    ensures told { Prints result (O.taken out.old) (O.taken out.new)
        (flat_map text_of_entry entries.now) }
    ensures cause { HasCause Failed last_count (O.faults out.old) (O.faults out.new) result }
{
    for entry in entries {
        put_entry(out, entry)?;
    }
    Ok(())
}
