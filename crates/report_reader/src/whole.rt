//! The whole of a report.
ghost use Rattle.std.specs.Prelude.{IfOk};
ghost use Rattle.report_text.specs.Forms.{IsFormed};
ghost use Rattle.report_text.specs.Places.{first};
ghost use Rattle.report_text.specs.Texts.{lines_of_report};
ghost use Rattle.report_reader.specs.Finding.{PartReads};

use crate::body_reader::{Body, body_in};
use crate::head_reader::{First, Limits, next_first, next_limits, pools_in};
use crate::lines::Lines;
use crate::outcome_reader::outcome_in;
use std::alloc::{AllocError, Global};
use transcript_model::Report;

/// The report in these lines, up to its last line; None where a line may not stand, which is the
/// next one then.
pub(crate) fn report_in(alloc: Global, lines: &mut Lines<'_>) -> Result<Option<Report>, AllocError>
    ensures { IfOk result (λ found. PartReads first IsFormed lines_of_report found lines.old
        lines.new) }
{
    let Some(First { version, mode }) = next_first(lines) else {
        return Ok(None);
    };
    let Some(
        Limits {
            calls,
            states,
            depth,
        },
    ) = next_limits(lines)
    else {
        return Ok(None);
    };
    let pools = pools_in(alloc, lines)?;
    let Some(Body { entries, ending }) = body_in(alloc, version, lines)? else {
        return Ok(None);
    };
    let Some(outcome) = outcome_in(alloc, version, ending, lines)? else {
        return Ok(None);
    };
    Ok(Some(Report {
        version,
        mode,
        calls,
        states,
        depth,
        pools,
        entries,
        outcome,
    }))
}
