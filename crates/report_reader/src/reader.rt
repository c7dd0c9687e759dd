//! How reports are read.
ghost use Rattle.std.specs.Prelude.{◌≡◌, ◌↔◌, ◌<◌, ◌^◌, [], length, true, IfOk, IfErr};
ghost use Rattle.gen_lines.specs.Lines.{unfinished};
ghost use Rattle.report_text.specs.Faults.{IsTextFault};
ghost use Rattle.report_text.specs.Forms.{IsFormed};
ghost use Rattle.report_text.specs.Texts.{text_of_report};

use crate::lines::Lines;
use crate::whole::report_in;
use report_text::ReportFault;
use std::alloc::Global;
use transcript_model::Report;

/// The longest report that a command takes, in bytes: 256 MiB (this project's).
pub const REPORT_BYTES: usize = 268_435_456;

/// The kind of a fault of the text.
const TEXT: u8 = 1;

/// The report that the bytes are, in version 1 or 2 (the text of a report is this project's). The
/// fault `At` has the first line, from 1, up to which no report begins so, and kind 1; where a
/// report begins with all lines that end with a line feed, that is the line behind them. `Memory`
/// comes only where memory is wanting.
pub fn read_report(alloc: Global, bytes: &[u8]) -> Result<Report, ReportFault>
    requires { length bytes.now < 2 ^ 31 }
    ensures ok { IfOk result (λ r. IsFormed r × (text_of_report r ≡ bytes.now)) }
    ensures fault { IfErr result (IsTextFault bytes.now) }
{
    let mut lines = Lines::of(bytes);
    let total = lines.count();
    let Ok(found) = report_in(alloc, &mut lines) else {
        return Err(ReportFault::Memory);
    };
    let left = lines.count();
    let fault = ReportFault::At {
        line: (total - left + 1) as u32,
        kind: TEXT,
    };
    let Some(report) = found else {
        return Err(fault);
    };
    if left > 0 || !ends_with_feed(bytes) {
        return Err(fault);
    }
    Ok(report)
}

/// Whether nothing stands behind the last line feed.
fn ends_with_feed(bytes: &[u8]) -> bool
    ensures { (result ≡ true) ↔ (unfinished bytes.now ≡ []) }
{
    match bytes.last() {
        Some(b) => *b == b'\n',
        None => true,
    }
}
