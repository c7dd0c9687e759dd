//! Reports, and what they certify.
ghost use Rattle.std.specs.Prelude.{◌≡◌, ◌<◌, ◌≤◌, ◌^◌, length, IfOk};
ghost use Rattle.legal_report.specs.Lines.{line_of as first_line};
ghost use Rattle.legal_report.specs.Reports.{IsCertified, IsCertifiedReport};
ghost use Rattle.report_text.specs.Forms.{IsFormed};
ghost use Rattle.report_text.specs.Texts.{lines_of_report};
ghost use Rattle.task_model.specs.Fit.{IsFit};

use crate::flaw::ReportFlaw;
use crate::lines::lines_of;
use crate::walk::{Walk, Walked};
use learning::Knowledge;
use report_reader::read_report;
use report_text::ReportFault;
use std::alloc::{AllocError, Global};
use task_model::Task;
use transcript_model::Report;

/// What is found of the text of a report.
#[derive(Drop)]
pub enum Certified {
    /// Its transcript is legal, and this is what is kept of it.
    Legal(Knowledge),
    /// It certifies nothing, for a flaw in this line, from 1.
    Flawed(usize, ReportFlaw),
}

/// The first line of the entry at this place, from 0, of a report of fewer than 2^31 lines; the line
/// behind the entries, where the place is behind the last. Lines count from 1.
pub fn line_of(report: &Report, place: usize) -> usize
    requires within { place ≤ length report.now.entries }
    requires lines { length (lines_of_report report.now) < 2 ^ 31 }
    ensures { result ≡ first_line report.now place }
{
    let before = &report.entries.as_slice()[..place];
    report.pools.len() + 3 + lines_of(before)
}

/// What the transcript of a report certifies, of the stated forms and with fewer than 2^31 lines, over a
/// fit task, as `certify` says it of a text. Fails only where memory is wanting.
pub fn certify_report(alloc: Global, task: &Task, report: &Report) -> Result<Certified, AllocError>
    requires fit { IsFit task.now }
    requires formed { IsFormed report.now }
    requires lines { length (lines_of_report report.now) < 2 ^ 31 }
    ensures { IfOk result (IsCertifiedReport task.now report.now) }
{
    let walk = Walk {
        alloc,
        task,
        version: report.version,
        entries: report.entries.as_slice(),
    };
    let mut knowledge = Box::new(alloc, Knowledge::new(alloc, task)?)?;
    match walk.walk(&mut knowledge)? {
        Walked::Ends => Ok(Certified::Legal(Box::into_inner(knowledge))),
        Walked::Stops(place, flaw) => Ok(Certified::Flawed(line_of(report, place), flaw)),
    }
}

/// What the transcript of a report certifies, whose text has fewer than 2^31 bytes, over a fit task.
///
/// `Legal` comes exactly where the text is a report's of the stated forms, and its transcript is
/// legal and has at most 100,000 requests. `Flawed` has the first line that isn't so: `Text`, up to
/// which no report begins so; `Ask`, a request that may not be made; `Answer`, an answer that may
/// not be given. Nothing else that a report says is judged. Fails only where memory is wanting.
pub fn certify(alloc: Global, task: &Task, bytes: &[u8]) -> Result<Certified, AllocError>
    requires fit { IsFit task.now }
    requires bytes { length bytes.now < 2 ^ 31 }
    ensures { IfOk result (IsCertified task.now bytes.now) }
{
    match read_report(alloc, bytes) {
        Ok(report) => certify_report(alloc, task, &report),
        Err(ReportFault::At { line, .. }) => {
            Ok(Certified::Flawed(line as usize, ReportFlaw::Text))
        }
        Err(ReportFault::Memory) => Err(AllocError),
    }
}
