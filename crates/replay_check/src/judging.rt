//! Reports, replayed.
ghost use Rattle.std.specs.Prelude.{◌≡◌, ◌+◌, ◌<◌, ◌≤◌, ◌^◌, ℕ, List, length, IfOk};
ghost use Rattle.replay_check.specs.Heads.{IsFitReportHead, reported_limits};
ghost use Rattle.replay_check.specs.Judgings.{IsEnded, IsRightOf, verdict_of};
ghost use Rattle.report_text.specs.Texts.{lines_of_report, text_of_report};
ghost use Rattle.replay_check.specs.Standings.{AreBounds, IsStanding, limits_by};
ghost use Rattle.replay_check.specs.Verdicts.{IsReportVerdict, IsVerdict};
ghost use Rattle.replay_check.specs.declared.judging.Ended.TheVariants.{Invalid};
ghost use Rattle.task_model.specs.Fit.{IsFit};
ghost use Rattle.task_model.specs.declared.limits.TheConstants.{MOST_STATES};
ghost use Rattle.task_model.specs.declared.task.Task.{Task as AnyTask};
ghost use Rattle.report_text.specs.Forms.{IsFormed};

use crate::bounds::Bounds;
use crate::entries::{Walked, walk};
use crate::finding::Finding;
use crate::head::{Headed, judge_head};
use crate::standing::Standing;
use crate::verdict::{BreachKind, Judged, RightReport, Verdict};
use fact_store::Facts;
use learning::Knowledge;
use legal_report::line_of;
use report_reader::read_report;
use report_text::ReportFault;
use std::alloc::{AllocError, Global};
use task_model::Task;
use transcript_model::Report;

/// What is said of a report, with what is kept of its entries where it is right.
#[derive(Drop)]
pub(crate) enum Ended {
    /// It is right, and its entries come to this.
    Valid(Box<Standing>),
    /// This line is wrong, from 1.
    Invalid(u32, BreachKind),
    /// A claim of it can't be decided.
    Limit,
}

/// That this line is wrong.
fn invalid(line: usize, kind: BreachKind) -> Ended
    requires { line < 2 ^ 32 }
    ensures { result ≡ Invalid line kind }
{
    Ended::Invalid(line as u32, kind)
}

/// That the line so many behind this one is wrong.
fn invalid_behind(first: usize, line: usize, kind: BreachKind) -> Ended
    requires { first + line < 2 ^ 31 }
    ensures { result ≡ Invalid (first + line) kind }
{
    invalid(first + line, kind)
}

/// Judges the outcome of a report of which nothing else is wrong.
fn judge_end(
    bounds: &Bounds<'_>,
    report: &Report,
    standing: Box<Standing>,
) -> Result<Ended, AllocError>
    requires bounds { AreBounds bounds.now }
    requires head { IsFitReportHead bounds.now.task.now report.now }
    requires limits { reported_limits bounds.now.task.now report.now ≡ limits_by bounds.now }
    requires lines { length (lines_of_report report.now) < 2 ^ 31 }
    requires standing { IsStanding bounds.now report.now.entries standing.value }
    ensures { IfOk result (IsEnded bounds.now.limit bounds.now.task.now report.now) }
{
    let entries = report.entries.as_slice();
    let first = line_of(report, report.entries.len());
    match standing.judge_outcome(bounds, entries, &report.outcome)? {
        Finding::Holds => Ok(Ended::Valid(standing)),
        Finding::Open => Ok(Ended::Limit),
        Finding::Breaks(line, kind) => Ok(invalid_behind(first, line, kind)),
    }
}

/// Judges the transcript and the outcome of a report whose head fits.
fn judge_rest(bounds: &Bounds<'_>, report: &Report) -> Result<Ended, AllocError>
    requires bounds { AreBounds bounds.now }
    requires head { IsFitReportHead bounds.now.task.now report.now }
    requires limits { reported_limits bounds.now.task.now report.now ≡ limits_by bounds.now }
    requires formed { IsFormed report.now }
    requires lines { length (lines_of_report report.now) < 2 ^ 31 }
    ensures { IfOk result (IsEnded bounds.now.limit bounds.now.task.now report.now) }
{
    let entries = report.entries.as_slice();
    let mut standing = Box::new(bounds.alloc, Standing::new(bounds)?)?;
    match walk(bounds, &mut standing, entries)? {
        Walked::Ends => judge_end(bounds, report, standing),
        Walked::Open(_) => Ok(Ended::Limit),
        Walked::Breaks(place, line, kind) => {
            Ok(invalid_behind(line_of(report, place), line, kind))
        }
    }
}

/// Judges a report.
fn judge(alloc: Global, task: &Task, report: &Report, limit: u32) -> Result<Ended, AllocError>
    requires fit { IsFit task.now }
    requires formed { IsFormed report.now }
    requires lines { length (lines_of_report report.now) < 2 ^ 31 }
    requires some { 1 ≤ limit }
    requires few { limit ≤ MOST_STATES }
    ensures { IfOk result (IsEnded limit task.now report.now) }
{
    let pools = match judge_head(alloc, task, report)? {
        Headed::Fits(pools) => pools,
        Headed::Breaks(line) => return Ok(invalid(line, BreachKind::Head)),
    };
    let bounds = Bounds {
        alloc,
        task,
        version: report.version,
        mode: report.mode,
        calls: report.calls,
        states: report.states,
        depth: report.depth,
        pools: pools.as_slice(),
        limit,
    };
    judge_rest(&bounds, report)
}

/// What is known of the entries that come to this.
fn facts_of(standing: Box<Standing>) -> Facts
    ensures { result ≡ standing.value.knowledge.facts }
{
    let Standing { knowledge, .. } = Box::into_inner(standing);
    let Knowledge { facts, .. } = knowledge;
    facts
}

/// What is said of the text of a report of which this is said.
fn judged(report: Box<Report>, ended: Ended) -> Judged
    ensures verdict { (limit : ℕ) (task : AnyTask) → IsEnded limit task report.value ended
        → IsReportVerdict limit task report.value (verdict_of result) }
    ensures right { (limit : ℕ) (task : AnyTask) (bytes : List ℕ) → IsFormed report.value
        → text_of_report report.value ≡ bytes → IsEnded limit task report.value ended
        → IsRightOf task bytes result }
{
    match ended {
        Ended::Valid(standing) => Judged::Valid(RightReport {
            report: Box::into_inner(report),
            facts: facts_of(standing),
        }),
        Ended::Invalid(line, kind) => Judged::Invalid { line, kind },
        Ended::Limit => Judged::Limit,
    }
}

/// Judges the text of a report by the task, searching at most `limit` states, from 1 to 200,000;
/// the text has fewer than 2^31 bytes. Where it is right, the report and what its answers certify
/// are handed over.
///
/// `Valid` comes exactly where the text is a report of the stated forms whose head fits the task,
/// whose transcript is legal and made of whole turns of its mode, and whose outcome may stand there
/// and is true, and where no claim is undecided. `Invalid` has the first line that is wrong and the
/// smallest kind of what is wrong with it; that the text isn't of the form is told before all else.
/// `Limit` comes exactly where a claim, of the outcome or that there is no dream, can't be decided
/// within the limit, and nothing is wrong before it. Fails only where memory is wanting.
pub fn replay_whole(
    alloc: Global,
    task: &Task,
    bytes: &[u8],
    limit: u32,
) -> Result<Judged, AllocError>
    requires fit { IsFit task.now }
    requires some { 1 ≤ limit }
    requires few { limit ≤ MOST_STATES }
    requires bytes { length bytes.now < 2 ^ 31 }
    ensures verdict { IfOk result (λ said. IsVerdict limit task.now bytes.now (verdict_of said)) }
    ensures right { IfOk result (IsRightOf task.now bytes.now) }
{
    match read_report(alloc, bytes) {
        Ok(read) => {
            let report = Box::new(alloc, read)?;
            let ended = judge(alloc, task, &report, limit)?;
            Ok(judged(report, ended))
        }
        Err(ReportFault::At { line, .. }) => Ok(Judged::Invalid {
            line,
            kind: BreachKind::Text,
        }),
        Err(ReportFault::Memory) => Err(AllocError),
    }
}

/// What `replay_whole` says, without the report. Fails only where memory is wanting.
pub fn replay(alloc: Global, task: &Task, bytes: &[u8], limit: u32) -> Result<Verdict, AllocError>
    requires fit { IsFit task.now }
    requires some { 1 ≤ limit }
    requires few { limit ≤ MOST_STATES }
    requires bytes { length bytes.now < 2 ^ 31 }
    ensures { IfOk result (IsVerdict limit task.now bytes.now) }
{
    let judged = Box::new(alloc, replay_whole(alloc, task, bytes, limit)?)?;
    Ok(judged.verdict())
}
