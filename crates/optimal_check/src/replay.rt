//! Reports, replayed, with the cost of the plan.
ghost use Rattle.std.specs.Prelude.{◌≡◌, ◌+◌, ◌<◌, ◌≤◌, ◌^◌, IfOk, length};
ghost use Rattle.optimal_check.specs.Verdicts.{IsCostSaid, IsCostVerdict, IsOutcomeSaid, ShowsRightPlan};
ghost use Rattle.replay_check.specs.Lines.{outcome_line};
ghost use Rattle.replay_check.specs.Verdicts.{IsRightReport};
ghost use Rattle.report_text.specs.Texts.{lines_of_report};
ghost use Rattle.task_model.specs.Fit.{IsFit};
ghost use Rattle.task_model.specs.declared.limits.TheConstants.{MOST_STATES};
ghost use Rattle.transcript_model.specs.Transcript.{known_of};

use crate::least::cheapest_known;
use best_first::Found;
use legal_report::lines_of;
use replay_check::{BreachKind, Judged, RightReport, Verdict, replay_whole};
use std::alloc::{AllocError, Global};
use task_model::Task;
use transcript_model::{Call, Outcome, Report};

/// The line of the cost of a plan of so many steps, from 1.
fn cost_line(report: &Report, steps: usize) -> u32
    requires lines { length (lines_of_report report.now) < 2 ^ 31 }
    requires steps { steps < 2 ^ 31 }
    ensures { result ≡ outcome_line report.now + steps + 1 }
{
    let outcome = report.pools.len() + 3 + lines_of(report.entries.as_slice());
    (outcome + steps + 1) as u32
}

/// What is said of the cost of the plan of these steps that the report shows.
fn judge_cost(
    alloc: Global,
    task: &Task,
    right: &RightReport,
    steps: &[Call],
    cost: u64,
    limit: u32,
) -> Result<Verdict, AllocError>
    requires fit { IsFit task.now }
    requires some { 1 ≤ limit }
    requires few { limit ≤ MOST_STATES }
    requires shown { ShowsRightPlan task.now right.now steps.now cost }
    ensures { IfOk result (IsCostSaid limit task.now right.now.report steps.now cost) }
{
    match cheapest_known(alloc, task, &right.facts, limit)? {
        Found::Plan(_, least) => {
            if least < cost {
                let line = cost_line(&right.report, steps.len());
                let kind = BreachKind::Cost;
                Ok(Verdict::Invalid { line, kind })
            } else {
                Ok(Verdict::Valid)
            }
        }
        Found::Nothing => unreachable!(),
        Found::Limit => Ok(Verdict::Limit),
    }
}

/// What is said of the cost of a right report's plan, if it shows one.
fn judge_right(
    alloc: Global,
    task: &Task,
    right: &RightReport,
    limit: u32,
) -> Result<Verdict, AllocError>
    requires fit { IsFit task.now }
    requires some { 1 ≤ limit }
    requires few { limit ≤ MOST_STATES }
    requires right { IsRightReport task.now right.now.report }
    requires known { right.now.facts.known ≡ known_of task.now right.now.report.entries }
    requires lines { length (lines_of_report right.now.report) < 2 ^ 31 }
    ensures { IfOk result (IsOutcomeSaid limit task.now right.now.report right.now.report.outcome) }
{
    match &right.report.outcome {
        Outcome::Plan { steps, cost, .. } => {
            judge_cost(alloc, task, right, steps.as_slice(), *cost, limit)
        }
        Outcome::NoPlan | Outcome::Limit(_) => Ok(Verdict::Valid),
    }
}

/// Judges the text of a report by the task as `replay` does, and where that says `Valid` of a plan,
/// whether a plan over what the report's answers certify costs less. At most `limit` states are
/// searched, from 1 to 200,000, and the text has fewer than 2^31 bytes.
///
/// What `replay` says comes first: where it says something other than `Valid`, that is said here too.
/// Of a right report that shows a plan `Valid` comes only where no valid plan costs less; `Invalid`
/// only where one does, with the line of the cost and the kind `Cost`; and `Limit` only where more
/// than `limit` states are reached. Every other right report is `Valid`. Fails only where memory is
/// wanting.
pub fn replay_optimal(
    alloc: Global,
    task: &Task,
    bytes: &[u8],
    limit: u32,
) -> Result<Verdict, AllocError>
    requires fit { IsFit task.now }
    requires some { 1 ≤ limit }
    requires few { limit ≤ MOST_STATES }
    requires bytes { length bytes.now < 2 ^ 31 }
    ensures { IfOk result (IsCostVerdict limit task.now bytes.now) }
{
    match replay_whole(alloc, task, bytes, limit)? {
        Judged::Valid(right) => judge_right(alloc, task, &right, limit),
        Judged::Invalid { line, kind } => Ok(Verdict::Invalid { line, kind }),
        Judged::Limit => Ok(Verdict::Limit),
    }
}
