//! The cheapest plan over what a report certifies.
ghost use Rattle.std.specs.Prelude.{◌<◌, ◌≤◌, ◌^◌, IfOk, length};
ghost use Rattle.legal_report.specs.Transcripts.{IsSoundTranscript};
ghost use Rattle.optimal_check.specs.Least.{IsLeastFound};
ghost use Rattle.report_text.specs.Forms.{IsFormed};
ghost use Rattle.report_text.specs.Texts.{lines_of_report};
ghost use Rattle.task_model.specs.Fit.{IsFit};
ghost use Rattle.task_model.specs.declared.limits.TheConstants.{MOST_STATES};
ghost use Rattle.transcript_model.specs.Transcript.{known_of};

use best_first::Found;
use fact_store::Facts;
use legal_report::{Certified, certify_report};
use optimal_search::{Shares, cheapest};
use std::alloc::{AllocError, Global};
use task_model::Task;
use transcript_model::Report;

/// Looks for a plan of least cost over what is known.
pub(crate) fn cheapest_known(
    alloc: Global,
    task: &Task,
    facts: &Facts,
    limit: u32,
) -> Result<Found, AllocError>
    requires fit { IsFit task.now }
    requires some { 1 ≤ limit }
    requires few { limit ≤ MOST_STATES }
    ensures { IfOk result (IsLeastFound task.now facts.now.known limit) }
{
    let mut estimate = Shares::new(alloc, task, facts)?;
    cheapest(alloc, task, facts, limit, &mut estimate)
}

/// Looks for a plan of least cost over what the answers of the report certify, among the states that
/// are reached then, at most `limit` of them, from 1 to 200,000.
///
/// The report is of the stated forms and has fewer than 2^31 lines, and its transcript is legal and
/// has at most 100,000 requests; nothing else that it says matters. No valid plan costs less than one
/// that is answered. `Nothing` comes exactly where there is no valid plan and at most `limit` states
/// are reached, and `Limit` only where more are. Fails only where memory is wanting.
pub fn least_cost(
    alloc: Global,
    task: &Task,
    report: &Report,
    limit: u32,
) -> Result<Found, AllocError>
    requires fit { IsFit task.now }
    requires formed { IsFormed report.now }
    requires lines { length (lines_of_report report.now) < 2 ^ 31 }
    requires sound { IsSoundTranscript report.now.version task.now report.now.entries }
    requires some { 1 ≤ limit }
    requires few { limit ≤ MOST_STATES }
    ensures { IfOk result (IsLeastFound task.now (known_of task.now report.now.entries) limit) }
{
    match certify_report(alloc, task, report)? {
        Certified::Legal(knowledge) => cheapest_known(alloc, task, &knowledge.facts, limit),
        Certified::Flawed(_, _) => unreachable!(),
    }
}
