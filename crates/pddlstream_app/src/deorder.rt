//! What `deorder` answers.
ghost use Rattle.std.specs.Prelude.{◌≡◌, ◌<◌, ◌≤◌, ◌^◌, ℕ, length, IfOk};
ghost use Rattle.command_line.specs.Held.{held_replay};
ghost use Rattle.command_line.specs.Ranges.{IsFromOne};
ghost use Rattle.command_line.specs.Words.{deorder as to_deorder};
ghost use Rattle.pddlstream_app.specs.Answering.{IsMade};
ghost use Rattle.command_files.specs.Outside.{seen_of};
ghost use Rattle.pddlstream_app.specs.Plans.{SaysOfReport, SaysOrder, SaysOrderOf};
ghost use Rattle.replay_check.specs.Verdicts.{IsRightReport};
ghost use Rattle.shown_steps.specs.Plans.{IsPlan};
ghost use Rattle.task_model.specs.Fit.{IsFit};
ghost use Rattle.task_model.specs.declared.limits.TheConstants.{MOST_STATES};
ghost use Rattle.transcript_model.specs.Transcript.{known_of};

use crate::replay::{paths_of, said_of};
use crate::said::Said;
use command_files::{Status, Stop, read_reported};
use command_line::ReplayConfig;
use fact_store::Facts;
use io_world::Files;
use order_text::order_text;
use plan_deorder::{OrderFault, deorder};
use replay_check::{Judged, RightReport, Verdict, plan_of, replay_whole};
use std::alloc::{AllocError, Global};
use task_model::Task;
use transcript_model::{Call, Outcome};
use turn_run::RunFault;

/// Tells the order of a plan, or that it has too many steps. Fails only where memory is wanting.
fn order_said(alloc: Global, task: &Task, facts: &Facts, calls: &[Call]) -> Result<Said, AllocError>
    requires fit { IsFit task.now }
    requires plan { (cost : ℕ) × IsPlan task.now facts.now.known calls.now cost }
    ensures { IfOk result (λ said.
        SaysOrderOf task.now facts.now.known calls.now said.status said.text.items) }
{
    let plan = plan_of(alloc, task, facts, calls)?;
    match deorder(alloc, task, facts, &plan) {
        Ok(order) => {
            let text = order_text(alloc, calls, &order)?;
            Ok(Said {
                status: Status::Done,
                text,
            })
        }
        Err(OrderFault::TooLong) => Said::new(alloc, Status::Limit, b"order too-long\n"),
        Err(OrderFault::Memory) => Err(AllocError),
    }
}

/// What is said of a right report. Fails only where memory is wanting.
fn right_said(alloc: Global, task: &Task, right: &RightReport) -> Result<Said, AllocError>
    requires fit { IsFit task.now }
    requires right { IsRightReport task.now right.now.report }
    requires known { right.now.facts.known ≡ known_of task.now right.now.report.entries }
    ensures { IfOk result (λ said.
        SaysOrder task.now right.now.report said.status said.text.items) }
{
    match &right.report.outcome {
        Outcome::Plan { steps, .. } => order_said(alloc, task, &right.facts, steps.as_slice()),
        Outcome::NoPlan => Said::new(alloc, Status::Done, b"order none\n"),
        Outcome::Limit(_) => Said::new(alloc, Status::Done, b"order none\n"),
    }
}

/// What is said of the bytes of a report. Fails only where memory is wanting.
fn deordered(alloc: Global, task: &Task, bytes: &[u8], states: u32) -> Result<Said, AllocError>
    requires fit { IsFit task.now }
    requires some { 1 ≤ states }
    requires few { states ≤ MOST_STATES }
    requires bytes { length bytes.now < 2 ^ 31 }
    ensures { IfOk result (λ said. SaysOfReport states task.now bytes.now (SaysOrder task.now)
        said.status said.text.items) }
{
    let judged = replay_whole(alloc, task, bytes, states)?;
    match judged {
        Judged::Valid(right) => right_said(alloc, task, &right),
        Judged::Invalid { line, kind } => said_of(alloc, Verdict::Invalid { line, kind }),
        Judged::Limit => said_of(alloc, Verdict::Limit),
    }
}

/// Reads the files, and tells what must stay in order of the report's plan.
pub(crate) fn deorder_answer<F: Files>(
    alloc: Global,
    words: &ReplayConfig,
    files: &mut F,
) -> Result<Said, Stop>
    requires within { IsFromOne MOST_STATES words.now.states }
    ensures made { IsMade (to_deorder (held_replay words.now))
        (seen_of F.told F.faults F.asked files.old files.new) result }
{
    let paths = paths_of(words);
    let read = read_reported(alloc, files, &paths, words.report.as_str())?;
    match deordered(alloc, &read.task, read.bytes.as_slice(), words.states) {
        Ok(said) => Ok(said),
        Err(_) => Err(Stop::Run(RunFault::Memory)),
    }
}
