//! What `replay` answers.
ghost use Rattle.std.specs.Prelude.{◌≡◌, ◌<◌, ◌≤◌, ◌^◌, ◌++◌, length, codes, IfOk};
ghost use Rattle.std.specs.Fmt.{decimal};
ghost use Rattle.pddlstream_app.specs.AnswerOf.{IsVerdictFor, SaysVerdict};
ghost use Rattle.pddlstream_app.specs.Answering.{IsMade};
ghost use Rattle.command_files.specs.Outside.{seen_of};
ghost use Rattle.command_files.specs.Paths.{held_files};
ghost use Rattle.pddlstream_app.specs.Replays.{kind_of_verdict, verdict_text};
ghost use Rattle.command_line.specs.Held.{held_replay};
ghost use Rattle.command_line.specs.Ranges.{IsFromOne};
ghost use Rattle.command_line.specs.Words.{replay as to_replay};
ghost use Rattle.task_model.specs.Fit.{IsFit};
ghost use Rattle.task_model.specs.declared.limits.TheConstants.{MOST_STATES};
ghost use Rattle.replay_check.specs.Kinds.{breach_number};

use crate::said::Said;
use command_files::{Status, Stop, TaskPaths, read_reported};
use command_line::ReplayConfig;
use io_world::Files;
use optimal_check::replay_optimal;
use replay_check::{BreachKind, Verdict, replay};
use std::alloc::{AllocError, Global};
use task_model::Task;
use turn_run::RunFault;

/// How a run ends that says this.
fn status_of(verdict: Verdict) -> Status
    ensures { result ≡ kind_of_verdict verdict }
{
    match verdict {
        Verdict::Valid => Status::Done,
        Verdict::Invalid { .. } => Status::Invalid,
        Verdict::Limit => Status::Limit,
    }
}

/// The line for a breach.
fn breach_line(alloc: Global, line: u32, kind: BreachKind) -> Result<Vec<u8>, AllocError>
    ensures { IfOk result (λ text. text.items ≡ codes "invalid " ++ decimal line ++ codes " "
        ++ decimal (breach_number kind) ++ codes "\n") }
{
    let kind = kind.number();
    let text = format!(in alloc; "invalid {line} {kind}\n")?;
    Ok(text.into_bytes())
}

/// The line for a verdict. Fails only where memory is wanting.
fn verdict_line(alloc: Global, verdict: Verdict) -> Result<Vec<u8>, AllocError>
    ensures { IfOk result (λ text. text.items ≡ verdict_text verdict) }
{
    match verdict {
        Verdict::Valid => Vec::from_slice(alloc, b"valid\n"),
        Verdict::Invalid { line, kind } => breach_line(alloc, line, kind),
        Verdict::Limit => Vec::from_slice(alloc, b"limit states\n"),
    }
}

/// What is said of a report by its verdict. Fails only where memory is wanting.
pub(crate) fn said_of(alloc: Global, verdict: Verdict) -> Result<Said, AllocError>
    ensures { IfOk result (λ said. (kind_of_verdict verdict ≡ said.status)
        × (said.text.items ≡ verdict_text verdict)) }
{
    Ok(Said {
        status: status_of(verdict),
        text: verdict_line(alloc, verdict)?,
    })
}

/// What is said of the bytes of a report, of the plan's cost too where that is asked for. Fails only
/// where memory is wanting.
fn judge(
    alloc: Global,
    task: &Task,
    bytes: &[u8],
    states: u32,
    optimal: bool,
) -> Result<Verdict, AllocError>
    requires fit { IsFit task.now }
    requires some { 1 ≤ states }
    requires few { states ≤ MOST_STATES }
    requires bytes { length bytes.now < 2 ^ 31 }
    ensures { IfOk result (IsVerdictFor optimal states task.now bytes.now) }
{
    if optimal {
        replay_optimal(alloc, task, bytes, states)
    } else {
        replay(alloc, task, bytes, states)
    }
}

/// Judges the bytes of a report. Fails only where memory is wanting.
fn judged(
    alloc: Global,
    task: &Task,
    bytes: &[u8],
    states: u32,
    optimal: bool,
) -> Result<Said, AllocError>
    requires fit { IsFit task.now }
    requires some { 1 ≤ states }
    requires few { states ≤ MOST_STATES }
    requires bytes { length bytes.now < 2 ^ 31 }
    ensures { IfOk result (λ said.
        SaysVerdict (IsVerdictFor optimal states task.now bytes.now) said.status said.text.items) }
{
    let verdict = judge(alloc, task, bytes, states, optimal)?;
    said_of(alloc, verdict)
}

/// The paths of the task's texts.
pub(crate) fn paths_of(words: &ReplayConfig) -> TaskPaths<'_>
    ensures { held_files result ≡ (held_replay words.now).files }
{
    TaskPaths {
        domain: words.domain.as_str(),
        problem: words.problem.as_str(),
        streams: words.streams.as_str(),
    }
}

/// Reads the files, and judges the report.
pub(crate) fn replay_answer<F: Files>(
    alloc: Global,
    words: &ReplayConfig,
    files: &mut F,
) -> Result<Said, Stop>
    requires within { IsFromOne MOST_STATES words.now.states }
    ensures made { IsMade (to_replay (held_replay words.now))
        (seen_of F.told F.faults F.asked files.old files.new) result }
{
    let paths = paths_of(words);
    let read = read_reported(alloc, files, &paths, words.report.as_str())?;
    let bytes = read.bytes.as_slice();
    match judged(alloc, &read.task, bytes, words.states, words.optimal) {
        Ok(said) => Ok(said),
        Err(_) => Err(Stop::Run(RunFault::Memory)),
    }
}
