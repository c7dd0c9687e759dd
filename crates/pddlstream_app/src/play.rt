//! What `play` answers.
ghost use Rattle.std.specs.Prelude.{◌≡◌, ◌<◌, ◌≤◌, ◌^◌, length, IfOk};
ghost use Rattle.command_line.specs.Held.{held_play};
ghost use Rattle.command_line.specs.Ranges.{IsFromOne};
ghost use Rattle.command_line.specs.Words.{play as to_play};
ghost use Rattle.pddlstream_app.specs.Answering.{IsMade};
ghost use Rattle.command_files.specs.Outside.{seen_of};
ghost use Rattle.command_files.specs.Paths.{held_files};
ghost use Rattle.pddlstream_app.specs.Plans.{SaysOfReport, SaysPlay, SaysPlayOf, play_status};
ghost use Rattle.report_text.specs.Texts.{lines_of_report};
ghost use Rattle.task_model.specs.Fit.{IsFit};
ghost use Rattle.task_model.specs.declared.limits.TheConstants.{MOST_STATES};

use crate::replay::said_of;
use crate::said::Said;
use command_files::{Status, Stop, TaskPaths, read_grid_file, read_reported};
use command_line::PlayConfig;
use grid_play::{PlayVerdict, act, play_text};
use grid_text::Grid;
use io_world::Files;
use replay_check::{Judged, Verdict, replay_whole};
use std::alloc::{AllocError, Global};
use task_model::Task;
use transcript_model::{Call, Outcome, Report};
use turn_run::RunFault;

/// How a run ends that tells this.
fn status_of(verdict: &PlayVerdict) -> Status
    ensures { result ≡ play_status verdict.now }
{
    match verdict {
        PlayVerdict::Safe => Status::Done,
        PlayVerdict::Strange { .. }
        | PlayVerdict::Outside { .. }
        | PlayVerdict::Obstacle { .. }
        | PlayVerdict::Clash { .. } => Status::Invalid,
    }
}

/// Acts the steps out on the grid, and tells what came of them. Fails only where memory is wanting.
fn play_said(alloc: Global, grid: &Grid, calls: &[Call]) -> Result<Said, AllocError>
    requires { length calls.now < 2 ^ 32 }
    ensures { IfOk result (λ said. SaysPlayOf grid.now calls.now said.status said.text.items) }
{
    let play = act(alloc, grid, calls)?;
    let text = play_text(alloc, &play)?;
    Ok(Said {
        status: status_of(&play.verdict),
        text,
    })
}

/// What is said of a right report. Fails only where memory is wanting.
fn right_said(alloc: Global, grid: &Grid, report: &Report) -> Result<Said, AllocError>
    requires { length (lines_of_report report.now) < 2 ^ 31 }
    ensures { IfOk result (λ said. SaysPlay grid.now report.now said.status said.text.items) }
{
    match &report.outcome {
        Outcome::Plan { steps, .. } => play_said(alloc, grid, steps.as_slice()),
        Outcome::NoPlan => Said::new(alloc, Status::Done, b"play none\n"),
        Outcome::Limit(_) => Said::new(alloc, Status::Done, b"play none\n"),
    }
}

/// What is said of the bytes of a report. Fails only where memory is wanting.
fn played(
    alloc: Global,
    task: &Task,
    bytes: &[u8],
    grid: &Grid,
    states: u32,
) -> Result<Said, AllocError>
    requires fit { IsFit task.now }
    requires some { 1 ≤ states }
    requires few { states ≤ MOST_STATES }
    requires bytes { length bytes.now < 2 ^ 31 }
    ensures { IfOk result (λ said. SaysOfReport states task.now bytes.now (SaysPlay grid.now)
        said.status said.text.items) }
{
    let judged = replay_whole(alloc, task, bytes, states)?;
    match judged {
        Judged::Valid(right) => right_said(alloc, grid, &right.report),
        Judged::Invalid { line, kind } => said_of(alloc, Verdict::Invalid { line, kind }),
        Judged::Limit => said_of(alloc, Verdict::Limit),
    }
}

/// The paths of the task's texts.
fn paths_of(words: &PlayConfig) -> TaskPaths<'_>
    ensures { held_files result ≡ (held_play words.now).files }
{
    TaskPaths {
        domain: words.domain.as_str(),
        problem: words.problem.as_str(),
        streams: words.streams.as_str(),
    }
}

/// Reads the files, and acts the report's plan out on the grid.
pub(crate) fn play_answer<F: Files>(
    alloc: Global,
    words: &PlayConfig,
    files: &mut F,
) -> Result<Said, Stop>
    requires within { IsFromOne MOST_STATES words.now.states }
    ensures made { IsMade (to_play (held_play words.now))
        (seen_of F.told F.faults F.asked files.old files.new) result }
{
    let paths = paths_of(words);
    let read = read_reported(alloc, files, &paths, words.report.as_str())?;
    let drawn = read_grid_file(alloc, files, words.grid.as_str())?;
    match played(
        alloc,
        &read.task,
        read.bytes.as_slice(),
        &drawn.grid,
        words.states,
    ) {
        Ok(said) => Ok(said),
        Err(_) => Err(Stop::Run(RunFault::Memory)),
    }
}
