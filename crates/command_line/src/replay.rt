//! The words of `replay DOMAIN PROBLEM STREAMS REPORT [--states N] [--optimal]`, and of `deorder`.
ghost use Rattle.std.specs.Prelude.{◌≡◌, IfOk, IfErr, None, Some, map, string_bytes};
ghost use Rattle.clap.specs.Words.{app_of, found_of, rows_of};
ghost use Rattle.command_line.specs.Apps.{deorder_app, replay_app, report_app};
ghost use Rattle.command_line.specs.Held.{held_replay};
ghost use Rattle.command_line.specs.Shown.{lent_replay, shown_replay};
ghost use Rattle.command_line.specs.Words.{deorder_of, replay_of, report_in};

use crate::line::{flag, matches_of_words, option, positional, set_in, text_in};
use crate::number::{DEFAULT_STATES, count_in};
use crate::task::{TaskFiles, files_in, task_command};
use crate::{ReplayConfig, WordsFault};
use clap::{ArgMatches, Command};
use std::alloc::{AllocError, Global};
use task_model::MOST_STATES;

/// What the words of `replay` or `deorder` say, as they stand.
#[derive(Clone, Copy)]
struct ReplayWords<'a> {
    files: TaskFiles<'a>,
    report: &'a str,
    states: u32,
    optimal: bool,
}

fn report_command<'a>(alloc: Global, name: &'static str) -> Result<Command<'a>, AllocError>
    ensures { IfOk result (λ c. app_of c ≡ report_app name.entry.now) }
{
    task_command(alloc, name)?
        .arg(positional(alloc, "report"))?
        .arg(option(alloc, "states"))
}

fn replay_command<'a>(alloc: Global) -> Result<Command<'a>, AllocError>
    ensures { IfOk result (λ c. app_of c ≡ replay_app) }
{
    report_command(alloc, "replay")?.arg(flag(alloc, "optimal"))
}

fn deorder_command<'a>(alloc: Global) -> Result<Command<'a>, AllocError>
    ensures { IfOk result (λ c. app_of c ≡ deorder_app) }
{
    report_command(alloc, "deorder")
}

fn report_in<'a>(matches: &ArgMatches<'a>, optimal: bool) -> Option<ReplayWords<'a>>
    ensures { shown_replay result ≡ report_in optimal (rows_of (found_of matches.now)) }
{
    let files = files_in(matches)?;
    let report = text_in(matches, "report")?;
    let states = count_in(matches, "states", MOST_STATES, DEFAULT_STATES)?;
    Some(ReplayWords {
        files,
        report,
        states,
        optimal,
    })
}

fn replay_held(alloc: Global, words: ReplayWords<'_>) -> Result<ReplayConfig, AllocError>
    ensures { IfOk result (λ c. held_replay c ≡ lent_replay words.entry) }
{
    Ok(ReplayConfig {
        domain: String::from_str(alloc, words.files.domain)?,
        problem: String::from_str(alloc, words.files.problem)?,
        streams: String::from_str(alloc, words.files.streams)?,
        report: String::from_str(alloc, words.report)?,
        states: words.states,
        optimal: words.optimal,
    })
}

/// What words ask for of which the first is `replay`.
pub(crate) fn replay(alloc: Global, words: &[String]) -> Result<ReplayConfig, WordsFault>
    ensures config { IfOk result (λ c.
        replay_of (map string_bytes words.now) ≡ Some (held_replay c)) }
    ensures usage { IfErr result (λ why. why ≡ WordsFault.Usage
        → replay_of (map string_bytes words.now) ≡ None) }
{
    let command = replay_command(alloc)?;
    let matches = matches_of_words(command, words)?;
    let Some(read) = report_in(&matches, set_in(&matches, "optimal")) else {
        return Err(WordsFault::Usage);
    };
    Ok(replay_held(alloc, read)?)
}

/// What words ask for of which the first is `deorder`.
pub(crate) fn deorder(alloc: Global, words: &[String]) -> Result<ReplayConfig, WordsFault>
    ensures config { IfOk result (λ c.
        deorder_of (map string_bytes words.now) ≡ Some (held_replay c)) }
    ensures usage { IfErr result (λ why. why ≡ WordsFault.Usage
        → deorder_of (map string_bytes words.now) ≡ None) }
{
    let command = deorder_command(alloc)?;
    let matches = matches_of_words(command, words)?;
    let Some(read) = report_in(&matches, false) else {
        return Err(WordsFault::Usage);
    };
    Ok(replay_held(alloc, read)?)
}
