//! The words of `play DOMAIN PROBLEM STREAMS REPORT GRID [--states N]`.
ghost use Rattle.std.specs.Prelude.{◌≡◌, IfOk, IfErr, None, Some, map, string_bytes};
ghost use Rattle.clap.specs.Words.{app_of, found_of, rows_of};
ghost use Rattle.command_line.specs.Apps.{play_app};
ghost use Rattle.command_line.specs.Held.{held_play};
ghost use Rattle.command_line.specs.Shown.{lent_play, shown_play};
ghost use Rattle.command_line.specs.Words.{play_in, play_of};

use crate::line::{matches_of_words, option, positional, text_in};
use crate::number::{DEFAULT_STATES, count_in};
use crate::task::{TaskFiles, files_in, task_command};
use crate::{PlayConfig, WordsFault};
use clap::{ArgMatches, Command};
use std::alloc::{AllocError, Global};
use task_model::MOST_STATES;

/// What the words of `play` say, as they stand.
#[derive(Clone, Copy)]
struct PlayWords<'a> {
    files: TaskFiles<'a>,
    report: &'a str,
    grid: &'a str,
    states: u32,
}

fn play_command<'a>(alloc: Global) -> Result<Command<'a>, AllocError>
    ensures { IfOk result (λ c. app_of c ≡ play_app) }
{
    task_command(alloc, "play")?
        .arg(positional(alloc, "report"))?
        .arg(positional(alloc, "grid"))?
        .arg(option(alloc, "states"))
}

fn play_in<'a>(matches: &ArgMatches<'a>) -> Option<PlayWords<'a>>
    ensures { shown_play result ≡ play_in (rows_of (found_of matches.now)) }
{
    let files = files_in(matches)?;
    let report = text_in(matches, "report")?;
    let grid = text_in(matches, "grid")?;
    let states = count_in(matches, "states", MOST_STATES, DEFAULT_STATES)?;
    Some(PlayWords {
        files,
        report,
        grid,
        states,
    })
}

fn play_held(alloc: Global, words: PlayWords<'_>) -> Result<PlayConfig, AllocError>
    ensures { IfOk result (λ c. held_play c ≡ lent_play words.entry) }
{
    Ok(PlayConfig {
        domain: String::from_str(alloc, words.files.domain)?,
        problem: String::from_str(alloc, words.files.problem)?,
        streams: String::from_str(alloc, words.files.streams)?,
        report: String::from_str(alloc, words.report)?,
        grid: String::from_str(alloc, words.grid)?,
        states: words.states,
    })
}

/// What words ask for of which the first is `play`.
pub(crate) fn play(alloc: Global, words: &[String]) -> Result<PlayConfig, WordsFault>
    ensures config { IfOk result (λ c.
        play_of (map string_bytes words.now) ≡ Some (held_play c)) }
    ensures usage { IfErr result (λ why. why ≡ WordsFault.Usage
        → play_of (map string_bytes words.now) ≡ None) }
{
    let command = play_command(alloc)?;
    let matches = matches_of_words(command, words)?;
    let Some(read) = play_in(&matches) else {
        return Err(WordsFault::Usage);
    };
    Ok(play_held(alloc, read)?)
}
