//! The words of `solve DOMAIN PROBLEM STREAMS [OPTIONS] [-- PROGRAM WORDS]`.
ghost use Rattle.std.specs.Prelude.{◌≡◌, IfOk, IfErr, None, Some, map, option_map, string_bytes};
ghost use Rattle.clap.specs.Words.{app_of, found_of, rows_of};
ghost use Rattle.command_line.specs.Apps.{solve_app};
ghost use Rattle.command_line.specs.Held.{held_solve};
ghost use Rattle.command_line.specs.Shown.{lent_solve, shown_limits, shown_program, shown_solve};
ghost use Rattle.command_line.specs.Words.{are_apart, goes_with, limits_in, mode_or, solve_in, solve_of};

use crate::line::{flag, matches_of_words, option, set_in, text_in, trailing, words_in};
use crate::number::{
    DEFAULT_CALLS, DEFAULT_DEPTH, DEFAULT_STATES, LATEST_PROTOCOL, MOST_RESTARTS, count_in,
    number_in,
};
use crate::task::{TaskFiles, files_in, task_command};
use crate::{SolveConfig, WordsFault};
use clap::{ArgMatches, Command};
use std::alloc::{AllocError, Global};
use task_model::{MOST_STATES, Seq};
use transcript_model::{MOST_CALLS, MOST_DEPTH, Mode, WORKERS};

/// The limits of a run.
#[derive(Clone, Copy)]
struct Limits {
    calls: u32,
    states: u32,
    depth: u8,
}

/// What the words of `solve` say, as they stand.
#[derive(Clone, Copy)]
struct SolveWords<'m, 'a> {
    files: TaskFiles<'a>,
    map: Option<&'a str>,
    program: Option<&'m [&'a str]>,
    workers: u8,
    mode: Mode,
    limits: Limits,
    protocol: u8,
    optimal: bool,
    restarts: u32,
}

fn solve_command<'a>(alloc: Global) -> Result<Command<'a>, AllocError>
    ensures { IfOk result (λ c. app_of c ≡ solve_app) }
{
    task_command(alloc, "solve")?
        .arg(trailing(alloc, "program"))?
        .arg(option(alloc, "map"))?
        .arg(option(alloc, "algorithm"))?
        .arg(option(alloc, "calls"))?
        .arg(option(alloc, "states"))?
        .arg(option(alloc, "depth"))?
        .arg(option(alloc, "workers"))?
        .arg(option(alloc, "protocol"))?
        .arg(flag(alloc, "optimal"))?
        .arg(option(alloc, "restarts"))
}

/// The mode of this name, and incremental mode where the words name none.
fn mode_or(name: Option<&str>) -> Option<Mode>
    ensures { result ≡ mode_or (option_map (λ s. s.now) name.entry) }
{
    match name {
        None => Some(Mode::Incremental),
        Some(name) => if name == "incremental" {
            Some(Mode::Incremental)
        } else if name == "focused" {
            Some(Mode::Focused)
        } else if name == "binding" {
            Some(Mode::Binding)
        } else if name == "adaptive" {
            Some(Mode::Adaptive)
        } else {
            None
        },
    }
}

/// Neither a number of workers nor a program stands beside a map.
fn are_apart(path: Option<&str>, workers: Option<&str>, program: Option<&[&str]>) -> bool
    ensures { result ≡ are_apart (option_map (λ s. s.now) path.entry)
        (option_map (λ s. s.now) workers.entry) (shown_program program.entry) }
{
    if path.is_none() {
        return true;
    }
    if workers.is_some() {
        return false;
    }
    match program {
        None => true,
        Some(words) => words.is_empty(),
    }
}

/// The cheapest plan is asked for in incremental mode alone.
fn goes_with(mode: Mode, optimal: bool) -> bool
    ensures { result ≡ goes_with mode optimal }
{
    !optimal || matches!(mode, Mode::Incremental)
}

fn limits_in(matches: &ArgMatches<'_>) -> Option<Limits>
    ensures { shown_limits result ≡ limits_in (rows_of (found_of matches.now)) }
{
    let calls = count_in(matches, "calls", MOST_CALLS, DEFAULT_CALLS)?;
    let states = count_in(matches, "states", MOST_STATES, DEFAULT_STATES)?;
    let depth = count_in(matches, "depth", MOST_DEPTH as u32, DEFAULT_DEPTH)?;
    Some(Limits {
        calls,
        states,
        depth: depth as u8,
    })
}

fn solve_in<'m, 'a>(matches: &'m ArgMatches<'a>) -> Option<SolveWords<'m, 'a>>
    ensures { shown_solve result ≡ solve_in (rows_of (found_of matches.now)) }
{
    let files = files_in(matches)?;
    let mode = mode_or(text_in(matches, "algorithm"))?;
    let limits = limits_in(matches)?;
    let workers = count_in(matches, "workers", WORKERS as u32, 1)?;
    let protocol = count_in(matches, "protocol", LATEST_PROTOCOL, 1)?;
    let restarts = number_in(matches, "restarts", 0, MOST_RESTARTS, 0)?;
    let optimal = set_in(matches, "optimal");
    let map = text_in(matches, "map");
    let program = words_in(matches, "program");
    if are_apart(map, text_in(matches, "workers"), program) && goes_with(mode, optimal) {
        Some(SolveWords {
            files,
            map,
            program,
            workers: workers as u8,
            mode,
            limits,
            protocol: protocol as u8,
            optimal,
            restarts,
        })
    } else {
        None
    }
}

fn text_held(alloc: Global, text: Option<&str>) -> Result<Option<String>, AllocError>
    ensures { IfOk result (λ held.
        option_map string_bytes held ≡ option_map (λ s. s.now) text.entry) }
{
    match text {
        None => Ok(None),
        Some(text) => Ok(Some(String::from_str(alloc, text)?)),
    }
}

fn words_held(alloc: Global, words: Option<&[&str]>) -> Result<Seq<String>, AllocError>
    ensures { IfOk result (λ held. map string_bytes held ≡ shown_program words.entry) }
{
    let mut held = Vec::new(alloc);
    if let Some(words) = words {
        for word in words {
            held.push(String::from_str(alloc, word)?)?;
        }
    }
    Ok(Seq::from_vec(held))
}

fn solve_held(alloc: Global, words: SolveWords<'_, '_>) -> Result<SolveConfig, AllocError>
    ensures { IfOk result (λ c. held_solve c ≡ lent_solve words.entry) }
{
    Ok(SolveConfig {
        domain: String::from_str(alloc, words.files.domain)?,
        problem: String::from_str(alloc, words.files.problem)?,
        streams: String::from_str(alloc, words.files.streams)?,
        map: text_held(alloc, words.map)?,
        program: words_held(alloc, words.program)?,
        workers: words.workers,
        mode: words.mode,
        calls: words.limits.calls,
        states: words.limits.states,
        depth: words.limits.depth,
        protocol: words.protocol,
        optimal: words.optimal,
        restarts: words.restarts,
    })
}

/// What words ask for of which the first is `solve`.
pub(crate) fn solve(alloc: Global, words: &[String]) -> Result<SolveConfig, WordsFault>
    ensures config { IfOk result (λ c.
        solve_of (map string_bytes words.now) ≡ Some (held_solve c)) }
    ensures usage { IfErr result (λ why. why ≡ WordsFault.Usage
        → solve_of (map string_bytes words.now) ≡ None) }
{
    let command = solve_command(alloc)?;
    let matches = matches_of_words(command, words)?;
    let Some(read) = solve_in(&matches) else {
        return Err(WordsFault::Usage);
    };
    Ok(solve_held(alloc, read)?)
}
