//! The words after the program's name.
ghost use Rattle.std.specs.Prelude.{◌≡◌, ◌≢◌, IfOk, IfErr, None, Some, codes, map, option_map, string_bytes, true, false};
ghost use Rattle.clap.specs.Words.{app_of, first_of, found_of, is_simple_and_free, kind_of, matches_of, new_rule, rows_of, rule_of};
ghost use Rattle.command_line.specs.Apps.{is_taken, positional};
ghost use Rattle.command_line.specs.declared.fault.WordsFault.TheVariants.{Usage};
ghost use Rattle.validate_app.specs.Words.{report_words, validation_usage, validate_app, validate_paths, paths_of_words};
ghost use Rattle.validate_app.specs.Held.{held_paths, held_report, shown_paths};

use clap::error::ErrorKind;
use clap::{Arg, ArgMatches, Command, Error};
use command_line::WordsFault;
use std::alloc::{AllocError, Global};

/// The paths of a report.
#[derive(Clone, Copy)]
pub(crate) struct ReportPaths<'a> {
    /// The report's.
    pub(crate) report: &'a str,
    /// Its streams'.
    pub(crate) streams: &'a str,
}

/// The paths that the words name.
#[derive(Clone, Copy)]
pub(crate) struct Paths<'a> {
    /// The domain's.
    pub(crate) domain: &'a str,
    /// The problem's.
    pub(crate) problem: &'a str,
    /// The plan's.
    pub(crate) plan: &'a str,
    /// Those of a report, where the words name one.
    pub(crate) certified: Option<ReportPaths<'a>>,
}

/// A word that has to stand, in its place.
fn positional(alloc: Global, name: &'static str) -> Arg<'static>
    ensures rule { rule_of result ≡ positional name.entry.now }
    ensures local { result.global ≡ false }
{
    Arg::new(alloc, name).required(true)
}

/// A word that may be left out, in its place.
fn optional(alloc: Global, name: &'static str) -> Arg<'static>
    ensures rule { rule_of result ≡ new_rule name.entry.now }
    ensures local { result.global ≡ false }
{
    Arg::new(alloc, name)
}

/// The words that the program takes.
fn validate_command<'a>(alloc: Global) -> Result<Command<'a>, AllocError>
    ensures { IfOk result (λ c. app_of c ≡ validate_app) }
{
    Command::new(alloc, "pddl_validate")
        .arg(positional(alloc, "domain"))?
        .arg(positional(alloc, "problem"))?
        .arg(positional(alloc, "plan"))?
        .arg(optional(alloc, "report"))?
        .arg(optional(alloc, "streams"))
}

/// Want of memory stays, and all else is a fault of the words.
fn why_of(error: &Error) -> WordsFault
    ensures { result ≡ Usage → kind_of error.now ≢ ErrorKind.OutOfMemory }
{
    match error.kind() {
        ErrorKind::OutOfMemory => WordsFault::Memory,
        _ => WordsFault::Usage,
    }
}

/// The words as the command takes them.
fn matches_of_words<'a>(
    command: Command<'a>,
    words: &'a [String],
) -> Result<ArgMatches<'a>, WordsFault>
    requires { is_simple_and_free (app_of command) ≡ true }
    ensures taken { IfOk result (λ m.
        is_taken (app_of command.entry) (map string_bytes words.entry.now) ≡ true) }
    ensures rows { IfOk result (λ m.
        rows_of (found_of m)
        ≡ matches_of (app_of command.entry) (map string_bytes words.entry.now)) }
    ensures usage { IfErr result (λ why. why ≡ Usage
        → is_taken (app_of command.entry) (map string_bytes words.entry.now) ≡ false) }
{
    match command.try_get_matches_from(words) {
        Ok(matches) => Ok(matches),
        Err(error) => Err(why_of(&error)),
    }
}

/// The value of a word.
fn text_in<'a>(matches: &ArgMatches<'a>, name: &str) -> Option<&'a str>
    ensures { option_map (λ s. s.now) result
        ≡ first_of name.now (rows_of (found_of matches.now)) }
{
    matches.get_str(name)
}

/// The paths of a report in what the command took, if it took one; none where it took a report
/// without its streams.
fn report_in<'a>(matches: &ArgMatches<'a>) -> Option<Option<ReportPaths<'a>>>
    ensures { option_map (option_map held_report) result
        ≡ report_words (first_of (codes "report") (rows_of (found_of matches.now)))
        (first_of (codes "streams") (rows_of (found_of matches.now))) }
{
    match (text_in(matches, "report"), text_in(matches, "streams")) {
        (None, None) => Some(None),
        (Some(report), Some(streams)) => Some(Some(ReportPaths { report, streams })),
        _ => None,
    }
}

/// The paths in what the command took.
fn paths_in<'a>(matches: &ArgMatches<'a>) -> Option<Paths<'a>>
    ensures { shown_paths result ≡ validate_paths (rows_of (found_of matches.now)) }
{
    let domain = text_in(matches, "domain")?;
    let problem = text_in(matches, "problem")?;
    let plan = text_in(matches, "plan")?;
    let certified = report_in(matches)?;
    Some(Paths {
        domain,
        problem,
        plan,
        certified,
    })
}

/// The paths that the words name, of which the first is the program's own name.
pub(crate) fn read_words<'a>(alloc: Global, words: &'a [String]) -> Result<Paths<'a>, WordsFault>
    ensures meant { IfOk result (λ paths.
        paths_of_words (map string_bytes words.entry.now) ≡ Some (held_paths paths)) }
    ensures usage { IfErr result (λ why. why ≡ Usage
        → paths_of_words (map string_bytes words.entry.now) ≡ None) }
{
    let command = validate_command(alloc)?;
    let matches = matches_of_words(command, words)?;
    match paths_in(&matches) {
        Some(paths) => Ok(paths),
        None => Err(WordsFault::Usage),
    }
}

/// The usage text, a line.
pub(crate) fn usage_text() -> &'static str
    ensures { result.now ≡ validation_usage }
{
    "usage: pddl_validate DOMAIN PROBLEM PLAN [REPORT STREAMS]
"
}
