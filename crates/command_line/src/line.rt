//! Words read by a command of clap.
ghost use Rattle.std.specs.Prelude.{◌≡◌, ◌≢◌, IfOk, IfErr, map, option_map, string_bytes, true, false};
ghost use Rattle.clap.specs.Words.{all_of, app_of, first_of, found_of, is_simple_and_free, kind_of, matches_of, rows_of, rule_of};
ghost use Rattle.command_line.specs.Apps.{flag, is_taken, option, positional, trailing};
ghost use Rattle.command_line.specs.Words.{is_set};

use crate::WordsFault;
use clap::error::ErrorKind;
use clap::{Arg, ArgAction, ArgMatches, Command, Error};
use std::alloc::Global;

/// A word that has to stand, in its place.
pub(crate) fn positional(alloc: Global, name: &'static str) -> Arg<'static>
    ensures rule { rule_of result ≡ positional name.entry.now }
    ensures local { result.global ≡ false }
{
    Arg::new(alloc, name).required(true)
}

/// Words that may stand any number of times, behind the others.
pub(crate) fn trailing(alloc: Global, name: &'static str) -> Arg<'static>
    ensures rule { rule_of result ≡ trailing name.entry.now }
    ensures local { result.global ≡ false }
{
    Arg::new(alloc, name).action(ArgAction::Append)
}

/// An option `--name value` or `--name=value`, which may stand once.
pub(crate) fn option(alloc: Global, name: &'static str) -> Arg<'static>
    ensures rule { rule_of result ≡ option name.entry.now }
    ensures local { result.global ≡ false }
{
    Arg::new(alloc, name).long(name)
}

/// A flag `--name`, which may stand once.
pub(crate) fn flag(alloc: Global, name: &'static str) -> Arg<'static>
    ensures rule { rule_of result ≡ flag name.entry.now }
    ensures local { result.global ≡ false }
{
    Arg::new(alloc, name).long(name).action(ArgAction::SetTrue)
}

/// The value of a word or an option.
pub(crate) fn text_in<'a>(matches: &ArgMatches<'a>, name: &str) -> Option<&'a str>
    ensures { option_map (λ s. s.now) result
        ≡ first_of name.now (rows_of (found_of matches.now)) }
{
    matches.get_str(name)
}

/// Whether the flag stands among the words.
pub(crate) fn set_in(matches: &ArgMatches<'_>, name: &str) -> bool
    ensures { result ≡ is_set name.now (rows_of (found_of matches.now)) }
{
    match text_in(matches, name) {
        Some(text) => text == "true",
        None => false,
    }
}

/// The values of a word that may stand any number of times.
pub(crate) fn words_in<'m, 'a>(matches: &'m ArgMatches<'a>, name: &str) -> Option<&'m [&'a str]>
    ensures { option_map (λ s. map (λ w. w.now) s.now) result
        ≡ all_of name.now (rows_of (found_of matches.now)) }
{
    matches.get_strs(name)
}

/// Want of memory stays, and all else is a fault of the words.
fn why_of(error: &Error) -> WordsFault
    ensures { result ≡ WordsFault.Usage → kind_of error.now ≢ ErrorKind.OutOfMemory }
{
    match error.kind() {
        ErrorKind::OutOfMemory => WordsFault::Memory,
        _ => WordsFault::Usage,
    }
}

/// The words as the command takes them. The first word is the command's name, which clap drops.
pub(crate) fn matches_of_words<'a>(
    command: Command<'a>,
    words: &'a [String],
) -> Result<ArgMatches<'a>, WordsFault>
    requires { is_simple_and_free (app_of command) ≡ true }
    ensures taken { IfOk result (λ m.
        is_taken (app_of command.entry) (map string_bytes words.entry.now) ≡ true) }
    ensures rows { IfOk result (λ m.
        rows_of (found_of m)
        ≡ matches_of (app_of command.entry) (map string_bytes words.entry.now)) }
    ensures usage { IfErr result (λ why. why ≡ WordsFault.Usage
        → is_taken (app_of command.entry) (map string_bytes words.entry.now) ≡ false) }
{
    match command.try_get_matches_from(words) {
        Ok(matches) => Ok(matches),
        Err(error) => Err(why_of(&error)),
    }
}
