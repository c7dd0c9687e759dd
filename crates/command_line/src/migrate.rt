//! The words of `migrate REPORT`.
ghost use Rattle.std.specs.Prelude.{◌≡◌, IfOk, IfErr, None, Some, map, option_map, string_bytes};
ghost use Rattle.clap.specs.Words.{app_of, found_of, rows_of};
ghost use Rattle.command_line.specs.Apps.{migrate_app};
ghost use Rattle.command_line.specs.Words.{migrate_in, migrate_of};

use crate::WordsFault;
use crate::line::{matches_of_words, positional, text_in};
use clap::{ArgMatches, Command};
use std::alloc::{AllocError, Global};

fn migrate_command<'a>(alloc: Global) -> Result<Command<'a>, AllocError>
    ensures { IfOk result (λ c. app_of c ≡ migrate_app) }
{
    Command::new(alloc, "migrate").arg(positional(alloc, "report"))
}

fn migrate_in<'a>(matches: &ArgMatches<'a>) -> Option<&'a str>
    ensures { option_map (λ s. s.now) result ≡ migrate_in (rows_of (found_of matches.now)) }
{
    text_in(matches, "report")
}

/// What words ask for of which the first is `migrate`.
pub(crate) fn migrate(alloc: Global, words: &[String]) -> Result<String, WordsFault>
    ensures path { IfOk result (λ path.
        migrate_of (map string_bytes words.now) ≡ Some (string_bytes path)) }
    ensures usage { IfErr result (λ why. why ≡ WordsFault.Usage
        → migrate_of (map string_bytes words.now) ≡ None) }
{
    let command = migrate_command(alloc)?;
    let matches = matches_of_words(command, words)?;
    let Some(path) = migrate_in(&matches) else {
        return Err(WordsFault::Usage);
    };
    Ok(String::from_str(alloc, path)?)
}
