//! The words of `generate N`.
ghost use Rattle.std.specs.Prelude.{◌≡◌, IfOk, IfErr, None, Some, map, string_bytes};
ghost use Rattle.clap.specs.Words.{app_of, found_of, rows_of};
ghost use Rattle.command_line.specs.Apps.{generate_app};
ghost use Rattle.command_line.specs.Words.{generate_in, generate_of};

use crate::WordsFault;
use crate::line::{matches_of_words, positional, text_in};
use crate::number::count_of;
use clap::{ArgMatches, Command};
use std::alloc::{AllocError, Global};

fn generate_command<'a>(alloc: Global) -> Result<Command<'a>, AllocError>
    ensures { IfOk result (λ c. app_of c ≡ generate_app) }
{
    Command::new(alloc, "generate").arg(positional(alloc, "number"))
}

fn generate_in(matches: &ArgMatches<'_>) -> Option<u32>
    ensures { result ≡ generate_in (rows_of (found_of matches.now)) }
{
    let number = text_in(matches, "number")?;
    count_of(number, 12)
}

/// What words ask for of which the first is `generate`.
pub(crate) fn generate(alloc: Global, words: &[String]) -> Result<u32, WordsFault>
    ensures number { IfOk result (λ n. generate_of (map string_bytes words.now) ≡ Some n) }
    ensures usage { IfErr result (λ why. why ≡ WordsFault.Usage
        → generate_of (map string_bytes words.now) ≡ None) }
{
    let command = generate_command(alloc)?;
    let matches = matches_of_words(command, words)?;
    match generate_in(&matches) {
        Some(number) => Ok(number),
        None => Err(WordsFault::Usage),
    }
}
