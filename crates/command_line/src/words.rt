//! The words after the program's name, as a command.
ghost use Rattle.std.specs.Prelude.{◌≡◌, IfOk, IfErr, None, Some, map, string_bytes};
ghost use Rattle.command_line.specs.Held.{held};
ghost use Rattle.command_line.specs.Words.{command_of};

use crate::generate::generate;
use crate::migrate::migrate;
use crate::play::play;
use crate::replay::{deorder, replay};
use crate::solve::solve;
use crate::{Config, WordsFault};
use std::alloc::Global;

/// What the words after the program's name ask for: exactly the command that they mean (this
/// project).
///
/// The first word names the command, and `clap` reads the others as the command's words and
/// options. An option stands in any place before `--`, at most once, as `--name value` or
/// `--name=value`; a value that begins with `-`, and isn't `-` alone, needs the second form. After
/// the first `--` no word is an option. A number is one to seven digits and nothing else, within
/// its range. The program's words stand behind STREAMS, best behind `--`.
///
/// # Errors
///
/// - `Usage` only where the words mean no command: there are none, the first is no command's name,
///   a word or an option is missing, unknown, too many or twice, a flag has a value, a number is out
///   of its form or its range, no mode has the name, a program or `--workers` stands beside `--map`,
///   or `--optimal` beside another mode than incremental. `--help` and `--version` are refused like
///   any unknown word.
/// - `Memory` where memory is wanting. Nothing is said of the words then.
#[tactic(auto, unfolding(crate::specs::Words::command_of))]
pub fn read_words(alloc: Global, words: &[String]) -> Result<Config, WordsFault>
    ensures config { IfOk result (λ config.
        command_of (map string_bytes words.now) ≡ Some (held config)) }
    ensures usage { IfErr result (λ why. why ≡ WordsFault.Usage
        → command_of (map string_bytes words.now) ≡ None) }
{
    let [name, ..] = words else {
        return Err(WordsFault::Usage);
    };
    if name.as_str() == "solve" {
        let config = solve(alloc, words)?;
        return Ok(Config::Solve(config));
    }
    if name.as_str() == "replay" {
        let config = replay(alloc, words)?;
        return Ok(Config::Replay(config));
    }
    if name.as_str() == "generate" {
        let number = generate(alloc, words)?;
        return Ok(Config::Generate(number));
    }
    if name.as_str() == "migrate" {
        let path = migrate(alloc, words)?;
        return Ok(Config::Migrate(path));
    }
    if name.as_str() == "deorder" {
        let config = deorder(alloc, words)?;
        return Ok(Config::Deorder(config));
    }
    if name.as_str() == "play" {
        let config = play(alloc, words)?;
        return Ok(Config::Play(config));
    }
    Err(WordsFault::Usage)
}
