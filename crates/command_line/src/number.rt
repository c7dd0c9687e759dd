//! The numbers that words write.
ghost use Rattle.std.specs.Prelude.{◌≡◌, ◌≤◌, IfSome};
ghost use Rattle.clap.specs.Words.{found_of, rows_of};
ghost use Rattle.command_line.specs.Numbers.{count_in, count_in_word, number_in, number_in_word};

use crate::line::text_in;
use clap::ArgMatches;
use task_model::are_digits;

/// How many calls may be made where the words don't say. The number is this project's.
pub const DEFAULT_CALLS: u32 = 10_000;

/// How many states a search may go through where the words don't say. The number is this project's.
pub const DEFAULT_STATES: u32 = 100_000;

/// The depth where the words don't say. The number is this project's.
pub const DEFAULT_DEPTH: u32 = 3;

/// The latest version of the protocol and of reports. The number is this project's.
pub const LATEST_PROTOCOL: u32 = 2;

/// The most failures of children that are made good in a run. The number is this project's.
pub const MOST_RESTARTS: u32 = 1_000;

/// The number from the least to the most that a word of one to seven digits writes, and nothing
/// where the word writes none.
#[tactic(auto, unfolding(crate::specs::Numbers::is_number))]
fn number_of(word: &str, least: u32, most: u32) -> Option<u32>
    ensures value { result ≡ number_in_word least most word.now }
    ensures within { IfSome result (λ number. (least ≤ number) × (number ≤ most)) }
{
    if word.is_empty() || word.len() > 7 {
        return None;
    }
    if !are_digits(word.as_bytes()) {
        return None;
    }
    let Ok(number) = word.parse::<u32>() else {
        return None;
    };
    if least <= number && number <= most {
        Some(number)
    } else {
        None
    }
}

/// The same of numbers from 1 on.
pub(crate) fn count_of(word: &str, most: u32) -> Option<u32>
    ensures value { result ≡ count_in_word most word.now }
    ensures within { IfSome result (λ count. (1 ≤ count) × (count ≤ most)) }
{
    number_of(word, 1, most)
}

/// The number of the option of this name, and the default where the words lack the option.
pub(crate) fn number_in(
    matches: &ArgMatches<'_>,
    name: &str,
    least: u32,
    most: u32,
    default: u32,
) -> Option<u32>
    requires { (least ≤ default) × (default ≤ most) }
    ensures value { result
        ≡ number_in name.now least most default (rows_of (found_of matches.now)) }
    ensures within { IfSome result (λ number. (least ≤ number) × (number ≤ most)) }
{
    match text_in(matches, name) {
        Some(text) => number_of(text, least, most),
        None => Some(default),
    }
}

/// The same of numbers from 1 on.
pub(crate) fn count_in(matches: &ArgMatches<'_>, name: &str, most: u32, default: u32) -> Option<u32>
    requires { (1 ≤ default) × (default ≤ most) }
    ensures value { result ≡ count_in name.now most default (rows_of (found_of matches.now)) }
    ensures within { IfSome result (λ count. (1 ≤ count) × (count ≤ most)) }
{
    number_in(matches, name, 1, most, default)
}
