//! The cost that a plan claims.
ghost use Rattle.std.specs.Prelude.{◌≡◌, ◌<◌, IfSome, length, option_map, position};
ghost use Rattle.sexpr_text.specs.Tokens.{is_blank as is_space};
ghost use Rattle.plan_reader.specs.Claims as specs;

use crate::line::{Cut, behind_blanks, cut_line, first_bytes, is_blank};
use task_model::are_digits;

/// What stands behind this word, where the bytes begin with it.
fn behind_word<'a>(bytes: &'a [u8], word: &[u8]) -> Option<&'a [u8]>
    ensures { option_map (λ s. s.now) result ≡ specs.behind_word word.now bytes.now }
{
    bytes.strip_prefix(word)
}

/// The place of the first white space.
fn first_space(bytes: &[u8]) -> Option<usize>
    ensures place { result ≡ position is_space bytes.now }
    ensures within { IfSome result (λ n. n < length bytes.now) }
{
    bytes.iter().position(|b| is_blank(*b))
}

/// The word at the front, up to white space.
fn first_word(bytes: &[u8]) -> &[u8]
    ensures { result.now ≡ specs.before bytes.now (position is_space bytes.now) }
{
    match first_space(bytes) {
        Some(place) => first_bytes(bytes, place),
        None => bytes,
    }
}

/// The number that a word writes, where it is digits alone and the number is below 2^64.
#[tactic(auto, unfolding(crate::specs::Claims::is_cost))]
fn cost_in(word: &[u8]) -> Option<u64>
    ensures { result ≡ specs.cost_in word.now }
{
    if !are_digits(word) {
        return None;
    }
    let Ok(text) = str::from_utf8(word) else {
        return None;
    };
    let Ok(number) = text.parse::<u64>() else {
        return None;
    };
    Some(number)
}

/// The number that the word at the front writes.
fn cost_at(bytes: &[u8]) -> Option<u64>
    ensures { result ≡ specs.cost_at bytes.now }
{
    cost_in(first_word(bytes))
}

/// What is claimed behind the `;` of a comment.
fn claim_behind(bytes: &[u8]) -> Option<u64>
    ensures { result ≡ specs.claim_behind bytes.now }
{
    let rest = behind_word(behind_blanks(bytes), b"cost")?;
    let value = behind_word(behind_blanks(rest), b"=")?;
    cost_at(behind_blanks(value))
}

/// What a line claims that is a comment.
fn claim_of(line: &[u8]) -> Option<u64>
    ensures { result ≡ specs.claimed_by_line line.now }
{
    let comment = behind_word(behind_blanks(line), b";")?;
    claim_behind(comment)
}

/// The cost that a plan's text claims, as the first comment `; cost = N` writes it that stands in a
/// line of its own. The number is below 2^64, and may have leading zeros; behind it stands white
/// space or nothing.
pub fn claimed_cost(text: &[u8]) -> Option<u64>
    ensures { result ≡ specs.claimed_cost text.now }
{
    let mut left = Some(text);
    'lines: while let Some(rest) = left {
        let Cut { line, rest: behind } = cut_line(rest);
        if let Some(claim) = claim_of(line) {
            return Some(claim);
        }
        left = behind;
    }
    None
}
