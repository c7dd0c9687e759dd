//! Words that write numbers.
ghost use Rattle.std.specs.Prelude.{◌≡◌, Some, None, if◌then◌else◌};
ghost use Rattle.std.specs.Char.{is_ascii_digit};
ghost use Rattle.std.specs.List.{list_all};
ghost use Rattle.std.specs.Str.Parse.{digits_value};
ghost use Rattle.task_model.specs.Numbers as specs;

use crate::limits::LARGEST_NUMBER;

/// Whether all of these bytes are decimal digits. Of no bytes it is true.
pub fn are_digits(word: &[u8]) -> bool
    ensures { result ≡ list_all is_ascii_digit word.now }
{
    word.iter().all(|b| b.is_ascii_digit())
}

/// The number that the word writes, if it is decimal digits alone and the number is at most
/// [`LARGEST_NUMBER`]. Leading zeros may stand.
#[tactic(auto, unfolding(crate::specs::Numbers::is_number))]
pub fn number_of(word: &[u8]) -> Option<u32>
    ensures { result ≡ (if specs.is_number word.now then Some (digits_value 10 word.now) else
        None) }
{
    if !are_digits(word) {
        return None;
    }
    let Ok(text) = str::from_utf8(word) else {
        return None;
    };
    let Ok(number) = text.parse::<u32>() else {
        return None;
    };
    if number <= LARGEST_NUMBER {
        Some(number)
    } else {
        None
    }
}

/// Whether the word is a number of at most [`LARGEST_NUMBER`].
pub fn is_number(word: &[u8]) -> bool
    ensures { result ≡ specs.is_number word.now }
{
    number_of(word).is_some()
}
