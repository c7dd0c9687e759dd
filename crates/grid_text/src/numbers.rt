//! Fields that write numbers.
ghost use Rattle.std.specs.Prelude.{◌≡◌, ◌≤◌, IfSome, Some, None, if◌then◌else◌};
ghost use Rattle.std.specs.Str.Parse.{digits_value};
ghost use Rattle.grid_text.specs.Numbers.{is_decimal, is_short_number, is_extent};

use task_model::are_digits;

/// The number that a field writes by digits alone, if it is below 2^32. Leading zeros may stand.
#[tactic(auto, unfolding(crate::specs::Numbers::is_decimal))]
pub fn number_of(field: &[u8]) -> Option<u32>
    ensures { result ≡ (if is_decimal field.now then Some (digits_value 10 field.now) else None) }
{
    if !are_digits(field) {
        return None;
    }
    let Ok(text) = str::from_utf8(field) else {
        return None;
    };
    let Ok(number) = text.parse::<u32>() else {
        return None;
    };
    Some(number)
}

/// The most digits of a number in a grid file.
const DIGITS: usize = 4;

/// The number of a field of a grid file: one to four digits.
#[tactic(auto, unfolding(crate::specs::Numbers::is_short_number))]
pub(crate) fn short_number(field: &[u8]) -> Option<u32>
    ensures { result
        ≡ (if is_short_number field.now then Some (digits_value 10 field.now) else None) }
{
    if field.len() > DIGITS {
        return None;
    }
    number_of(field)
}

/// The same where it is at least 1 and at most `most`.
#[tactic(auto, unfolding(crate::specs::Numbers::is_extent))]
pub(crate) fn extent_of(field: &[u8], most: u32) -> Option<u32>
    ensures number { result ≡ (if is_extent most field.now then Some (digits_value 10 field.now)
        else None) }
    ensures most { IfSome result (λ n. n ≤ most) }
{
    let number = short_number(field)?;
    if number < 1 {
        return None;
    }
    if number > most {
        return None;
    }
    Some(number)
}
