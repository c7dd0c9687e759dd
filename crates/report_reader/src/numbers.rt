//! Numbers as a report writes them: decimal digits without a leading zero.
ghost use Rattle.std.specs.Prelude.{◌≡◌, ◌<◌, ◌^◌};
ghost use Rattle.std.specs.Fmt.{decimal};
ghost use Rattle.report_reader.specs.Finding.{Finds};
ghost use Rattle.report_reader.specs.Splits.{has_needless_zero};

use task_model::are_digits;

/// The number that a field writes, below 2^64.
pub(crate) fn number_in(field: &[u8]) -> Option<u64>
    ensures { Finds (λ n. n < 2 ^ 64) decimal result field.now }
{
    if has_needless_zero(field) {
        return None;
    }
    if !are_digits(field) {
        return None;
    }
    let Ok(text) = str::from_utf8(field) else {
        return None;
    };
    let Ok(number) = text.parse::<u64>() else {
        return None;
    };
    Some(number)
}

/// Whether the field is empty, or begins with a zero and has more.
fn has_needless_zero(field: &[u8]) -> bool
    ensures { result ≡ has_needless_zero field.now }
{
    field.is_empty() || (field.len() > 1 && field[0] == b'0')
}
