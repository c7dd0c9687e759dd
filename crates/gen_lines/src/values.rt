//! The values that may stand in an answer.
ghost use Rattle.std.specs.Prelude.{◌≡◌};
ghost use Rattle.std.specs.List.{list_all};
ghost use Rattle.gen_lines.specs.Reply.{is_bar, is_value, is_value_byte};

/// The longest value, in bytes.
pub const VALUE_BYTES: usize = 64;

/// Whether a field parts tuples.
#[tactic(auto, unfolding(crate::specs::Reply::is_bar))]
pub(crate) fn is_bar(field: &[u8]) -> bool
    ensures { result ≡ is_bar field.now }
{
    field == b"|".as_slice()
}

/// Whether a field is a value: one to 64 visible bytes of ASCII, none of them a bracket, `;`, `#`,
/// `@` or `|`. (PDDLStream 2020 gives values any form; the bytes are this project's.)
#[tactic(auto, unfolding(crate::specs::Reply::is_value))]
pub fn is_value(field: &[u8]) -> bool
    ensures { result ≡ is_value field.now }
{
    !field.is_empty() && field.len() <= VALUE_BYTES && are_value_bytes(field)
}

fn are_value_bytes(field: &[u8]) -> bool
    ensures { result ≡ list_all is_value_byte field.now }
{
    field.iter().all(|b| is_value_byte(*b))
}

fn is_value_byte(b: u8) -> bool
    ensures { result ≡ is_value_byte b }
{
    matches!(b, b'!'..=b'~') && !matches!(b, b'(' | b')' | b';' | b'#' | b'@' | b'|')
}
