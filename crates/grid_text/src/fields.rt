//! The fields of a line, from left to right.
ghost use Rattle.std.specs.Prelude.{◌≡◌, ◌≤◌, ◌<◌, [], ◌∷◌, length, not, position, IfSome, MatchOption, option_map};
ghost use Rattle.std.specs.List.{position_or_len};
ghost use Rattle.gen_lines.specs.Reply.{fields, is_space};
ghost use Rattle.grid_text.specs.Entries.{four_of};

/// A line's first field and what stands behind it, or None where it has none. Fields are the
/// longest runs of bytes other than spaces.
pub fn first_field(line: &[u8]) -> Option<(&[u8], &[u8])>
    ensures { MatchOption result (fields line.now ≡ [])
        (λ f. fields line.now ≡ f.0.now ∷ fields f.1.now) }
{
    let start = spaces_before(line)?;
    let rest = &line[start..];
    let end = run_of(rest);
    Some((&rest[..end], &rest[end..]))
}

/// Four fields and nothing more.
pub fn four_fields(line: &[u8]) -> Option<(&[u8], &[u8], &[u8], &[u8])>
    ensures { option_map (λ f. (f.0.now, f.1.now, f.2.now, f.3.now)) result
        ≡ four_of (fields line.now) }
{
    let (first, rest) = first_field(line)?;
    let (second, rest) = first_field(rest)?;
    let (third, rest) = first_field(rest)?;
    let (fourth, rest) = first_field(rest)?;
    if let Some(_) = first_field(rest) {
        return None;
    }
    Some((first, second, third, fourth))
}

/// How many spaces stand before the first other byte.
fn spaces_before(bytes: &[u8]) -> Option<usize>
    ensures place { result ≡ position (λ b. not (is_space b)) bytes.now }
    ensures within { IfSome result (λ n. n < length bytes.now) }
{
    bytes.iter().position(|b| *b != b' ')
}

/// How many bytes stand before the first space.
fn run_of(bytes: &[u8]) -> usize
    ensures run { result ≡ position_or_len is_space bytes.now }
    ensures within { result ≤ length bytes.now }
{
    first_space(bytes).unwrap_or(bytes.len())
}

fn first_space(bytes: &[u8]) -> Option<usize>
    ensures place { result ≡ position is_space bytes.now }
    ensures within { IfSome result (λ n. n < length bytes.now) }
{
    bytes.iter().position(|b| *b == b' ')
}
