//! The fields of a line.
ghost use Rattle.std.specs.Prelude.{◌≡◌, ◌<◌, ◌≤◌, IfSome, drop, length, not, position};
ghost use Rattle.gen_lines.specs.Field.{FieldFrom};
ghost use Rattle.gen_lines.specs.Reply.{is_space};
ghost use Rattle.std.specs.List.{position_or_len};

/// Where a field stands in its line, from its first byte to the one after its last.
#[derive(Clone, Copy)]
pub(crate) struct Place {
    pub(crate) start: usize,
    pub(crate) end: usize,
}

/// The first field of the line from a place on, at which no field may have begun already.
pub(crate) fn field_from(line: &[u8], from: usize) -> Option<Place>
    requires { from ≤ length line.now }
    ensures { FieldFrom line.now from result }
{
    let rest = after(line, from);
    let Some(skipped) = spaces_before(rest) else {
        return None;
    };
    let start = from + skipped;
    let end = start + run_of(after(rest, skipped));
    Some(Place { start, end })
}

fn after(bytes: &[u8], from: usize) -> &[u8]
    requires { from ≤ length bytes.now }
    ensures { result.now ≡ drop from bytes.now }
{
    &bytes[from..]
}

/// How many spaces stand before the first other byte.
fn spaces_before(bytes: &[u8]) -> Option<usize>
    ensures place { result ≡ position (λ b. not (is_space b)) bytes.now }
    ensures within { IfSome result (λ n. n < length bytes.now) }
{
    bytes.iter().position(|b| *b != b' ')
}

/// How many bytes stand before the first space.
fn run_of(bytes: &[u8]) -> usize
    ensures { result ≡ position_or_len is_space bytes.now }
{
    first_space(bytes).unwrap_or(bytes.len())
}

fn first_space(bytes: &[u8]) -> Option<usize>
    ensures { result ≡ position is_space bytes.now }
{
    bytes.iter().position(|b| *b == b' ')
}
