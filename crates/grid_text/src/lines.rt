//! The lines of a grid file.
ghost use Rattle.std.specs.Prelude.{◌≡◌, ◌<◌, [], ◌∷◌, IfSome, MatchOption, length, position};
ghost use Rattle.std.specs.Io.BufRead.{strip_last};
ghost use Rattle.gen_lines.specs.Lines.{is_feed};
ghost use Rattle.grid_text.specs.Lines.{lines_in, is_bare, is_passed_over, may_stand, may_stand_in_line};

/// The first line of these bytes, and what stands behind its line feed if it has one.
pub(crate) fn first_line(bytes: &[u8]) -> (&[u8], Option<&[u8]>)
    ensures line { MatchOption result.1 (lines_in bytes.now ≡ result.0.now ∷ [])
        (λ rest. lines_in bytes.now ≡ result.0.now ∷ lines_in rest.now) }
    ensures shorter { IfSome result.1 (λ rest. length rest.now < length bytes.now) }
{
    match first_feed(bytes) {
        Some(end) => (without_return(&bytes[..end]), Some(&bytes[end + 1..])),
        None => (bytes, None),
    }
}

/// Where the first line feed stands.
pub fn first_feed(bytes: &[u8]) -> Option<usize>
    ensures place { result ≡ position is_feed bytes.now }
    ensures within { IfSome result (λ n. n < length bytes.now) }
{
    bytes.iter().position(|b| *b == b'\n')
}

/// A line's bytes without one carriage return at their end.
pub fn without_return(bytes: &[u8]) -> &[u8]
    ensures { result.now ≡ strip_last 13 bytes.now }
{
    match bytes {
        [line @ .., b'\r'] => line,
        _ => bytes,
    }
}

/// Whether the line is passed over: it is empty, or it begins with `;`.
pub(crate) fn is_passed(line: &[u8]) -> bool
    ensures { result ≡ is_passed_over line.now }
{
    match line {
        [] => true,
        [first, ..] => *first == b';',
    }
}

/// Whether all bytes of a line are spaces or from `!` to `~`.
pub(crate) fn may_stand_in_line(line: &[u8]) -> bool
    ensures { result ≡ may_stand_in_line line.now }
{
    line.iter().all(|b| may_stand(*b))
}

fn may_stand(byte: u8) -> bool
    ensures { result ≡ may_stand byte }
{
    matches!(byte, b' '..=b'~')
}

/// Whether all lines of these bytes are passed over.
pub(crate) fn is_bare(bytes: &[u8]) -> bool
    ensures { result ≡ is_bare bytes.now }
{
    let mut rest = bytes;
    'lines: loop {
        let (line, more) = first_line(rest);
        if !is_passed(line) {
            return false;
        }
        match more {
            Some(after) => rest = after,
            None => return true,
        }
    }
}
