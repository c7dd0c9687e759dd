//! The parts of a line: a number in front, a step, and what stands in brackets behind it.
ghost use Rattle.std.specs.Prelude.{◌≡◌, ◌<◌, ◌≤◌, ◌==◌, IfSome, drop, length, position, take};
ghost use Rattle.std.specs.List.{list_all};
ghost use Rattle.sexpr_text.specs.Tokens.{is_blank};
ghost use Rattle.plan_reader.specs.Lines as specs;

/// The first place of a byte.
fn place_of(bytes: &[u8], wanted: u8) -> Option<usize>
    ensures place { result ≡ position (λ b. b == wanted) bytes.now }
    ensures within { IfSome result (λ n. n < length bytes.now) }
{
    bytes.iter().position(|b| *b == wanted)
}

/// The first bytes, as many as these.
pub(crate) fn first_bytes(bytes: &[u8], end: usize) -> &[u8]
    requires { end ≤ length bytes.now }
    ensures { result.now ≡ take end bytes.now }
{
    &bytes[..end]
}

/// What stands behind so many bytes.
pub(crate) fn behind(bytes: &[u8], start: usize) -> &[u8]
    requires { start ≤ length bytes.now }
    ensures { result.now ≡ drop start bytes.now }
{
    &bytes[start..]
}

/// A line, and what stands behind its line feed, if it ends with one.
#[derive(Clone, Copy)]
pub(crate) struct Cut<'a> {
    pub(crate) line: &'a [u8],
    pub(crate) rest: Option<&'a [u8]>,
}

/// The first line of a text.
pub(crate) fn cut_line(text: &[u8]) -> Cut<'_>
    ensures { specs.IsFirstTextLine text.now result.line.now result.rest }
{
    match place_of(text, b'\n') {
        Some(end) => Cut {
            line: first_bytes(text, end),
            rest: Some(behind(text, end + 1)),
        },
        None => Cut {
            line: text,
            rest: None,
        },
    }
}

/// Whether the byte is white space.
pub(crate) fn is_blank(byte: u8) -> bool
    ensures { result ≡ is_blank byte }
{
    matches!(byte, b'\t' | b'\n' | b'\r' | b' ')
}

/// The place of the first byte that isn't white space.
fn first_ink(bytes: &[u8]) -> Option<usize>
    ensures place { result ≡ position specs.is_ink bytes.now }
    ensures within { IfSome result (λ n. n < length bytes.now) }
{
    bytes.iter().position(|b| !is_blank(*b))
}

/// What stands behind the white space at the front.
pub(crate) fn behind_blanks(bytes: &[u8]) -> &[u8]
    ensures { result.now ≡ specs.behind_blanks bytes.now }
{
    match first_ink(bytes) {
        Some(place) => behind(bytes, place),
        None => &[],
    }
}

/// Whether nothing stands there, or a comment.
pub(crate) fn is_idle(bytes: &[u8]) -> bool
    ensures { result ≡ specs.is_idle bytes.now }
{
    match behind_blanks(bytes).split_first() {
        None => true,
        Some((first, _)) => *first == b';',
    }
}

/// Whether the brackets close in which these bytes begin, and nothing or a comment stands behind.
fn ends_behind(inside: &[u8]) -> bool
    ensures { result ≡ specs.ends_behind inside.now (position specs.is_bracket_close inside.now) }
{
    match place_of(inside, b']') {
        Some(end) => is_idle(behind(inside, end + 1)),
        None => false,
    }
}

/// Whether something in brackets stands there, and nothing or a comment behind it.
fn is_duration(bytes: &[u8]) -> bool
    ensures { result ≡ specs.is_duration bytes.now }
{
    match behind_blanks(bytes).split_first() {
        None => false,
        Some((first, inside)) => *first == b'[' && ends_behind(inside),
    }
}

/// Whether the byte is a digit or a point.
fn is_digit_or_point(byte: u8) -> bool
    ensures { result ≡ specs.is_digit_or_point byte }
{
    (b'0' <= byte && byte <= b'9') || byte == b'.'
}

/// Whether all bytes are digits and points.
fn are_digits_and_points(bytes: &[u8]) -> bool
    ensures { result ≡ list_all specs.is_digit_or_point bytes.now }
{
    bytes.iter().all(|b| is_digit_or_point(*b))
}

/// Where the number ends that may stand in front with a `:` behind it; 0 where none stands there.
fn stamp_end(line: &[u8]) -> usize
    ensures end { result ≡ specs.stamp_end line.now }
    ensures within { result ≤ length line.now }
{
    let Some(colon) = place_of(line, b':') else {
        return 0;
    };
    let number = behind_blanks(first_bytes(line, colon));
    if number.len() > 0 && are_digits_and_points(number) {
        colon + 1
    } else {
        0
    }
}

/// The bytes up to the first `)`, where nothing but brackets stands behind it, and else all.
fn without_duration(bytes: &[u8]) -> &[u8]
    ensures { result.now ≡ specs.without_duration bytes.now }
{
    let Some(close) = place_of(bytes, b')') else {
        return bytes;
    };
    if is_duration(behind(bytes, close + 1)) {
        first_bytes(bytes, close + 1)
    } else {
        bytes
    }
}

/// The bytes of a line's step: without the number in front of it and the brackets behind it.
pub(crate) fn step_bytes(line: &[u8]) -> &[u8]
    ensures { result.now ≡ specs.step_bytes line.now }
{
    without_duration(behind(line, stamp_end(line)))
}
