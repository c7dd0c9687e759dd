//! The words of a line, and the bytes that a line stands for.
use std::alloc::{AllocError, Global};

/// The bytes before the first space, and those behind it.
pub(crate) fn first_word(line: &[u8]) -> (&[u8], &[u8]) {
    match line.iter().position(|byte| *byte == b' ') {
        Some(place) => (&line[..place], &line[place + 1..]),
        None => (line, &[]),
    }
}

/// The number that these bytes write, and 0 where they write none below 2^32.
pub(crate) fn number(word: &[u8]) -> usize {
    let Ok(text) = str::from_utf8(word) else {
        return 0;
    };
    match text.parse::<u32>() {
        Ok(number) => number as usize,
        Err(_) => 0,
    }
}

/// The value of a digit of base 16.
fn digit(byte: u8) -> u8 {
    match byte {
        b'0'..=b'9' => byte - b'0',
        b'a'..=b'f' => byte - b'a' + 10,
        _ => 0,
    }
}

/// Adds what stands behind a `\`: `n`, `r`, `t` and `xHH` stand for a byte, and anything else for
/// the `\` and itself.
fn add_escaped(out: &mut Vec<u8>, part: &[u8]) -> Result<(), AllocError> {
    let (byte, rest) = match part {
        [b'n', rest @ ..] => (b'\n', rest),
        [b'r', rest @ ..] => (b'\r', rest),
        [b't', rest @ ..] => (b'\t', rest),
        [b'x', high, low, rest @ ..] => ((digit(*high) << 4) | digit(*low), rest),
        _ => (b'\\', part),
    };
    out.push(byte)?;
    out.extend_from_slice(rest)
}

/// Adds the bytes that a line stands for.
pub(crate) fn add_unescaped(out: &mut Vec<u8>, line: &[u8]) -> Result<(), AllocError> {
    for (number, part) in line.split(|byte| *byte == b'\\').enumerate() {
        if number == 0 {
            out.extend_from_slice(part)?;
        } else {
            add_escaped(out, part)?;
        }
    }
    Ok(())
}

/// Adds a text with a number in the place of each `%`.
fn add_numbered(
    alloc: Global,
    out: &mut Vec<u8>,
    number: usize,
    text: &[u8],
) -> Result<(), AllocError> {
    let digits = format!(in alloc; "{number}")?;
    for (place, part) in text.split(|byte| *byte == b'%').enumerate() {
        if place > 0 {
            out.extend_from_slice(digits.as_bytes())?;
        }
        out.extend_from_slice(part)?;
    }
    Ok(())
}

/// Adds a text so many times, with the numbers from the first on in the place of each `%`.
pub(crate) fn add_repeated(
    alloc: Global,
    out: &mut Vec<u8>,
    first: usize,
    count: usize,
    text: &[u8],
) -> Result<(), AllocError> {
    for number in first..first.saturating_add(count) {
        add_numbered(alloc, out, number, text)?;
    }
    Ok(())
}

/// The bytes that a line stands for.
pub(crate) fn unescaped(alloc: Global, line: &[u8]) -> Result<Vec<u8>, AllocError> {
    let mut bytes = Vec::new(alloc);
    add_unescaped(&mut bytes, line)?;
    Ok(bytes)
}

/// The words of a line, which spaces part; `_` stands for an empty word.
pub(crate) fn words_of(alloc: Global, line: &[u8]) -> Result<Vec<String>, AllocError> {
    let mut words = Vec::new(alloc);
    for word in line.split(|byte| *byte == b' ') {
        let letters = if word == b"_".as_slice() { &[] } else { word };
        if !word.is_empty() {
            words.push(String::from_utf8_lossy(alloc, letters)?)?;
        }
    }
    Ok(words)
}
