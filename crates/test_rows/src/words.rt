//! The words of a row's line.

/// The bytes before the first space, and those behind it.
pub fn first_word(line: &[u8]) -> (&[u8], &[u8]) {
    match line.iter().position(|byte| *byte == b' ') {
        Some(place) => (&line[..place], &line[place + 1..]),
        None => (line, &[]),
    }
}

/// The number that these bytes write, and 0 where they write none below 2^32.
pub fn number(word: &[u8]) -> u32 {
    let Ok(text) = str::from_utf8(word) else {
        return 0;
    };
    text.parse::<u32>().unwrap_or(0)
}
