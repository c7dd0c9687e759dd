//! The words of a row's line.
use std::alloc::{AllocError, Global};

/// The bytes before the first space, and those behind it.
pub(crate) fn first_word(line: &[u8]) -> (&[u8], &[u8]) {
    match line.iter().position(|byte| *byte == b' ') {
        Some(place) => (&line[..place], &line[place + 1..]),
        None => (line, &[]),
    }
}

/// The number that these bytes write, and 0 where they write none below 2^32.
pub(crate) fn number(word: &[u8]) -> usize {
    let Ok(text) = str::from_utf8(word) else {
        return 0;
    };
    match text.parse::<u32>() {
        Ok(number) => number as usize,
        Err(_) => 0,
    }
}

/// The bytes of these numbers.
pub(crate) fn bytes_of(alloc: Global, words: &[u8]) -> Result<Vec<u8>, AllocError> {
    let mut bytes = Vec::new(alloc);
    for word in words.split(|byte| *byte == b' ') {
        if let Ok(byte) = u8::try_from(number(word)) {
            bytes.push(byte)?;
        }
    }
    Ok(bytes)
}

/// A text so many times, in which `~` stands for a line feed: `TIMES TEXT`.
pub(crate) fn copies_of(alloc: Global, words: &[u8]) -> Result<Vec<u8>, AllocError> {
    let (times, text) = first_word(words);
    let mut bytes = Vec::new(alloc);
    for _ in 0..number(times) {
        for byte in text {
            bytes.push(if *byte == b'~' { b'\n' } else { *byte })?;
        }
    }
    Ok(bytes)
}

/// The numbers that these words write.
pub(crate) fn numbers(alloc: Global, words: &[u8]) -> Result<Vec<usize>, AllocError> {
    let mut list = Vec::new(alloc);
    for word in words.split(|byte| *byte == b' ') {
        list.push(number(word))?;
    }
    Ok(list)
}
