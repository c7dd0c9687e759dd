//! Rows, and the parts of each.
use crate::words::{first_word, number};
use std::alloc::{AllocError, Global};
use std::fmt::Write;
use std::{fs, io};

/// A part of a row: what its line says, and the text that the lines behind it give.
#[derive(Drop)]
pub struct Part {
    /// The first word of the line.
    pub key: String,
    /// What stands behind it.
    pub rest: Vec<u8>,
    /// The text.
    pub text: Vec<u8>,
}

/// A row: its name and its parts.
#[derive(Drop)]
pub struct Row {
    pub name: String,
    pub parts: Vec<Part>,
}

/// A part of this line, without a text.
fn part_of(alloc: Global, line: &[u8]) -> Result<Part, AllocError> {
    let (key, rest) = first_word(line);
    Ok(Part {
        key: String::from_utf8_lossy(alloc, key)?,
        rest: Vec::from_slice(alloc, rest)?,
        text: Vec::new(alloc),
    })
}

/// Adds a text for each number from one to before another: `FIRST END TEXT`, where `%` in the text
/// stands for the number, `^` for the next one and `~` for a line feed.
fn add_numbered(alloc: Global, text: &mut Vec<u8>, line: &[u8]) -> Result<(), AllocError> {
    let (first, rest) = first_word(line);
    let (end, pattern) = first_word(rest);
    for count in number(first)..number(end) {
        let digits = format!(in alloc; "{count}")?;
        let next = count.saturating_add(1);
        let next_digits = format!(in alloc; "{next}")?;
        for byte in pattern {
            match byte {
                b'%' => text.extend_from_slice(digits.as_bytes())?,
                b'^' => text.extend_from_slice(next_digits.as_bytes())?,
                b'~' => text.push(b'\n')?,
                _ => text.push(*byte)?,
            }
        }
    }
    Ok(())
}

/// Adds the bytes of these numbers.
fn add_bytes(text: &mut Vec<u8>, numbers: &[u8]) -> Result<(), AllocError> {
    for word in numbers.split(|byte| *byte == b' ') {
        if let Ok(byte) = u8::try_from(number(word)) {
            text.push(byte)?;
        }
    }
    Ok(())
}

impl Row {
    /// A row of this name, without parts.
    fn new(alloc: Global, name: &[u8]) -> Result<Row, AllocError> {
        Ok(Row {
            name: String::from_utf8_lossy(alloc, name)?,
            parts: Vec::new(alloc),
        })
    }

    /// Takes a line: of the last part's text, or of a new part.
    fn take(&mut self, alloc: Global, line: &[u8]) -> Result<(), AllocError> {
        let Some(last) = self.parts.last_mut() else {
            self.parts.push(part_of(alloc, line)?)?;
            return Ok(());
        };
        match line {
            [b'|', text @ ..] => {
                last.text.extend_from_slice(text)?;
                last.text.push(b'\n')?;
            }
            [b'\\', text @ ..] => last.text.extend_from_slice(text)?,
            [b'.', numbers @ ..] => add_bytes(&mut last.text, numbers)?,
            [b'*', numbered @ ..] => add_numbered(alloc, &mut last.text, numbered)?,
            _ => self.parts.push(part_of(alloc, line)?)?,
        }
        Ok(())
    }
}

/// The rows of a text. The first has no name: its lines stand before all rows, and say what holds
/// for each of them.
///
/// A row begins with `== ` and its name. A line of it is a part, with a key and what stands behind
/// it; or one of the part's text: it begins with `|`, with `\` where it has no line feed, with `.`
/// where it gives numbers of bytes, and with `*` where it gives a text for each of some numbers.
/// Lines that begin with `;`, and empty ones, are passed over.
pub fn read_rows(alloc: Global, text: &[u8]) -> Result<Vec<Row>, AllocError> {
    let mut rows = Vec::new(alloc);
    let mut row = Row::new(alloc, b"")?;
    for line in text.split(|byte| *byte == b'\n') {
        match line {
            [] | [b';', ..] => {}
            [b'=', b'=', b' ', name @ ..] => {
                rows.push(row)?;
                row = Row::new(alloc, name)?;
            }
            _ => row.take(alloc, line)?,
        }
    }
    rows.push(row)?;
    Ok(rows)
}

/// The rows of the file at this path.
pub fn rows_in(rt: &HostRuntime, path: &str) -> io::Result<Vec<Row>> {
    let text = fs::read(rt, path)?;
    Ok(read_rows(rt.alloc(), text.as_slice())?)
}
