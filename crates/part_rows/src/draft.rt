//! What the lines of a file say.
use crate::due::write_due;
use crate::out::Out;
use crate::word::{add_repeated, add_unescaped, first_word, number, unescaped};
use std::alloc::{AllocError, Global};

/// A section of rows: the kind of its rows, the texts that are given to all of them, and those of
/// the open row.
#[derive(Drop)]
pub(crate) struct Draft {
    alloc: Global,
    kind: Vec<u8>,
    texts: Vec<Vec<u8>>,
    given: usize,
    is_open: bool,
}

impl Draft {
    /// No section has begun.
    pub(crate) fn new(alloc: Global) -> Draft {
        Draft {
            alloc,
            kind: Vec::new(alloc),
            texts: Vec::new(alloc),
            given: 0,
            is_open: false,
        }
    }

    /// A section of rows of this kind begins. No text is given yet.
    pub(crate) fn begin(&mut self, kind: &[u8]) -> Result<(), AllocError> {
        self.kind.clear();
        self.kind.extend_from_slice(kind)?;
        self.texts.clear();
        self.given = 0;
        Ok(())
    }

    /// Whether a row is open.
    pub(crate) fn is_open(&self) -> bool {
        self.is_open
    }

    /// A row begins.
    pub(crate) fn open(&mut self) {
        self.is_open = true;
    }

    /// Takes a line of a text, and answers whether it is one: `+` begins a text; a line that begins
    /// with `|`, or with `\` where it has no line feed, goes on with it; `repeat` adds a text again
    /// and again.
    pub(crate) fn take(&mut self, line: &[u8]) -> Result<bool, AllocError> {
        match line {
            b"+" => self.add_text()?,
            [b'|', text @ ..] => {
                self.add(text)?;
                self.add(b"\n")?;
            }
            [b'\\', text @ ..] => self.add(text)?,
            [b'r', b'e', b'p', b'e', b'a', b't', b' ', rest @ ..] => self.repeat(rest)?,
            _ => return Ok(false),
        }
        Ok(true)
    }

    /// A text begins. It is given to all rows where none is open.
    fn add_text(&mut self) -> Result<(), AllocError> {
        self.texts.push(Vec::new(self.alloc))?;
        if !self.is_open {
            self.given = self.texts.len();
        }
        Ok(())
    }

    /// Puts bytes behind those of the last text.
    fn add(&mut self, bytes: &[u8]) -> Result<(), AllocError> {
        match self.texts.last_mut() {
            Some(text) => text.extend_from_slice(bytes),
            None => Ok(()),
        }
    }

    /// Puts a text behind the last one so many times: the first number, how many, and the text.
    fn repeat(&mut self, rest: &[u8]) -> Result<(), AllocError> {
        let (first, rest) = first_word(rest);
        let (count, line) = first_word(rest);
        let part = unescaped(self.alloc, line)?;
        match self.texts.last_mut() {
            Some(text) => add_repeated(self.alloc, text, number(first), number(count), &part),
            None => Ok(()),
        }
    }

    /// Takes the line of a short row as its last text. Where the rows are marked, `@` is no part of
    /// it.
    pub(crate) fn take_short(&mut self, line: &[u8]) -> Result<(), AllocError> {
        self.open();
        self.add_text()?;
        let Some(text) = self.texts.last_mut() else {
            return Ok(());
        };
        add_unescaped(text, line)?;
        if self.kind.ends_with(b" marked") {
            text.retain(|byte| *byte != b'@');
        }
        Ok(())
    }

    /// Writes what is due of the open row, which ends.
    pub(crate) fn close(&mut self, out: &mut Out) {
        write_due(self.alloc, out, self.kind.as_slice(), self.texts.as_slice());
        self.texts.truncate(self.given);
        self.is_open = false;
    }
}
