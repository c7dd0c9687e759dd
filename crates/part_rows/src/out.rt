//! What is due of a row, as it is written.
use std::alloc::Global;
use std::fmt::{Debug, Display, Write};

/// A text that is written piece by piece. Once memory was wanting it isn't whole, whatever follows.
#[derive(Drop)]
pub(crate) struct Out {
    text: String,
    is_whole: bool,
}

impl Out {
    /// Nothing is written.
    pub(crate) fn new(alloc: Global) -> Out {
        Out {
            text: String::new(alloc),
            is_whole: true,
        }
    }

    /// Memory was wanting.
    pub(crate) fn lose(&mut self) {
        self.is_whole = false;
    }

    /// Writes letters.
    pub(crate) fn put(&mut self, letters: &str) {
        if self.text.push_str(letters).is_err() {
            self.lose();
        }
    }

    /// Writes bytes, or `?` where they aren't UTF-8.
    pub(crate) fn put_bytes(&mut self, bytes: &[u8]) {
        self.put(str::from_utf8(bytes).unwrap_or("?"));
    }

    /// Writes a value as it is printed.
    pub(crate) fn print<T: Display + Drop>(&mut self, value: T) {
        if write!(self.text, "{value}").is_err() {
            self.lose();
        }
    }

    /// Writes a value as it is shown for a developer.
    pub(crate) fn show<T: Debug + Drop>(&mut self, value: T) {
        if write!(self.text, "{value:?}").is_err() {
            self.lose();
        }
    }

    /// Writes bytes between quotes, with escapes, or `?` where they aren't UTF-8.
    pub(crate) fn quote(&mut self, bytes: &[u8]) {
        self.show(str::from_utf8(bytes).unwrap_or("?"));
    }

    /// Whether nothing is written.
    pub(crate) fn is_empty(&self) -> bool {
        self.text.is_empty()
    }

    /// What is written, if it is whole.
    pub(crate) fn whole(&self) -> Option<&str> {
        if self.is_whole {
            Some(self.text.as_str())
        } else {
            None
        }
    }
}
