//! What a run wrote, and how it ended.
use pddlstream_app::Status;
use std::alloc::{AllocError, Global};

/// What a run wrote, how it ended, and which calls on children were noted.
#[derive(Drop)]
pub(crate) struct Ran {
    pub(crate) text: String,
    pub(crate) status: Status,
    pub(crate) calls: String,
}

impl Ran {
    /// A run that wrote nothing and ended so.
    pub(crate) fn new(alloc: Global, status: Status) -> Ran {
        Ran {
            text: String::new(alloc),
            status,
            calls: String::new(alloc),
        }
    }

    /// Whether both wrote the same and ended alike.
    pub(crate) fn is_as(&self, other: &Ran) -> bool {
        self.text.as_bytes() == other.text.as_bytes() && self.status == other.status
    }

    /// Shows the run beside the one that wrote this whole text.
    pub(crate) fn shorten(&mut self, alloc: Global, whole: &[u8]) -> Result<(), AllocError> {
        if let Some(text) = shortened(alloc, self.text.as_bytes(), whole)? {
            self.text = text;
        }
        Ok(())
    }
}

/// The lines of a text but the last, and the last.
fn split_last(text: &[u8]) -> (&[u8], &[u8]) {
    let body = text.strip_suffix(b"\n").unwrap_or(text);
    let end = match body.iter().rposition(|byte| *byte == b'\n') {
        Some(place) => place.saturating_add(1),
        None => 0,
    };
    match text.split_at_checked(end) {
        Some(parts) => parts,
        None => (&[], text),
    }
}

/// The part of a text that is compared with a whole one, and what stands behind it: all of it where
/// the whole one goes on from there, and else its lines but the last.
fn compared<'a>(text: &'a [u8], whole: &[u8]) -> (&'a [u8], &'a [u8]) {
    if whole.starts_with(text) {
        return (text, &[]);
    }
    split_last(text)
}

/// The text with `..` in place of the part that stands in front of the whole one too; none where it
/// is the whole one, or has no such part.
fn shortened(alloc: Global, text: &[u8], whole: &[u8]) -> Result<Option<String>, AllocError> {
    if text == whole {
        return Ok(None);
    }
    let (front, last) = compared(text, whole);
    if !whole.starts_with(front) {
        return Ok(None);
    }
    let last = String::from_utf8_lossy(alloc, last)?;
    let shown = format!(in alloc; "..\n{last}")?;
    Ok(Some(shown))
}

/// Adds the lines of a text up to the first that begins with this word and a space, and of that one
/// the word.
fn push_front(front: &mut String, text: &str, word: &str) -> Result<(), AllocError> {
    for line in text.lines() {
        let begins = line
            .strip_prefix(word)
            .is_some_and(|rest| rest.starts_with(' '));
        front.push_str(if begins { word } else { line })?;
        front.push('\n')?;
        if begins {
            return Ok(());
        }
    }
    Ok(())
}

/// The text up to the first line that begins with this word; the whole text where there is none,
/// or no word.
pub(crate) fn front_of(alloc: Global, text: &[u8], word: &str) -> Result<String, AllocError> {
    let text = String::from_utf8_lossy(alloc, text)?;
    if word.is_empty() {
        return Ok(text);
    }
    let mut front = String::new(alloc);
    push_front(&mut front, text.as_str(), word)?;
    Ok(front)
}
