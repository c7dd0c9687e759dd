//! The files of a row.
use crate::unit::add_copy;
use io_world::MemFiles;
use std::alloc::{AllocError, Global};
use std::mem;

/// In place of the line of this number, from 1, stands this text.
type Change = (usize, Vec<u8>);

/// The files of a row, of which the one that was named last is open, what stands in place of some
/// of its lines, a text of which copies may be added to it, and which calls on the files fail.
#[derive(Drop)]
pub(crate) struct Texts {
    alloc: Global,
    files: Vec<(String, Vec<u8>)>,
    open: usize,
    changes: Vec<Change>,
    unit: Vec<u8>,
    fails: Vec<u64>,
}

impl Texts {
    /// No file.
    pub(crate) fn new(alloc: Global) -> Texts {
        Texts {
            alloc,
            files: Vec::new(alloc),
            open: 0,
            changes: Vec::new(alloc),
            unit: Vec::new(alloc),
            fails: Vec::new(alloc),
        }
    }

    /// Opens the file of this path, which is empty then.
    pub(crate) fn begin_file(&mut self, path: &[u8]) -> Result<(), AllocError> {
        let found = self.files.iter().position(|file| file.0.as_bytes() == path);
        self.open = found.unwrap_or(self.files.len());
        match self.files.get_mut(self.open) {
            Some((_, text)) => text.clear(),
            None => {
                let path = String::from_utf8_lossy(self.alloc, path)?;
                self.files.push((path, Vec::new(self.alloc)))?;
            }
        }
        Ok(())
    }

    /// The text of the open file, if one is open.
    fn open_text(&mut self) -> Option<&mut Vec<u8>> {
        let (_, text) = self.files.get_mut(self.open)?;
        Some(text)
    }

    /// Puts bytes behind the open file, and answers whether one is open.
    pub(crate) fn add(&mut self, bytes: &[u8]) -> Result<bool, AllocError> {
        match self.open_text() {
            Some(text) => text.extend_from_slice(bytes)?,
            None => return Ok(false),
        }
        Ok(true)
    }

    /// Spaces fill the open file up to so many bytes. Answers whether one is open.
    pub(crate) fn fill(&mut self, size: usize) -> Result<bool, AllocError> {
        let Some(text) = self.open_text() else {
            return Ok(false);
        };
        for _ in text.len()..size {
            text.push(b' ')?;
        }
        Ok(true)
    }

    /// A text begins that stands in place of this line of the open file.
    pub(crate) fn begin_change(&mut self, line: usize) -> Result<(), AllocError> {
        self.changes.push((line, Vec::new(self.alloc)))?;
        Ok(())
    }

    /// Puts bytes behind that text, and answers whether there is one.
    pub(crate) fn add_changed(&mut self, bytes: &[u8]) -> Result<bool, AllocError> {
        match self.changes.last_mut() {
            Some((_, text)) => text.extend_from_slice(bytes)?,
            None => return Ok(false),
        }
        Ok(true)
    }

    /// A text begins of which copies are added.
    pub(crate) fn begin_unit(&mut self) {
        self.unit.clear();
    }

    /// Puts bytes behind it.
    pub(crate) fn add_unit(&mut self, bytes: &[u8]) -> Result<bool, AllocError> {
        self.unit.extend_from_slice(bytes)?;
        Ok(true)
    }

    /// Adds so many copies of it to the open file, and answers whether one is open.
    pub(crate) fn repeat(&mut self, times: usize) -> Result<bool, AllocError> {
        let Some((_, text)) = self.files.get_mut(self.open) else {
            return Ok(false);
        };
        for count in 0..times {
            add_copy(text, self.unit.as_slice(), count)?;
        }
        Ok(true)
    }

    /// What stands in place of this line, if something does.
    fn change_of(&self, number: usize) -> Option<&[u8]> {
        let (_, text) = self.changes.iter().find(|change| change.0 == number)?;
        Some(text.as_slice())
    }

    /// A text in which others stand in place of some lines.
    fn changed(&self, text: &[u8]) -> Result<Vec<u8>, AllocError> {
        let mut bytes = Vec::new(self.alloc);
        let mut number: usize = 0;
        for line in text.split_inclusive(|byte| *byte == b'\n') {
            number = number.wrapping_add(1);
            bytes.extend_from_slice(self.change_of(number).unwrap_or(line))?;
        }
        Ok(bytes)
    }

    /// Does the changes in the open file.
    fn change(&mut self) -> Result<(), AllocError> {
        let Some((_, text)) = self.files.get(self.open) else {
            return Ok(());
        };
        let changed = self.changed(text.as_slice())?;
        if let Some(text) = self.open_text() {
            *text = changed;
        }
        Ok(())
    }

    /// The bytes of the file of this path; none where there is no such file.
    pub(crate) fn bytes_of(&self, path: &[u8]) -> &[u8] {
        match self.files.iter().find(|file| file.0.as_bytes() == path) {
            Some((_, text)) => text.as_slice(),
            None => &[],
        }
    }

    /// How many bytes the open file has.
    pub(crate) fn open_len(&self) -> usize {
        match self.files.get(self.open) {
            Some((_, text)) => text.len(),
            None => 0,
        }
    }

    /// Only so many bytes of the open file are left.
    pub(crate) fn cut(&mut self, count: usize) {
        if let Some(text) = self.open_text() {
            text.truncate(count);
        }
    }

    /// The call on the files of this number fails.
    pub(crate) fn fail(&mut self, call: usize) -> Result<(), AllocError> {
        self.fails.push(call as u64)?;
        Ok(())
    }

    /// The files, with the changes. None is left here.
    pub(crate) fn take(&mut self) -> Result<Box<MemFiles>, AllocError> {
        self.change()?;
        let files = mem::replace(&mut self.files, Vec::new(self.alloc));
        let fails = mem::replace(&mut self.fails, Vec::new(self.alloc));
        let files = MemFiles::new(self.alloc, files, fails);
        Ok(Box::new(self.alloc, files)?)
    }
}
