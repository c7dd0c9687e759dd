//! The lines of a row.
use crate::draft::Draft;
use std::alloc::{AllocError, Global};

/// A row of a text: its name, and its lines, of which the first are those of the row that it
/// varies.
#[derive(Drop)]
pub(crate) struct Row<'a> {
    alloc: Global,
    pub(crate) name: Option<&'a [u8]>,
    lines: Vec<&'a [u8]>,
    varies: bool,
    shared: usize,
}

impl<'a> Row<'a> {
    /// No row yet.
    pub(crate) fn new(alloc: Global) -> Row<'a> {
        Row {
            alloc,
            name: None,
            lines: Vec::new(alloc),
            varies: false,
            shared: 0,
        }
    }

    /// A row of this name begins.
    pub(crate) fn begin(&mut self, name: &'a [u8]) {
        self.name = Some(name);
        self.varies = false;
        self.lines.clear();
    }

    /// A row of this name begins that says first what the last one says that varies none.
    pub(crate) fn vary(&mut self, name: &'a [u8]) {
        if !self.varies {
            self.shared = self.lines.len();
        }
        self.name = Some(name);
        self.varies = true;
        self.lines.truncate(self.shared);
    }

    /// Takes a line of the row.
    pub(crate) fn add(&mut self, line: &'a [u8]) -> Result<(), AllocError> {
        self.lines.push(line)?;
        Ok(())
    }

    /// What the lines say.
    pub(crate) fn draft(&self, rt: &HostRuntime) -> Result<Box<Draft>, AllocError> {
        let mut draft = Box::new(self.alloc, Draft::new(self.alloc))?;
        for line in &self.lines {
            draft.take(rt, line)?;
        }
        Ok(draft)
    }
}
