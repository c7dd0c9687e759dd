//! Rows of numbers.
ghost use Rattle.std.specs.Prelude.{◌≡◌, [], length};

use std::alloc::{AllocError, Global};

/// A place as a number, and the largest number for a place that is none.
pub(crate) fn number(place: usize) -> u32 {
    u32::try_from(place).unwrap_or(u32::MAX)
}

/// Where a row stands among the numbers of all rows: from the first of these places to the one before
/// the second.
#[derive(Clone, Copy, Debug)]
pub(crate) struct Span {
    begin: u32,
    end: u32,
}

/// Rows of numbers, one behind another.
#[derive(Drop)]
pub(crate) struct Lists {
    /// The numbers of all rows.
    items: Vec<u32>,
    /// Where each row stands among them.
    spans: Vec<Span>,
}

impl Lists {
    /// No rows, which take no memory.
    pub(crate) fn new(alloc: Global) -> Lists
        ensures items { result.items.items ≡ [] }
        ensures spans { result.spans.items ≡ [] }
    {
        Lists {
            items: Vec::new(alloc),
            spans: Vec::new(alloc),
        }
    }

    /// Puts a row behind the others. Fails only where memory is wanting.
    pub(crate) fn push(&mut self, row: &[u32]) -> Result<(), AllocError> {
        let begin = number(self.items.len());
        self.items.extend_from_slice(row)?;
        let end = number(self.items.len());
        self.spans.push(Span { begin, end })?;
        Ok(())
    }

    /// How many numbers there are in all rows.
    pub(crate) fn total(&self) -> usize
        ensures { result ≡ length self.now.items.items }
    {
        self.items.len()
    }

    /// How many rows there are.
    pub(crate) fn len(&self) -> usize
        ensures { result ≡ length self.now.spans.items }
    {
        self.spans.len()
    }

    /// The numbers of all rows.
    pub(crate) fn all(&self) -> &[u32] {
        self.items.as_slice()
    }

    /// For each row its number where it has just one, else this one. Fails only where memory is wanting.
    pub(crate) fn singles(&self, alloc: Global, other: u32) -> Result<Vec<u32>, AllocError> {
        let mut singles = Vec::new(alloc);
        for place in 0..self.len() {
            let row = self.row(place);
            let first = row.first().copied().unwrap_or(other);
            singles.push(if row.len() == 1 { first } else { other })?;
        }
        Ok(singles)
    }

    /// The same rows with those numbers alone whose place here is true. Fails only where memory is
    /// wanting.
    pub(crate) fn kept(&self, alloc: Global, is_kept: &[bool]) -> Result<Lists, AllocError> {
        let mut kept = Lists::new(alloc);
        for place in 0..self.len() {
            let begin = number(kept.items.len());
            for item in self.row(place) {
                if is_kept.get(*item as usize).copied().unwrap_or(false) {
                    kept.items.push(*item)?;
                }
            }
            let end = number(kept.items.len());
            kept.spans.push(Span { begin, end })?;
        }
        Ok(kept)
    }

    /// The row at this place; none is empty.
    pub(crate) fn row(&self, place: usize) -> &[u32] {
        match self.spans.as_slice().get(place) {
            Some(span) => {
                let places = span.begin as usize..span.end as usize;
                self.items.as_slice().get(places).unwrap_or(&[])
            }
            None => &[],
        }
    }

    /// For each number below `count` the places of the rows in which it stands. Fails only where
    /// memory is wanting.
    pub(crate) fn inverse(&self, alloc: Global, count: usize) -> Result<Lists, AllocError> {
        let mut spans = self.begins(alloc, count)?;
        let mut items = Vec::new(alloc);
        items.resize(self.items.len(), 0)?;
        for place in 0..self.len() {
            for item in self.row(place) {
                if let Some(span) = spans.get_mut(*item as usize) {
                    if let Some(free) = items.get_mut(span.end as usize) {
                        *free = number(place);
                    }
                    span.end = span.end.saturating_add(1);
                }
            }
        }
        Ok(Lists { items, spans })
    }

    /// Empty rows, one for each number, which stand where the rows of lesser numbers have room before
    /// them. Fails only where memory is wanting.
    fn begins(&self, alloc: Global, count: usize) -> Result<Vec<Span>, AllocError> {
        let mut spans: Vec<Span> = Vec::new(alloc);
        spans.resize(count, Span { begin: 0, end: 0 })?;
        for item in self.items.as_slice() {
            if let Some(span) = spans.get_mut(*item as usize) {
                span.end = span.end.saturating_add(1);
            }
        }
        let mut before: u32 = 0;
        for span in spans.iter_mut() {
            let times = span.end;
            *span = Span {
                begin: before,
                end: before,
            };
            before = before.saturating_add(times);
        }
        Ok(spans)
    }
}
