//! Memory for the values of an answer, taken before it is heard.
ghost use Rattle.std.specs.Prelude.{◌≡◌, ◌≤◌, [], IfOk, length, true, vec_capacity};
ghost use Rattle.std.specs.List.{list_all};
ghost use Rattle.gen_lines.specs.Reply.{is_value};
ghost use Rattle.gen_lines.specs.Told.{LieIn, texts, value_count};

use gen_lines::{Spans, VALUE_BYTES, Wanted};
use std::alloc::{AllocError, Global};
use std::marker::Model;
use task_model::{Name, Seq};

/// A buffer for one value.
#[derive(Drop)]
struct Blank {
    bytes: Vec<u8>,
    ghost empty: { bytes.items ≡ [] },
    ghost room: { 64 ≤ vec_capacity bytes },
}

impl Blank {
    fn new(alloc: Global) -> Result<Blank, AllocError> {
        let bytes = Vec::with_capacity(alloc, VALUE_BYTES)?;
        Ok(Blank { bytes })
    }

    /// The name of these bytes, for which no memory is taken.
    fn name(self, text: &[u8]) -> Name
        requires { length text.now ≤ 64 }
        ensures { result ≡ text.now }
    {
        let Blank { mut bytes } = self;
        let _ = bytes.extend_from_slice(text);
        Name::new(bytes)
    }
}

/// Room for so many values.
#[derive(Drop)]
pub(crate) struct Room {
    blanks: Vec<Blank>,
    names: Vec<Name>,
}

impl Model for Room {
    ghost use Rattle.std.specs.Prelude.{◌≡◌, ◌≤◌, ℕ, [], length, vec_capacity};

    ghost Value = { ℕ };

    ghost view = { λ r. length r.blanks.items };

    ghost invariant = { λ r. (r.names.items ≡ [])
        × (length r.blanks.items ≤ vec_capacity r.names) };
}

/// So many buffers.
fn blanks(alloc: Global, count: usize) -> Result<Vec<Blank>, AllocError>
    ensures { IfOk result (λ all. length all.items ≡ count) }
{
    let mut all = Vec::with_capacity(alloc, count)?;
    for _ in 0..count {
        all.push(Blank::new(alloc)?)?;
    }
    Ok(all)
}

impl Room {
    /// Room for so many values.
    pub(crate) fn new(alloc: Global, count: usize) -> Result<Room, AllocError>
        ensures { IfOk result (λ room. room ≡ count) }
    {
        let names = Vec::with_capacity(alloc, count)?;
        Ok(Room {
            blanks: blanks(alloc, count)?,
            names,
        })
    }

    /// The values of a line, for which no memory is taken.
    pub(crate) fn fill(self, line: &[u8], spans: &Spans) -> Seq<Name>
        requires spans { LieIn line.now spans.now }
        requires room { value_count spans.now ≤ self }
        requires values { list_all is_value (texts line.now spans.now) ≡ true }
        ensures { result ≡ texts line.now spans.now }
    {
        let Room {
            mut blanks,
            mut names,
        } = self;
        for value in 0..spans.count() {
            match blanks.pop() {
                Some(blank) => names.push_reserved(blank.name(spans.text(line, value))),
                None => unreachable!(),
            }
        }
        Seq::from_vec(names)
    }
}
