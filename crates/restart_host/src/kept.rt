// What is kept of a child.
ghost use Rattle.std.specs.Io.BufRead.{ends_with_byte};
ghost use Rattle.std.specs.List.{after_first};
ghost use Rattle.std.specs.Prelude.{◌≡◌, ◌<◌, ◌≤◌, ◌+◌, [], true, false, if◌then◌else◌, length, take, drop, map, string_bytes, vec_len, IfOk};
ghost use Rattle.gen_lines.specs.Lines.{is_feed};

use crate::held::{Held, drop_first, first_line};
use std::alloc::{AllocError, Global};

/// What is kept of a child since it was last started in the host below.
#[derive(Drop)]
pub(crate) struct Life {
    /// Whether it runs there.
    pub(crate) alive: bool,
    /// What was read of it and isn't handed out yet.
    pub(crate) held: Held,
    /// So many of the bytes held are being handed out: a line with its line feed, or all where none
    /// ends.
    pub(crate) due: usize,
    ghost due_in: { due ≤ length held },
    ghost none: { alive ≡ false → held ≡ [] },
}

impl Life {
    /// It doesn't run, and nothing is held.
    ///
    /// # Errors
    /// `AllocError` where there is no memory.
    pub(crate) fn new(alloc: Global) -> Result<Life, AllocError>
        ensures { IfOk result (λ life. life.alive ≡ false) }
    {
        let held = Held::new(alloc)?;
        Ok(Life {
            alive: false,
            held,
            due: 0,
        })
    }

    /// It doesn't run any more. What was held and isn't handed out is dropped with it.
    pub(crate) fn fall(&mut self)
        ensures alive { self.new.alive ≡ false }
        ensures held { self.new.held ≡ [] }
        ensures due { self.new.due ≡ 0 }
    {
        self.due = 0;
        self.held.clear();
        self.alive = false;
    }
}

/// What is kept of a child.
#[derive(Drop)]
pub(crate) struct Kept {
    /// Its program and its words, of its last start.
    pub(crate) words: Vec<String>,
    /// Whether it runs, as its host tells.
    pub(crate) running: bool,
    /// The requests without an answer.
    pub(crate) asked: Vec<u8>,
    /// What is kept of its life in the host below.
    pub(crate) life: Life,
    ghost named: { running ≡ true → 0 < vec_len words },
    ghost only: { life.alive ≡ true → running ≡ true },
}

impl Kept {
    /// A child that was never started.
    ///
    /// # Errors
    /// `AllocError` where there is no memory.
    pub(crate) fn new(alloc: Global) -> Result<Kept, AllocError>
        ensures { IfOk result (λ kept. (kept.running ≡ false) × (kept.life.alive ≡ false)) }
    {
        let life = Life::new(alloc)?;
        Ok(Kept {
            words: Vec::new(alloc),
            running: false,
            asked: Vec::new(alloc),
            life,
        })
    }

    /// Hands out the first of the bytes that are due. Where they end a line, the first of the
    /// requests has its answer.
    pub(crate) fn hand_out(&mut self, count: usize)
        requires some { 0 < count }
        requires due { count ≤ self.old.life.due }
        ensures running { self.new.running ≡ self.old.running }
        ensures words { self.new.words ≡ self.old.words }
        ensures alive { self.new.life.alive ≡ self.old.life.alive }
        ensures held { self.new.life.held ≡ drop count self.old.life.held }
        ensures due { self.old.life.due ≡ self.new.life.due + count }
        ensures asked { self.new.asked.items
            ≡ (if ends_with_byte 10 (take count self.old.life.held)
            then after_first is_feed self.old.asked.items else self.old.asked.items) }
    {
        let ends = self.life.held.as_slice()[count - 1] == b'\n';
        self.life.due -= count;
        self.life.held.drop_front(count);
        if ends {
            self.answer_first();
        }
    }

    /// Takes the first of the requests without an answer away.
    fn answer_first(&mut self)
        ensures rest { self.new ≡ record self.old { asked = self.new.asked } }
        ensures asked { self.new.asked.items ≡ after_first is_feed self.old.asked.items }
    {
        let count = first_line(&self.asked);
        drop_first(&mut self.asked, count);
    }
}

/// A copy of a child's words.
///
/// # Errors
/// `AllocError` where there is no memory.
pub(crate) fn copy_words(alloc: Global, words: &[String]) -> Result<Vec<String>, AllocError>
    ensures { IfOk result (λ copy. map string_bytes copy.items ≡ map string_bytes words.now) }
{
    let mut copy = Vec::new(alloc);
    for word in words {
        copy.push(String::from_str(alloc, word.as_str())?)?;
    }
    Ok(copy)
}
