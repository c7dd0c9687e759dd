// What a child that answers by a function holds.
ghost use Rattle.std.specs.Prelude.{◌≡◌, ◌≤◌, ◌<◌, ◌-◌, length, drop, vec_capacity, IfOk, OnOk};
ghost use Rattle.io_world.specs.Replies.{IsLine, ReplyState, no_reply, next_bytes, HearsByte, Replies};

use crate::answer_by::AnswerBy;
use std::alloc::{AllocError, Global};
use std::marker::Model;

const END: &[u8] = b"end\n";

/// The bytes of a request that has no line feed yet, and the answers that weren't given yet.
#[derive(Drop)]
pub struct ReplyBuffer {
    request: Vec<u8>,
    said: Vec<u8>,
    given: usize,
}

impl Model for ReplyBuffer {
    ghost Value = { ReplyState };

    ghost view = { λ s. record { request = s.request.items; pending = drop s.given s.said.items } };

    ghost invariant = { λ s. (IsLine s.request.items) × (s.given ≤ length s.said.items)
        × (4 ≤ vec_capacity s.said) };
}

impl ReplyBuffer {
    /// Nothing was asked.
    ///
    /// # Errors
    /// `AllocError` where there is no memory.
    pub fn new(alloc: Global) -> Result<ReplyBuffer, AllocError>
        ensures { IfOk result (λ reply. reply ≡ no_reply) }
    {
        Ok(ReplyBuffer {
            request: Vec::new(alloc),
            said: Vec::with_capacity(alloc, END.len())?,
            given: 0,
        })
    }

    /// The bytes that the next read may give: the answers that are pending, and `end` where none
    /// is.
    pub fn next(&self) -> &[u8]
        ensures { result.now ≡ next_bytes self.now }
    {
        if self.given < self.said.len() {
            &self.said[self.given..]
        } else {
            END
        }
    }

    /// Counts bytes of `next` as given.
    pub fn give(&mut self, count: usize)
        requires { count ≤ length (next_bytes self.old) }
        ensures { self.new ≡ record self.old { pending = drop count (next_bytes self.old) } }
    {
        if self.given < self.said.len() {
            self.given += count;
        } else {
            self.said.clear();
            let Ok(()) = self.said.extend_from_slice(END) else {
                unreachable!()
            };
            self.given = count;
        }
    }

    /// The same with more bytes of requests: each line that became whole is answered.
    ///
    /// # Errors
    /// `AllocError` where there is no memory.
    pub fn after<A: AnswerBy>(
        &self,
        alloc: Global,
        answers: &A,
        bytes: &[u8],
    ) -> Result<ReplyBuffer, AllocError>
        ensures { IfOk result (λ reply. Replies (A.answers answers.now) bytes.now self.now reply) }
    {
        let mut reply = self.copy(alloc)?;
        for byte in bytes {
            reply.hear(alloc, answers, *byte)?;
        }
        Ok(reply)
    }

    fn copy(&self, alloc: Global) -> Result<ReplyBuffer, AllocError>
        ensures same { IfOk result (λ reply. reply ≡ self.now) }
        ensures line { IfOk result (λ reply. IsLine reply.request) }
    {
        let mut said = Vec::with_capacity(alloc, END.len())?;
        said.extend_from_slice(&self.said[self.given..])?;
        Ok(ReplyBuffer {
            request: Vec::from_slice(alloc, &self.request)?,
            said,
            given: 0,
        })
    }

    /// One byte of a request more. After an error the buffer is of no use.
    fn hear<A: AnswerBy>(&mut self, alloc: Global, answers: &A, byte: u8) -> Result<(), AllocError>
        ensures { OnOk result (HearsByte (A.answers answers.now) byte self.old self.new) }
    {
        if byte == b'\n' {
            let answer = answers.answer(alloc, &self.request)?;
            self.said.extend_from_slice(&answer)?;
            self.said.push(b'\n')?;
            self.request.clear();
        } else {
            self.request.push(byte)?;
        }
        Ok(())
    }
}
