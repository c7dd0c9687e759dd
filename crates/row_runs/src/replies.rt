//! Children that answer by a list of requests.
ghost use Rattle.std.specs.Prelude.{◌≡◌};
ghost use Rattle.io_world.specs.Replies.{IsLine};
ghost use Rattle.row_runs.specs.ReplyLists.{line_of_bytes, reply_in_list};

use io_world::AnswerBy;
use std::alloc::{AllocError, Global};

/// A request's line, and the line that answers it.
type Reply = (Vec<u8>, Vec<u8>);

/// Answers each request of a list by its line, and every other by `end`.
#[derive(Drop)]
pub(crate) struct Replies {
    alloc: Global,
    list: Vec<Reply>,
}

impl Replies {
    /// The list is empty.
    pub(crate) fn new(alloc: Global) -> Replies {
        Replies {
            alloc,
            list: Vec::new(alloc),
        }
    }

    /// Whether a request stands in the list.
    pub(crate) fn has_some(&self) -> bool {
        !self.list.is_empty()
    }

    /// The line that answers this request begins: nothing so far.
    pub(crate) fn begin(&mut self, request: &[u8]) -> Result<(), AllocError> {
        let request = Vec::from_slice(self.alloc, request)?;
        self.list.push((request, Vec::new(self.alloc)))?;
        Ok(())
    }

    /// Puts bytes behind that line, and answers whether there is one.
    pub(crate) fn add(&mut self, bytes: &[u8]) -> Result<bool, AllocError> {
        match self.list.last_mut() {
            Some((_, line)) => line.extend_from_slice(bytes)?,
            None => return Ok(false),
        }
        Ok(true)
    }
}

/// The bytes, or `end` where a line feed stands among them.
fn line_of(bytes: &[u8]) -> &[u8]
    ensures value { result.now ≡ line_of_bytes bytes.now }
    ensures line { IsLine result.now }
{
    if bytes.contains(&b'\n') {
        b"end"
    } else {
        bytes
    }
}

/// The line behind the first such request, and `end` where there is none.
fn reply_of<'a>(replies: &'a [Reply], request: &[u8]) -> &'a [u8]
    ensures value { result.now ≡ reply_in_list replies.now request.now }
    ensures line { IsLine result.now }
{
    let Some((reply, others)) = replies.split_first() else {
        return b"end";
    };
    if reply.0.as_slice() == request {
        line_of(reply.1.as_slice())
    } else {
        reply_of(others, request)
    }
}

impl AnswerBy for Replies {
    ghost answers = { λ s request. reply_in_list s.list.items request };

    fn answer(&self, alloc: Global, request: &[u8]) -> Result<Vec<u8>, AllocError> {
        Vec::from_slice(alloc, reply_of(self.list.as_slice(), request))
    }
}
