//! A place of a round: what a due asks of which child, and what was heard.
ghost use Rattle.std.specs.Prelude.{◌≡◌, ◌≤◌, None, true, false, length};
ghost use Rattle.gen_lines.specs.Reply.{reply_of, yields};
ghost use Rattle.gen_lines.specs.Told.{IsNarrow, SpansLieIn, texts};
ghost use Rattle.gen_lines.specs.declared.answer.Answer.TheVariants as answer;
ghost use Rattle.transcript_model.specs.declared.entry.Entry.TheVariants as entry;
ghost use Rattle.session_core.specs.Room.{most_values, HasRoomForAnswer};
ghost use Rattle.gen_lines.specs.declared.line_buf.TheConstants.{LINE_LENGTH};

use crate::room::Room;
use gen_lines::{Answer, Spans, Wanted, Why, YIELD_TUPLES, answer_of};
use std::alloc::{AllocError, Global};
use std::marker::Model;
use transcript_model::Entry;

/// One due of the open round. It is seen as a slot of the round.
#[derive(Drop)]
pub(crate) struct Cell {
    number: u32,
    child: u8,
    request: Vec<u8>,
    wanted: Wanted,
    sent: bool,
    answer: Option<Entry>,
    room: Option<Room>,
}

impl Model for Cell {
    ghost use Rattle.session_core.specs.Slots.{Slot};

    ghost Value = { Slot };

    ghost use Rattle.session_core.specs.Room.{IsReady};

    ghost view = { λ c. record {
      number = c.number;
      child = c.child;
      request = c.request.items;
      wanted = c.wanted;
      sent = c.sent;
      answer = c.answer;
    } };

    ghost invariant = { λ c. IsReady c.answer c.wanted c.room };
}

/// The most values that an answer may have.
fn most(wanted: Wanted) -> usize
    requires { IsNarrow wanted }
    ensures { result ≡ most_values wanted }
{
    match wanted {
        Wanted::Outputs { width, several } => {
            if several {
                YIELD_TUPLES as usize * width
            } else {
                width
            }
        }
        Wanted::Number => 0,
    }
}

/// The entry of a yield, whose values are put into the room that was kept for them.
fn got(number: u32, wanted: Wanted, room: Option<Room>, line: &[u8], spans: &Spans) -> Entry
    requires room { HasRoomForAnswer None wanted room }
    requires reply { reply_of line.now wanted ≡ yields spans.now.tuples (texts line.now spans.now) }
    requires spans { SpansLieIn line.now wanted (answer.Yield spans.now) }
    ensures { result ≡ entry.Got number spans.now.tuples (texts line.now spans.now) }
{
    let Some(room) = room else {
        unreachable!();
    };
    Entry::Got {
        number,
        tuples: spans.tuples,
        values: room.fill(line, spans),
    }
}

impl Cell {
    ghost use Rattle.std.specs.Prelude.{IfOk, Some, not, is_none, option_copied};
    ghost use Rattle.session_core.specs.Slots.{Slot, is_unsent_slot, is_awaited_slot, sent_slot, heard_slot, reply_fault, reply_to};

    /// The cell of a request that isn't sent yet, with memory for whatever it is answered.
    pub(crate) fn new(
        alloc: Global,
        number: u32,
        child: u8,
        request: Vec<u8>,
        wanted: Wanted,
    ) -> Result<Cell, AllocError>
        requires { IsNarrow wanted }
        ensures { IfOk result (λ cell. cell
            ≡ record {
              number = number;
              child = child;
              request = request.items;
              wanted = wanted;
              sent = false;
              answer = None;
            }) }
    {
        let room = Room::new(alloc, most(wanted))?;
        Ok(Cell {
            number,
            child,
            request,
            wanted,
            sent: false,
            answer: None,
            room: Some(room),
        })
    }

    /// The number of its ask.
    pub(crate) fn number(&self) -> u32
        ensures { result ≡ self.now.number }
    {
        self.number
    }

    /// Its child.
    pub(crate) fn child(&self) -> u8
        ensures { result ≡ self.now.child }
    {
        self.child
    }

    /// Its request.
    pub(crate) fn request(&self) -> &[u8]
        ensures { result.now ≡ self.now.request }
    {
        self.request.as_slice()
    }

    /// Whether its request wasn't sent.
    pub(crate) fn is_unsent(&self) -> bool
        ensures { result ≡ is_unsent_slot self.now }
    {
        !self.sent && self.answer.is_none()
    }

    /// Whether its request was sent and isn't answered.
    pub(crate) fn is_awaited(&self) -> bool
        ensures { result ≡ is_awaited_slot self.now }
    {
        self.sent && self.answer.is_none()
    }

    /// Whether it has its answer.
    pub(crate) fn is_answered(&self) -> bool
        ensures { result ≡ not (is_none self.now.answer) }
    {
        self.answer.is_some()
    }

    /// Its request was written whole.
    pub(crate) fn send(&mut self)
        ensures { self.new ≡ sent_slot self.old }
    {
        self.sent = true;
    }

    /// A line of its child was taken. Tells why it is no answer, if it is none.
    pub(crate) fn hear(&mut self, line: &[u8]) -> Option<Why>
        requires open { self.old.answer ≡ None }
        requires line { length line.now ≤ LINE_LENGTH }
        ensures slot { self.new ≡ heard_slot line.now self.old }
        ensures fault { result ≡ reply_fault (reply_to line.now self.old) }
    {
        let number = self.number;
        match answer_of(line, self.wanted) {
            Answer::Yield(spans) => {
                let room = self.room.take();
                self.answer = Some(got(number, self.wanted, room, line, &spans));
            }
            Answer::Value(value) => self.answer = Some(Entry::Value { number, value }),
            Answer::End => self.answer = Some(Entry::End { number }),
            Answer::Bad(why) => return Some(why),
        }
        None
    }

    /// Its answer, if one was heard.
    pub(crate) fn answer(&self) -> Option<&Entry>
        ensures { option_copied result ≡ self.now.answer }
    {
        self.answer.as_ref()
    }

    /// Its answer, if one was heard.
    pub(crate) fn into_answer(self) -> Option<Entry>
        ensures { result ≡ self.answer }
    {
        let Cell { answer, .. } = self;
        answer
    }
}
