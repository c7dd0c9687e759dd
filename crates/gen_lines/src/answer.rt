//! What a line answers to a request.
ghost use Rattle.std.specs.Prelude.{◌≡◌, ◌≤◌, length, drop};
ghost use Rattle.gen_lines.specs.Reply.{end_reply, fields, number_reply, parted, reply_of, yield_reply};
ghost use Rattle.gen_lines.specs.Told.{AreSpans, IfYield, IsNarrow, NoSpans, SpansLieIn, told};
ghost use Rattle.gen_lines.specs.declared.line_buf.TheConstants.{LINE_LENGTH};

use crate::fields::field_from;
use crate::spans::{Spans, count_tuples, mark_values};
use task_model::number_of;

/// What an answer to a request may be besides the word `end`.
#[derive(Clone, Copy, Debug, PartialEq, Eq)]
pub enum Wanted {
    /// `yield` and one tuple of `width` values; if `several`, up to
    /// [`YIELD_TUPLES`](crate::YIELD_TUPLES) of them, parted by fields `|`. Tuples of no values
    /// aren't parted, so there is one.
    Outputs {
        /// How many outputs the stream has, at most 8.
        width: usize,
        /// Whether a yield may hold several tuples, as in protocol version 2.
        several: bool,
    },
    /// `value` and one number, as a cost stream answers.
    Number,
}

/// Why a line is no answer. Of several causes the first here is told.
#[derive(Clone, Copy, Debug, PartialEq, Eq)]
pub enum Why {
    /// The line has no field, or its first isn't a word that may stand there.
    Word = 1,
    /// The number of further fields is wrong, or that of tuples.
    Count = 2,
    /// A field in the place of a value isn't one, or isn't a number.
    Value = 3,
    /// Too many bytes came with no line feed; only [`crate::Seen::TooLong`] stands for this.
    TooLong = 4,
}

/// What a line says.
#[derive(Clone, Copy)]
pub enum Answer {
    /// Tuples of values, each 1 to 64 bytes from `!` to `~` without `( ) ; # @ |`.
    Yield(Spans),
    /// A number, at most 1,000,000.
    Value(u32),
    /// Nothing more comes.
    End,
    /// The line is no answer.
    Bad(Why),
}

/// What a line, without its line feed, says to a request of this kind. It has at most
/// [`LINE_LENGTH`](crate::LINE_LENGTH) bytes, and its fields are parted by spaces (this project's
/// protocol). `Bad` never comes with `Why::TooLong`.
pub fn answer_of(line: &[u8], wanted: Wanted) -> Answer
    requires line { length line.now ≤ LINE_LENGTH }
    requires wanted { IsNarrow wanted }
    ensures reply { told line.now result ≡ reply_of line.now wanted }
    ensures spans { SpansLieIn line.now wanted result }
{
    let Some(first) = field_from(line, 0) else {
        return Answer::Bad(Why::Word);
    };
    let word = &line[first.start..first.end];
    if word == b"end".as_slice() {
        return end_answer(line, first.end);
    }
    match wanted {
        Wanted::Outputs { width, several } if word == b"yield".as_slice() => {
            yield_answer(line, first.end, width, several && width > 0)
        }
        Wanted::Number if word == b"value".as_slice() => number_answer(line, first.end),
        _ => Answer::Bad(Why::Word),
    }
}

/// The answer of a line that began with `end`, by its fields from a place on.
fn end_answer(line: &[u8], from: usize) -> Answer
    requires { from ≤ length line.now }
    ensures reply { told line.now result ≡ end_reply (fields (drop from line.now)) }
    ensures spans { NoSpans result }
{
    match field_from(line, from) {
        None => Answer::End,
        Some(_) => Answer::Bad(Why::Count),
    }
}

/// The answer of a line that began with `value`, by its fields from a place on.
fn number_answer(line: &[u8], from: usize) -> Answer
    requires { from ≤ length line.now }
    ensures reply { told line.now result ≡ number_reply (fields (drop from line.now)) }
    ensures spans { NoSpans result }
{
    let Some(field) = field_from(line, from) else {
        return Answer::Bad(Why::Count);
    };
    if field_from(line, field.end).is_some() {
        return Answer::Bad(Why::Count);
    }
    match number_of(&line[field.start..field.end]) {
        Some(number) => Answer::Value(number),
        None => Answer::Bad(Why::Value),
    }
}

/// The answer of a line that began with `yield`, by its fields from a place on.
fn yield_answer(line: &[u8], from: usize, width: usize, bars: bool) -> Answer
    requires from { from ≤ length line.now }
    requires line { length line.now ≤ LINE_LENGTH }
    requires width { width ≤ 8 }
    ensures reply { told line.now result
        ≡ yield_reply width (parted bars (fields (drop from line.now))) }
    ensures spans { IfYield result (AreSpans line.now width) }
{
    let Some(tuples) = count_tuples(line, from, width, bars) else {
        return Answer::Bad(Why::Count);
    };
    match mark_values(line, from, bars, tuples, width as u8) {
        Some(spans) => Answer::Yield(spans),
        None => Answer::Bad(Why::Value),
    }
}
