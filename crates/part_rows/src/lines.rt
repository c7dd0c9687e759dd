//! Lines that generators send.
ghost use Rattle.std.specs.Prelude.{◌≡◌, ◌≤◌, length};
ghost use Rattle.std.specs.Bool.{OnFalse, OnTrue};
ghost use Rattle.std.specs.List.{after_first};
ghost use Rattle.gen_lines.specs.Lines.{is_feed};
ghost use Rattle.gen_lines.specs.Told.{IsNarrow};
ghost use Rattle.gen_lines.specs.declared.line_buf.TheConstants.{LINE_LENGTH};

use crate::out::Out;
use gen_lines::{Answer, LINE_BYTES, LINE_LENGTH, LineBuf, Seen, Wanted, Why, answer_of};
use std::alloc::Global;

/// So many values to a tuple, and one tuple or several.
fn outputs(width: usize, several: bool) -> Wanted
    requires { width ≤ 8 }
    ensures { IsNarrow result }
{
    Wanted::Outputs { width, several }
}

/// What is wanted: tuples of no value, of one or of two, one tuple or several; or a number.
fn wanted_of(word: &[u8]) -> Wanted
    ensures { IsNarrow result }
{
    match word {
        b"test" => outputs(0, false),
        b"one" => outputs(1, false),
        b"tests" => outputs(0, true),
        b"ones" => outputs(1, true),
        b"pairs" => outputs(2, true),
        _ => Wanted::Number,
    }
}

/// Writes the number and the name of a cause.
fn write_why(out: &mut Out, why: Why) {
    out.print(why as u8);
    out.put(" ");
    out.show(why);
}

/// Writes what a line answers: how many tuples, and all their values; a number; that there is no
/// more; or why it is no answer.
fn write_answer(out: &mut Out, line: &[u8], wanted: Wanted)
    requires line { length line.now ≤ LINE_LENGTH }
    requires wanted { IsNarrow wanted }
{
    match answer_of(line, wanted) {
        Answer::Yield(spans) => {
            out.put("yield ");
            out.print(spans.tuples);
            out.put(":");
            for value in 0..spans.count() {
                out.put(" ");
                out.put_bytes(spans.text(line, value));
            }
        }
        Answer::Value(number) => {
            out.put("value ");
            out.print(number);
        }
        Answer::End => out.put("end"),
        Answer::Bad(why) => {
            out.put("bad ");
            write_why(out, why);
        }
    }
}

/// Writes what a line answers to a request of this kind.
pub(crate) fn write_answered(out: &mut Out, kind: &[u8], line: &[u8]) {
    if line.len() > LINE_LENGTH {
        return out.put("too long");
    }
    write_answer(out, line, wanted_of(kind));
}

/// Writes the number and the name of the cause with this name.
pub(crate) fn write_cause(out: &mut Out, name: &[u8]) {
    let why = match name {
        b"word" => Why::Word,
        b"count" => Why::Count,
        b"value" => Why::Value,
        _ => Why::TooLong,
    };
    write_why(out, why);
}

/// Takes out the lines that are there, and writes each.
fn write_taken(out: &mut Out, buf: &mut LineBuf) {
    for _ in 0..LINE_BYTES {
        match buf.next_line() {
            Seen::Line(line) => {
                out.quote(line);
                out.put(" ");
            }
            Seen::Part | Seen::TooLong => return,
        }
    }
}

/// Pushes bytes in pieces of this size, and writes the lines that come and what is held in the end.
fn write_pieces(out: &mut Out, buf: &mut LineBuf, size: usize, bytes: &[u8]) {
    for piece in bytes.chunks(size.max(1)) {
        if piece.len() > buf.room() {
            return out.put("no room");
        }
        buf.push(piece);
        write_taken(out, buf);
    }
    out.show(buf.next_line());
}

/// Writes that of a new buffer.
pub(crate) fn write_cut(alloc: Global, out: &mut Out, size: usize, bytes: &[u8]) {
    match LineBuf::new(alloc) {
        Ok(mut buf) => write_pieces(out, &mut buf, size, bytes),
        Err(_) => out.lose(),
    }
}

/// Takes a line out, if there is one: a caller knows what stays.
fn take_line(buf: &mut LineBuf) -> bool
    ensures taken { OnTrue result (buf.new ≡ after_first is_feed buf.old) }
    ensures left { OnFalse result (buf.new ≡ buf.old) }
{
    match buf.next_line() {
        Seen::Line(_) => true,
        Seen::Part | Seen::TooLong => false,
    }
}

/// Writes the room that is left.
fn write_room(out: &mut Out, buf: &LineBuf) {
    out.put(", room ");
    out.print(buf.room());
}

/// Takes what comes next, and writes it: of a line its length, its letters and what it answers
/// where a number is wanted.
fn write_next(out: &mut Out, buf: &mut LineBuf) {
    out.put("; ");
    match buf.next_line() {
        Seen::Line(line) => {
            out.print(line.len());
            out.put(" bytes, ");
            out.put_bytes(line.trim_ascii());
            out.put(": ");
            write_answered(out, b"number", line);
        }
        seen => out.show(seen),
    }
    write_room(out, buf);
}

/// Pushes bytes, and writes the room that is left; then takes three times what comes next; and then
/// a line, if there is one.
fn write_push(out: &mut Out, buf: &mut LineBuf, bytes: &[u8]) {
    if bytes.len() > buf.room() {
        return out.put("no room");
    }
    buf.push(bytes);
    out.put("push of ");
    out.print(bytes.len());
    write_room(out, buf);
    for _ in 0..3 {
        write_next(out, buf);
    }
    out.put(if take_line(buf) {
        "; a line left"
    } else {
        "; no line left"
    });
    write_room(out, buf);
}

/// Writes that for each of these texts, in turn.
fn write_all(out: &mut Out, buf: &mut LineBuf, texts: &[Vec<u8>]) {
    for text in texts {
        if !out.is_empty() {
            out.put("\n");
        }
        write_push(out, buf, text);
    }
}

/// Writes that of a new buffer.
pub(crate) fn write_pushes(alloc: Global, out: &mut Out, texts: &[Vec<u8>]) {
    match LineBuf::new(alloc) {
        Ok(mut buf) => write_all(out, &mut buf, texts),
        Err(_) => out.lose(),
    }
}
