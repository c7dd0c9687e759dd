//! Answers as lines.
ghost use Rattle.std.specs.Prelude.{◌≡◌, ◌+◌, ◌≤◌, [], ◌∷◌, ◌++◌, length};
ghost use Rattle.std.specs.Fmt.{decimal};
ghost use Rattle.io_world.specs.Replies.{IsLine};
ghost use Rattle.grid_world.specs.AnswerLines.{line_of_answer, side_line};

use crate::answer::{GridAnswer, Side};
use arrayvec::ArrayString;
use itoa::Buffer;

/// The most bytes of an answer's line with its line feed.
pub(crate) const ANSWER_BYTES: usize = 32;

/// The line of an answer, with its line feed. It takes no memory.
pub(crate) fn answer_line(answer: GridAnswer) -> ArrayString<ANSWER_BYTES>
    ensures line { result.bytes ≡ line_of_answer answer ++ 10 ∷ [] }
    ensures one { IsLine (line_of_answer answer) }
{
    match answer {
        GridAnswer::Pose { x, y } => pair_line("yield ", x, y),
        GridAnswer::Side(side) => word_line(side_text(side)),
        GridAnswer::Hand { x, y } => pair_line("yield h", x, y),
        GridAnswer::Yes => word_line("yield\n"),
        GridAnswer::End => word_line("end\n"),
    }
}

fn side_text(side: Side) -> &'static str
    ensures line { result.now ≡ side_line side ++ 10 ∷ [] }
    ensures short { length result.now ≤ 8 }
{
    match side {
        Side::N => "yield n\n",
        Side::E => "yield e\n",
        Side::S => "yield s\n",
        Side::W => "yield w\n",
    }
}

fn word_line(text: &str) -> ArrayString<ANSWER_BYTES>
    requires { length text.now ≤ 8 }
    ensures { result.bytes ≡ text.now }
{
    let mut line = ArrayString::new();
    line.push_str(text);
    line
}

fn pair_line(word: &str, x: u32, y: u32) -> ArrayString<ANSWER_BYTES>
    requires short { length word.now ≤ 8 }
    requires line { IsLine word.now }
    ensures line { result.bytes ≡ word.now ++ decimal x ++ 44 ∷ [] ++ decimal y ++ 10 ∷ [] }
    ensures one { IsLine (word.now ++ decimal x ++ 44 ∷ [] ++ decimal y) }
{
    let mut line = ArrayString::new();
    line.push_str(word);
    push_number(&mut line, x);
    line.push_str(",");
    push_number(&mut line, y);
    line.push_str("\n");
    line
}

/// Writes a number of at most ten digits.
fn push_number(line: &mut ArrayString<ANSWER_BYTES>, number: u32)
    requires { length line.old.bytes ≤ 20 }
    ensures bytes { line.new.bytes ≡ line.old.bytes ++ decimal number }
    ensures short { length line.new.bytes ≤ length line.old.bytes + 10 }
{
    let mut buffer = Buffer::new();
    let text = buffer.format(number);
    line.push_str(text);
}
