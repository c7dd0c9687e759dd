//! What came of a plan, as text.
ghost use Rattle.std.specs.Prelude.{◌≡◌, ◌++◌, ◌∷◌, IfOk, OnOk, map};
ghost use Rattle.std.specs.Fmt.{decimal};
ghost use Rattle.report_text.specs.Texts.{line_text, lines_text};
ghost use Rattle.grid_play.specs.Texts as specs;

use crate::play::{Mark, Play, PlayVerdict};
use std::alloc::{AllocError, Global};

/// The lines of a plan that was acted out: `held I B` or `at I B X Y` for each mark; then `safe`, or
/// the fault as `strange I`, `outside I B`, `obstacle I B` or `clash I B C`; then `done`. Fails only
/// where memory is wanting.
pub fn play_text(alloc: Global, play: &Play) -> Result<Vec<u8>, AllocError>
    ensures { IfOk result (λ text. text.items ≡ specs.play_text play.now) }
{
    let mut text = Vec::new(alloc);
    push_marks(alloc, &mut text, play.marks.as_slice())?;
    push_verdict(alloc, &mut text, &play.verdict)?;
    text.extend_from_slice(b"done\n")?;
    Ok(text)
}

fn push_marks(alloc: Global, text: &mut Vec<u8>, marks: &[Mark]) -> Result<(), AllocError>
    ensures { OnOk result (text.new.items
        ≡ text.old.items ++ lines_text (map specs.mark_line marks.now)) }
{
    for mark in marks {
        push_mark(alloc, text, mark)?;
    }
    Ok(())
}

fn push_mark(alloc: Global, text: &mut Vec<u8>, mark: &Mark) -> Result<(), AllocError>
    ensures { OnOk result (text.new.items ≡ text.old.items ++ line_text (specs.mark_line mark.now)) }
{
    match mark {
        Mark::Held { step, block } => push_begun(alloc, text, b"held", *step, block.bytes())?,
        Mark::Placed { step, block, x, y } => {
            push_begun(alloc, text, b"at", *step, block.bytes())?;
            push_number(alloc, text, *x)?;
            push_number(alloc, text, *y)?;
        }
    }
    text.extend_from_slice(b"\n")
}

fn push_verdict(alloc: Global, text: &mut Vec<u8>, verdict: &PlayVerdict) -> Result<(), AllocError>
    ensures { OnOk result (text.new.items
        ≡ text.old.items ++ line_text (specs.verdict_line verdict.now)) }
{
    match verdict {
        PlayVerdict::Safe => text.extend_from_slice(b"safe")?,
        PlayVerdict::Strange { step } => {
            text.extend_from_slice(b"strange")?;
            push_number(alloc, text, *step)?;
        }
        PlayVerdict::Outside { step, block } => {
            push_begun(alloc, text, b"outside", *step, block.bytes())?;
        }
        PlayVerdict::Obstacle { step, block } => {
            push_begun(alloc, text, b"obstacle", *step, block.bytes())?;
        }
        PlayVerdict::Clash {
            step,
            first,
            second,
        } => {
            push_begun(alloc, text, b"clash", *step, first.bytes())?;
            push_field(text, second.bytes())?;
        }
    }
    text.extend_from_slice(b"\n")
}

/// Writes a word, a step's number and a block's name, with single spaces.
fn push_begun(
    alloc: Global,
    text: &mut Vec<u8>,
    word: &[u8],
    step: u32,
    block: &[u8],
) -> Result<(), AllocError>
    ensures { OnOk result (text.new.items
        ≡ text.old.items ++ word.now ++ 32 ∷ decimal step ++ 32 ∷ block.now) }
{
    text.extend_from_slice(word)?;
    push_number(alloc, text, step)?;
    push_field(text, block)
}

/// Writes a space and a number.
fn push_number(alloc: Global, text: &mut Vec<u8>, number: u32) -> Result<(), AllocError>
    ensures { OnOk result (text.new.items ≡ text.old.items ++ 32 ∷ decimal number) }
{
    push_field(text, number.to_string(alloc)?.as_bytes())
}

/// Writes a space and a field.
fn push_field(text: &mut Vec<u8>, field: &[u8]) -> Result<(), AllocError>
    ensures { OnOk result (text.new.items ≡ text.old.items ++ 32 ∷ field.now) }
{
    text.push(b' ')?;
    text.extend_from_slice(field)
}
