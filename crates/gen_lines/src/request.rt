//! What a generator is sent for an instance.
ghost use Rattle.std.specs.Prelude.{◌≡◌, ◌∷◌, ◌++◌, IfOk, OnOk};
ghost use Rattle.gen_lines.specs.Request.{IsNamed, request_of};

use std::alloc::{AllocError, Global};
use task_model::{Instance, Look, Task};

/// The request for the next answer of an instance, of which it has given `number` tuples: the line
/// `next`, that number, the stream and the inputs by name, with single spaces, and its line feed.
/// Fails only where memory is wanting.
pub fn request_text<L: Look>(
    alloc: Global,
    task: &Task,
    look: &L,
    number: u32,
    instance: &Instance,
) -> Result<Vec<u8>, AllocError>
    requires { IsNamed task.now (L.known look.now).names instance.now }
    ensures { IfOk result (λ text. text.items
        ≡ request_of task.now (L.known look.now).names number instance.now) }
{
    let mut text = Vec::from_slice(alloc, b"next")?;
    push_word(&mut text, number.to_string(alloc)?.as_bytes())?;
    let stream = &task.streams.as_slice()[instance.stream as usize];
    push_word(&mut text, stream.name.bytes())?;
    for object in instance.inputs.as_slice() {
        push_word(&mut text, look.name(*object).bytes())?;
    }
    text.push(b'\n')?;
    Ok(text)
}

/// Writes a space and a word behind the others.
fn push_word(text: &mut Vec<u8>, word: &[u8]) -> Result<(), AllocError>
    ensures { OnOk result (text.new.items ≡ text.old.items ++ 32 ∷ word.now) }
{
    text.push(b' ')?;
    text.extend_from_slice(word)
}
