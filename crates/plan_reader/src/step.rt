//! The step that a line spells.
ghost use Rattle.std.specs.Prelude.{◌≡◌, drop, take};
ghost use Rattle.sexpr_text.specs.Trees.{tree, trees};
ghost use Rattle.plan_reader.specs.Steps as specs;
ghost use Rattle.plan_reader.specs.Steps.{LineGives};

use crate::fault::LineFault;
use crate::line::{behind, first_bytes, is_idle, step_bytes};
use form_reader::InputKind;
use sexpr_text::{Front, Node, TextFault, Tree, alone, front_of, read_tree};
use std::alloc::Global;
use std::cmp::min;
use task_model::{Name, Seq};
use task_reader::FaultKind;
use transcript_model::Call;

/// A word or a list that may not stand there, or one that is missing.
const MISSHAPED: LineFault = LineFault::Wrong(FaultKind::Input(InputKind::Shape));

/// The bytes of this place, as many as these; fewer where they end before.
fn bytes_at(bytes: &[u8], place: usize, count: usize) -> &[u8]
    ensures { result.now ≡ take count (drop place bytes.now) }
{
    let rest = behind(bytes, min(place, bytes.len()));
    first_bytes(rest, min(count, rest.len()))
}

/// The word that is read so at this place: a generated object's name as it stands in the bytes, and
/// any other in lower case.
fn word_as<'a>(bytes: &'a [u8], text: &'a [u8], place: usize) -> &'a [u8]
    ensures { result.now ≡ specs.word_as bytes.now text.now place }
{
    match text.split_first() {
        Some((first, _)) if *first == b'#' => bytes_at(bytes, place, text.len()),
        Some(_) | None => text,
    }
}

/// The words of a row of nothing else, in these bytes.
fn words_in(alloc: Global, bytes: &[u8], items: &[Node]) -> Result<Vec<Name>, LineFault>
    ensures { LineGives (λ words. words.items) result (specs.words_in bytes.now (trees items.now)) }
{
    let mut words = Vec::new(alloc);
    let mut left = items;
    'words: loop {
        match front_of(left) {
            Front::End => return Ok(words),
            Front::Word { text, place, rest } => {
                words.push(Name::from_slice(alloc, word_as(bytes, text, place))?)?;
                left = rest;
            }
            Front::List { .. } => return Err(MISSHAPED),
        }
    }
}

/// The step in a list: the name of an action, and those of objects.
fn call_in(alloc: Global, bytes: &[u8], items: &[Node]) -> Result<Call, LineFault>
    ensures { LineGives (λ call. call) result (specs.step_in bytes.now (trees items.now)) }
{
    let Front::Word { text, rest, .. } = front_of(items) else {
        return Err(MISSHAPED);
    };
    let name = Name::from_slice(alloc, text)?;
    let args = words_in(alloc, bytes, rest)?;
    Ok(Call {
        name,
        args: Seq::from_vec(args),
    })
}

/// The step that a tree is.
fn call_of(alloc: Global, bytes: &[u8], whole: &Tree) -> Result<Call, LineFault>
    ensures { LineGives (λ call. call) result (specs.step_of_tree bytes.now (tree whole.now)) }
{
    match alone(whole) {
        Front::List { items, .. } => call_in(alloc, bytes, items),
        Front::End | Front::Word { .. } => Err(MISSHAPED),
    }
}

/// The fault of a line whose step has this one.
fn line_fault(fault: TextFault) -> LineFault
    ensures { specs.IsFaultFor fault result }
{
    match fault {
        TextFault::BadByte(_) => LineFault::Wrong(FaultKind::BadByte),
        TextFault::Unclosed(_) => LineFault::Wrong(FaultKind::Unclosed),
        TextFault::Extra(_) => LineFault::Wrong(FaultKind::Extra),
        TextFault::TooDeep(_) => LineFault::Wrong(FaultKind::TooDeep),
        TextFault::Memory => LineFault::Memory,
    }
}

/// The step that the bytes spell.
fn call_spelled(alloc: Global, bytes: &[u8]) -> Result<Call, LineFault>
    ensures { LineGives (λ call. call) result (specs.call_spelled bytes.now) }
{
    match read_tree(alloc, bytes) {
        Ok(tree) => call_of(alloc, bytes, &tree),
        Err(fault) => Err(line_fault(fault)),
    }
}

/// What a line says: nothing, or a step.
pub(crate) fn said_by(alloc: Global, line: &[u8]) -> Result<Option<Call>, LineFault>
    ensures { LineGives (λ said. said) result (specs.said_by line.now) }
{
    if is_idle(line) {
        return Ok(None);
    }
    let call = call_spelled(alloc, step_bytes(line))?;
    Ok(Some(call))
}
