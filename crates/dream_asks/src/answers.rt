//! The answers to a dream's requests.
ghost use Rattle.std.specs.Prelude.{◌≡◌, ◌<◌, length, map, option_copied, position, IfOk, IfSome};
ghost use Rattle.std.specs.List.{find};
ghost use Rattle.dream_asks.specs.Noting as noting;
ghost use Rattle.dream_asks.specs.Noting.{HaveSameAnswers, objects_for};
ghost use Rattle.transcript_model.specs.Legal as legal;
ghost use Rattle.transcript_model.specs.Names.{generated};

use fact_store::Facts;
use learning::generated_name;
use shown_steps::objects_of;
use std::alloc::{AllocError, Global};
use task_model::{Name, Row};
use transcript_model::Entry;

/// Whether the entry answers the request of this number.
fn is_answer_to(entry: &Entry, number: u64) -> bool
    ensures { result ≡ legal.is_answer_to number entry.now }
{
    match entry {
        Entry::Got { number: n, .. } | Entry::Value { number: n, .. } | Entry::End { number: n } =>
            { number == u64::from(*n) }
        _ => false,
    }
}

/// The first answer to the request of this number.
fn answer_to(entries: &[Entry], number: u64) -> Option<&Entry>
    ensures { option_copied result ≡ find (legal.is_answer_to number) entries.now }
{
    entries.iter().find(|entry| is_answer_to(entry, number))
}

/// Whether the entry answers the request of this number or of a later one.
fn is_answer_from(entry: &Entry, number: u64) -> bool
    ensures { result ≡ noting.is_answer_from number entry.now }
{
    match entry {
        Entry::Got { number: n, .. } | Entry::Value { number: n, .. } | Entry::End { number: n } =>
            { number <= u64::from(*n) }
        _ => false,
    }
}

/// Where the first entry stands that answers the request of this number or of a later one.
fn place_from(entries: &[Entry], number: u64) -> Option<usize>
    ensures place { result ≡ position (noting.is_answer_from number) entries.now }
    ensures within { IfSome result (λ place. place < length entries.now) }
{
    entries
        .iter()
        .position(|entry| is_answer_from(entry, number))
}

/// The entries from the first on that answers the request of this number or of a later one.
pub(crate) fn answers_from(entries: &[Entry], number: u64) -> &[Entry]
    ensures { HaveSameAnswers number result.now entries.now }
{
    match place_from(entries, number) {
        Some(place) => &entries[place..],
        None => &[],
    }
}

/// The names of the objects that these values stand for.
fn names_of(alloc: Global, values: &[Name]) -> Result<Vec<Name>, AllocError>
    ensures { IfOk result (λ names. names.items ≡ map generated values.now) }
{
    let mut names = Vec::new(alloc);
    for value in values {
        let name = generated_name(alloc, value)?;
        names.push(name)?;
    }
    Ok(names)
}

/// The objects of the first tuple, of which so many are wanted, by which the request of this number
/// is answered, if one is. Fails only where memory is wanting.
pub(crate) fn first_objects(
    alloc: Global,
    facts: &Facts,
    entries: &[Entry],
    number: u64,
    width: usize,
) -> Result<Option<Row>, AllocError>
    ensures { IfOk result (λ row. row
        ≡ objects_for facts.now.known.names entries.now number width) }
{
    let Some(Entry::Got { values, .. }) = answer_to(entries, number) else {
        return Ok(None);
    };
    let values = values.as_slice();
    let count = width.min(values.len());
    let names = names_of(alloc, &values[..count])?;
    objects_of(alloc, facts, names.as_slice())
}
