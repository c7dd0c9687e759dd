//! From which answers values came.
ghost use Rattle.std.specs.Prelude.{◌≡◌, ◌⊎◌, ◌++◌, ◌∷◌, [], ℕ, List, map, true, false, All, IfOk};
ghost use Rattle.shown_plan.specs.Sources.{AreSources, HasBest, IsBest, IsEven, found_in, is_generated};
ghost use Rattle.task_model.specs.Known.{same_numbers};
ghost use Rattle.transcript_model.specs.Names.{generated};
ghost use Rattle.transcript_model.specs.declared.entry.Entry.{Entry as AnyEntry};

use crate::source::{Source, earlier, source_in};
use indexmap::IndexMap;
use std::alloc::{AllocError, Global};
use std::collections::BTreeSet;
use transcript_model::Entry;

/// The values that are sought, each with its source, as far as an answer that was looked at has it.
pub(crate) type Sources<'a> = IndexMap<&'a [u8], Option<Source>>;

/// The value of a generated object: its name without the `#`.
fn value_of(name: &[u8]) -> &[u8]
    requires { is_generated name.now ≡ true }
    ensures { name.now ≡ generated result.now }
{
    &name[1..]
}

/// The source of the value, as far as it is known.
pub(crate) fn source_of(sources: &Sources<'_>, name: &[u8]) -> Option<Source>
    requires { is_generated name.now ≡ true }
    ensures { (entries : List AnyEntry) (value : List ℕ) → name.now ≡ generated value
        → HasBest entries value (found_in (λ k. k.now) sources.now value)
        → IsBest entries value result }
{
    *sources.get(value_of(name))?
}

/// The values of these generated objects, each without a source.
fn sought<'a>(alloc: Global, names: &BTreeSet<&'a [u8]>) -> Result<Sources<'a>, AllocError>
    requires { All (λ n. is_generated n ≡ true) (map (λ n. n.now) names.now.keys) }
    ensures { IfOk result (AreSources (λ k. k.now) (map (λ n. n.now) names.now.keys) []) }
{
    let mut sources = IndexMap::with_capacity(alloc, names.len())?;
    for name in names {
        sources.insert(value_of(*name), None)?;
    }
    Ok(sources)
}

/// Takes the entry for the value's source where the value is sought and no lesser request's answer
/// has it.
fn note_value(sources: &mut Sources<'_>, entry: &Entry, value: &[u8])
    requires { IsEven entry.now }
    ensures here { (before : List AnyEntry)
        → HasBest before value.now (found_in (λ k. k.now) sources.old value.now)
        ⊎ HasBest (before ++ entry.now ∷ []) value.now (found_in (λ k. k.now) sources.old value.now)
        → HasBest (before ++ entry.now ∷ []) value.now
        (found_in (λ k. k.now) sources.new value.now) }
    ensures others { (other : List ℕ) → same_numbers other value.now ≡ false
        → found_in (λ k. k.now) sources.new other ≡ found_in (λ k. k.now) sources.old other }
{
    if let Some(best) = sources.get_mut(value) {
        *best = earlier(*best, source_in(entry, value));
    }
}

/// Goes on by one entry.
fn note_entry(sources: &mut Sources<'_>, entry: &Entry)
    requires { IsEven entry.now }
    ensures { (names : List (List ℕ)) (before : List AnyEntry)
        → AreSources (λ k. k.now) names before sources.old
        → AreSources (λ k. k.now) names (before ++ entry.now ∷ []) sources.new }
{
    if let Entry::Got { values, .. } = entry {
        for value in values.as_slice() {
            note_value(sources, entry, value.bytes());
        }
    }
}

/// The values of these generated objects with their sources.
pub(crate) fn sources_of<'a>(
    alloc: Global,
    entries: &[Entry],
    names: &BTreeSet<&'a [u8]>,
) -> Result<Sources<'a>, AllocError>
    requires even { All IsEven entries.now }
    requires names { All (λ n. is_generated n ≡ true) (map (λ n. n.now) names.now.keys) }
    ensures { IfOk result (AreSources (λ k. k.now) (map (λ n. n.now) names.now.keys) entries.now) }
{
    let mut sources = sought(alloc, names)?;
    for entry in entries {
        note_entry(&mut sources, entry);
    }
    Ok(sources)
}
