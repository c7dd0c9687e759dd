//! Which stream feeds which.
ghost use Rattle.std.specs.Prelude.{◌≡◌, ◌==◌, ◌&&◌, ◌||◌, not, [], option_map, unwrap_or, slice_get};
ghost use Rattle.std.specs.List.{list_any};
ghost use Rattle.task_model.specs.Fit as fit;
ghost use Rattle.task_model.specs.Truth.{is_slot as names_slot};

use crate::condition::Term;
use crate::domain::{Domain, Pattern};
use crate::stream::Stream;

/// Whether the term is the slot.
fn is_slot(slot: usize, term: Term) -> bool
    ensures { result ≡ names_slot slot term }
{
    match term {
        Term::Slot(number) => number as usize == slot,
        Term::Object(_) => false,
    }
}

/// Whether the slot is one of the terms.
fn has_slot(slot: usize, terms: &[Term]) -> bool
    ensures { result ≡ list_any (names_slot slot) terms.now }
{
    terms.iter().any(|term| is_slot(slot, *term))
}

/// Whether the slot stands in one of the atoms.
fn is_used(slot: usize, patterns: &[Pattern]) -> bool
    ensures { result ≡ list_any (λ p. list_any (names_slot slot) p.args) patterns.now }
{
    patterns
        .iter()
        .any(|pattern| has_slot(slot, pattern.args.as_slice()))
}

/// The proper supertypes of the type, and none where there is no such type.
pub fn supertypes(domain: &Domain, sort: u32) -> &[u32]
    ensures { result.now ≡ unwrap_or (option_map (λ s. s.above) (slice_get domain.now.sorts sort))
        [] }
{
    match domain.sorts.as_slice().get(sort as usize) {
        Some(declared) => declared.above.as_slice(),
        None => &[],
    }
}

/// Whether what has the second type has the first.
fn is_type_of(domain: &Domain, input: u32, output: u32) -> bool
    ensures { result ≡ fit.is_type_of domain.now input output }
{
    output == input || supertypes(domain, output).contains(&input) || input == 0
}

/// Whether an output of this type may be the input in this slot. The type `object` counts only for
/// an input that stands in no domain fact.
fn feeds(domain: &Domain, second: &Stream, slot: usize, input: u32, output: u32) -> bool
    ensures { result ≡ (fit.is_type_of domain.now input output
        && (not (input == 0) || not (fit.is_used slot second.now.domain))) }
{
    is_type_of(domain, input, output) && (input != 0 || !is_used(slot, second.domain.as_slice()))
}

/// Whether an output of this type may be an input of the stream.
fn is_fed(domain: &Domain, second: &Stream, output: u32) -> bool
    ensures { result ≡ fit.is_fed domain.now second.now 0 second.now.inputs output }
{
    for (slot, input) in second.inputs.as_slice().iter().enumerate() {
        if feeds(domain, second, slot, *input, output) {
            return true;
        }
    }
    false
}

/// Whether one of these is an atom of the predicate.
pub fn has_atom_of(pred: usize, patterns: &[Pattern]) -> bool
    ensures { result ≡ list_any (λ p. p.pred == pred) patterns.now }
{
    patterns.iter().any(|pattern| pattern.pred as usize == pred)
}

/// Whether what the first certifies may be what the second asks for.
fn certifies_for(first: &Stream, second: &Stream) -> bool
    ensures { result ≡ list_any (λ p. list_any (λ q. q.pred == p.pred) second.now.domain)
        first.now.certified }
{
    first.certified.as_slice().iter().any(|pattern| has_atom_of(
        pattern.pred as usize,
        second.domain.as_slice(),
    ))
}

/// Whether an output of the first may be an input of the second.
fn gives_to(domain: &Domain, first: &Stream, second: &Stream) -> bool
    ensures { result ≡ list_any (fit.is_fed domain.now second.now 0 second.now.inputs)
        first.now.outputs }
{
    first
        .outputs
        .as_slice()
        .iter()
        .any(|output| is_fed(domain, second, *output))
}

/// Whether the first stream leads to the second in one step: it certifies a predicate for which the
/// second asks, or an output may be an input of the second, by their types.
pub fn stream_leads(domain: &Domain, first: &Stream, second: &Stream) -> bool
    ensures { result ≡ fit.stream_leads domain.now first.now second.now }
{
    certifies_for(first, second) || gives_to(domain, first, second)
}
