//! Types.
ghost use Rattle.std.specs.Prelude.{◌≡◌, ◌==◌, slice_get};
ghost use Rattle.std.specs.List.{list_any, list_all};
ghost use Rattle.task_model.specs.Fit as fit;
ghost use Rattle.fit_check.specs.Tests as tests;

use crate::lists::{are_places, is_short};
use crate::names::are_named;
use task_model::Sort;

/// Whether the number is among these.
fn is_among(number: usize, numbers: &[u32]) -> bool
    ensures { result ≡ list_any (λ n. n == number) numbers.now }
{
    numbers.iter().any(|n| *n as usize == number)
}

/// Whether the first type is `object`, which has no supertypes.
fn begins_with_object(sorts: &[Sort]) -> bool
    ensures { result ≡ tests.is_object (slice_get sorts.now 0) }
{
    match sorts.first() {
        Some(first) => first.name.bytes() == b"object".as_slice() && first.above.is_empty(),
        None => false,
    }
}

/// Whether all supertypes are types.
fn have_supertypes(size: usize, sorts: &[Sort]) -> bool
    ensures { result ≡ list_all (λ s. fit.are_places size s.above) sorts.now }
{
    sorts
        .iter()
        .all(|sort| are_places(size, sort.above.as_slice()))
}

/// Whether no type is its own supertype.
fn are_proper(sorts: &[Sort]) -> bool
    ensures { result ≡ tests.are_proper 0 sorts.now }
{
    for (place, sort) in sorts.iter().enumerate() {
        if is_among(place, sort.above.as_slice()) {
            return false;
        }
    }
    true
}

/// Whether all of these numbers are among the others.
fn are_among(numbers: &[u32], others: &[u32]) -> bool
    ensures { result ≡ list_all (λ b. list_any (λ n. n == b) others.now) numbers.now }
{
    numbers
        .iter()
        .all(|number| is_among(*number as usize, others))
}

/// Whether the supertypes of this type, if there is one, are among these.
fn has_above(sorts: &[Sort], place: u32, above: &[u32]) -> bool
    ensures { result ≡ tests.are_among (slice_get sorts.now place) above.now }
{
    match sorts.get(place as usize) {
        Some(sort) => are_among(sort.above.as_slice(), above),
        None => true,
    }
}

/// Whether the type has the supertypes of its supertypes.
fn is_closed(sorts: &[Sort], sort: &Sort) -> bool
    ensures { result ≡ tests.is_closed sorts.now sort.now }
{
    let above = sort.above.as_slice();
    above.iter().all(|place| has_above(sorts, *place, above))
}

/// Whether each type is so.
fn are_closed(sorts: &[Sort]) -> bool
    ensures { result ≡ list_all (tests.is_closed sorts.now) sorts.now }
{
    sorts.iter().all(|sort| is_closed(sorts, sort))
}

/// Whether these may be a domain's types.
pub(crate) fn are_fit_sorts(sorts: &[Sort]) -> bool
    ensures { result ≡ tests.are_fit_sorts sorts.now }
{
    is_short(sorts)
        && begins_with_object(sorts)
        && have_supertypes(sorts.len(), sorts)
        && are_proper(sorts)
        && are_closed(sorts)
        && are_named(sorts)
}
