//! Whether a listing of steps keeps the order of a plan.
ghost use Rattle.std.specs.Prelude.{◌≡◌, ◌↔◌, ℕ, List, IfOk, IfSome, IfNone, IsTrue, is_none, length};
ghost use Rattle.std.specs.List.{list_all, list_any};
ghost use Rattle.plan_deorder.specs.Listed.{ArePlaces, IsNumberNoted, is_pair_kept, place_of_number};
ghost use Rattle.plan_deorder.specs.Orders.{IsOrderListing, Keeps};

use crate::order::Order;
use std::alloc::{AllocError, Global};

/// The place of a number, from 1, where it has one.
fn place_of(places: &[Option<usize>], number: u32) -> Option<usize>
    ensures { result ≡ place_of_number places.now number }
{
    let number = number as usize;
    if number == 0 || number > places.len() {
        None
    } else {
        places[number - 1]
    }
}

/// Gives the number its place, and answers whether it is one of those that have a place here and
/// had none yet.
fn note(places: &mut [Option<usize>], number: u32, place: usize) -> bool
    ensures count { length places.new ≡ length places.old }
    ensures noted { (listing : List ℕ) → length listing ≡ place → ArePlaces listing places.old
        → IsNumberNoted listing number places.new result }
{
    let slot = number as usize;
    if slot == 0 || slot > places.len() {
        return false;
    }
    match places[slot - 1] {
        Some(_) => false,
        None => {
            places[slot - 1] = Some(place);
            true
        }
    }
}

/// Whether a number has no place.
fn is_missing(places: &[Option<usize>]) -> bool
    ensures { result ≡ list_any is_none places.now }
{
    places.iter().any(|place| place.is_none())
}

/// The place in the listing of each number from 1 up to the count, or None where the listing isn't
/// of these numbers, each once. Fails only where memory is wanting.
fn places_of(
    alloc: Global,
    count: usize,
    listing: &[u32],
) -> Result<Option<Vec<Option<usize>>>, AllocError>
    ensures some { IfOk result (λ found. IfSome found (λ places. IsOrderListing count listing.now
        × ArePlaces listing.now places.items)) }
    ensures none { IfOk result (λ found. IfNone found (¬ (IsOrderListing count listing.now))) }
{
    let mut places = vec![in alloc; None; count]?;
    for (place, number) in listing.iter().enumerate() {
        if !note(places.as_mut_slice(), *number, place) {
            return Ok(None);
        }
    }
    if is_missing(places.as_slice()) {
        return Ok(None);
    }
    Ok(Some(places))
}

/// Whether the first of two numbers stands before the second, where both have a place.
fn is_before(places: &[Option<usize>], first: u32, second: u32) -> bool
    ensures { result ≡ is_pair_kept places.now (first, second) }
{
    match (place_of(places, first), place_of(places, second)) {
        (Some(first), Some(second)) => first < second,
        _ => true,
    }
}

/// Whether the first number of each pair stands before the second, where both have a place.
fn keep_all(places: &[Option<usize>], pairs: &[(u32, u32)]) -> bool
    ensures { result ≡ list_all (is_pair_kept places.now) pairs.now }
{
    pairs
        .iter()
        .all(|(first, second)| is_before(places, *first, *second))
}

/// Whether a listing of the steps, by their numbers from 1, has each once and keeps the order: the
/// first of each pair stands before the second. A pair of which a number isn't listed doesn't
/// matter. Fails only where memory is wanting.
pub fn keeps(alloc: Global, order: &Order, listing: &[u32]) -> Result<bool, AllocError>
    ensures { IfOk result (λ yes. IsTrue yes
        ↔ Keeps order.now.pairs (length order.now.stages) listing.now) }
{
    match places_of(alloc, order.stages.len(), listing)? {
        Some(places) => Ok(keep_all(places.as_slice(), order.pairs.as_slice())),
        None => Ok(false),
    }
}
