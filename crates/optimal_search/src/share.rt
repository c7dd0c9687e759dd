//! Goal atoms, and what is to be paid for each.
ghost use Rattle.std.specs.Prelude.{◌≡◌, IfOk, map};
ghost use Rattle.task_model.specs.State.{contains, items};
ghost use Rattle.optimal_search.specs.Share.{goals_of, is_named as is_named_by, lesser as lesser_if, lowered, met, owed as owed_for};

use std::alloc::{AllocError, Global};
use task_model::{Atom, Pattern, State};

/// A goal atom, and what a step pays for it at least, in parts of a cost of 1.
#[derive(Drop)]
pub(crate) struct Share {
    goal: Atom,
    part: u64,
}

/// The goal's atoms, for each of which the greatest number is to be paid. Fails only where memory is
/// wanting.
pub(crate) fn greatest(alloc: Global, goals: &State) -> Result<Vec<Share>, AllocError>
    ensures { IfOk result (λ shares. goals_of shares.items ≡ items goals.now) }
{
    let mut shares = Vec::with_capacity(alloc, goals.len())?;
    for atom in goals.as_slice() {
        let goal = atom.copy()?;
        let part = u64::MAX;
        shares.push(Share { goal, part })?;
    }
    Ok(shares)
}

/// How many of the goal's atoms come.
pub(crate) fn count_met(shares: &[Share], come: &State) -> usize
    ensures { result ≡ met shares.now (contains come.now) }
{
    let mut count: usize = 0;
    for share in shares {
        if come.has(&share.goal) {
            count += 1;
        }
    }
    count
}

/// This, or `most` if that is less and the atom comes.
fn lesser(part: u64, most: u64, comes: bool) -> u64
    ensures { result ≡ lesser_if comes part most }
{
    if comes { part.min(most) } else { part }
}

/// For each atom that comes so much is to be paid at most.
pub(crate) fn lower(shares: &mut [Share], come: &State, most: u64)
    ensures { shares.new ≡ map (lowered (contains come.now) most) shares.old }
{
    for share in shares.iter_mut() {
        share.part = lesser(share.part, most, come.has(&share.goal));
    }
}

/// Whether one of the patterns has the atom's predicate.
fn is_named(adds: &[Pattern], atom: &Atom) -> bool
    ensures { result ≡ is_named_by adds.now atom.now }
{
    adds.iter().any(|pattern| pattern.pred == atom.pred)
}

/// For each atom whose predicate one of the patterns has so much is to be paid at most.
pub(crate) fn lower_named(shares: &mut [Share], adds: &[Pattern], most: u64)
    ensures { shares.new ≡ map (lowered (is_named_by adds.now) most) shares.old }
{
    for share in shares.iter_mut() {
        share.part = lesser(share.part, most, is_named(adds, &share.goal));
    }
}

/// What is to be paid for the atoms that the state lacks, together.
pub(crate) fn owed(shares: &[Share], state: &State) -> u128
    ensures { result ≡ owed_for shares.now (contains state.now) }
{
    let mut total: u128 = 0;
    for share in shares {
        if !state.has(&share.goal) {
            total += u128::from(share.part);
        }
    }
    total
}
