//! Where a join starts.
ghost use Rattle.std.specs.Prelude.{◌≤◌, length, OnOk, IfErr};
ghost use Rattle.fact_join.specs.Answers.{IsAskable, AddsAnswers, LacksAnswers};
ghost use Rattle.task_model.specs.declared.limits.TheConstants.{SLOTS};

use crate::joins;
use crate::listed::Listed;
use crate::partial::Partial;
use crate::query::{JoinFault, Query, QueryAtom, Wanted};
use task_model::{Look, Objects, Term};

/// The first term as a slot, where all terms of the atom are free slots.
fn free_start(partial: &Partial, atom: &QueryAtom<'_>) -> Option<u8> {
    let mut start = None;
    for term in atom.terms {
        let Term::Slot(slot) = *term else {
            return None;
        };
        if partial.slots.as_slice().get(slot as usize)?.is_some() {
            return None;
        }
        start = start.or(Some(slot));
    }
    start
}

/// The type whose objects the join goes through first, if it begins so and goes on from there.
/// Nothing that is found rests on it.
fn first_sort<L: Look, W: Wanted>(
    query: &Query<'_, L, W>,
    partial: &Partial,
    atoms: &[QueryAtom<'_>],
) -> Option<u32>
    requires { length query.now.sorts.now ≤ SLOTS }
{
    if query.sorts.len() < 2 {
        return None;
    }
    let slot = match atoms.first() {
        Some(atom) => free_start(partial, atom)?,
        None => partial.free_slot(query.sorts.len())?,
    };
    query.sorts.get(slot as usize).copied()
}

/// Puts behind the rows all tuples that agree with the partial one, have the query's types, make
/// all atoms known facts and are wanted, each once, in no particular order. Fails where more rows
/// than the query's most would stand there, and where memory is wanting.
pub fn join<L: Look, W: Wanted, const N: usize>(
    query: &Query<'_, L, W>,
    partial: &Partial,
    atoms: &[QueryAtom<'_>],
    rows: &mut Vec<Objects<N>>,
) -> Result<(), JoinFault>
    requires query { IsAskable query.now.sorts.now (W.can_judge query.now.wanted.now) atoms.now }
    requires few { length rows.old.items ≤ query.now.most }
    ensures found { OnOk result (AddsAnswers (L.known query.now.look.now) query.now.sorts.now
        (W.wants query.now.wanted.now) partial.now atoms.now rows.old.items rows.new.items) }
    ensures few { OnOk result (length rows.new.items ≤ query.now.most) }
    ensures fault { IfErr result (LacksAnswers query.now.most (L.known query.now.look.now)
        query.now.sorts.now (W.wants query.now.wanted.now) partial.now atoms.now rows.old.items) }
{
    let sort = first_sort(query, partial, atoms);
    let listed = Listed::new(query.alloc, query.look, sort)?;
    let query = Query {
        look: &listed,
        sorts: query.sorts,
        wanted: query.wanted,
        most: query.most,
        alloc: query.alloc,
    };
    joins::join(&query, partial, atoms, rows)
}
