//! The join.
ghost use Rattle.std.specs.Prelude.{[], ◌↔◌, IsTrue, ◌≡◌, ◌≤◌, ◌<◌, ◌∷◌, length, Some, None, OnOk, IfErr, slice_get};
ghost use Rattle.fact_join.specs.Adding.{Adds, ComesOf};
ghost use Rattle.fact_join.specs.Answers.{IsAnswer, IsAskable, AddsAnswers, LacksAnswers, IsAnswerBy};
ghost use Rattle.fact_join.specs.Leads.{IsLead};
ghost use Rattle.fact_join.specs.Partials.{AreFixed};
ghost use Rattle.task_model.specs.Known.{atom_fact};

use crate::front::{Front, front_of};
use crate::lead::{Lead, lead_of};
use crate::partial::Partial;
use crate::query::{JoinFault, Query, QueryAtom, Wanted};
use formula_eval::have_types;
use task_model::{Look, Obj, Objects};

/// Puts all answers behind the rows, each once.
#[cycle(join)]
pub(crate) fn join<L: Look, W: Wanted, const N: usize>(
    query: &Query<'_, L, W>,
    partial: &Partial,
    atoms: &[QueryAtom<'_>],
    rows: &mut Vec<Objects<N>>,
) -> Result<(), JoinFault>
    requires query { IsAskable query.now.sorts.now (W.can_judge query.now.wanted.now) atoms.now }
    requires few { length rows.old.items ≤ query.now.most }
    ensures found { OnOk result (AddsAnswers (L.known query.now.look.now) query.now.sorts.now
        (W.wants query.now.wanted.now) partial.now atoms.now rows.old.items rows.new.items) }
    ensures few { OnOk result (length rows.new.items ≤ query.now.most) }
    ensures fault { IfErr result (LacksAnswers query.now.most (L.known query.now.look.now)
        query.now.sorts.now (W.wants query.now.wanted.now) partial.now atoms.now rows.old.items) }
{
    match front_of(query, partial, atoms)? {
        Front::Unknown => Ok(()),
        Front::Known => match partial.free_slot(query.sorts.len()) {
            Some(slot) => branch(query, partial, slot, &[], rows),
            None => add_answer(query, partial, rows),
        },
        Front::Free { slot, left } => join_left(query, partial, slot, left, rows),
    }
}

/// Goes on with the facts of the first atom that has a fixed term, if it has one, and else with
/// each object in the slot, which is free.
#[cycle(join)]
fn join_left<L: Look, W: Wanted, const N: usize>(
    query: &Query<'_, L, W>,
    partial: &Partial,
    slot: u8,
    atoms: &[QueryAtom<'_>],
    rows: &mut Vec<Objects<N>>,
) -> Result<(), JoinFault>
    requires query { IsAskable query.now.sorts.now (W.can_judge query.now.wanted.now) atoms.now }
    requires width { slot < length query.now.sorts.now }
    requires free { slice_get partial.now.slots slot ≡ Some None }
    requires few { length rows.old.items ≤ query.now.most }
    ensures found { OnOk result (AddsAnswers (L.known query.now.look.now) query.now.sorts.now
        (W.wants query.now.wanted.now) partial.now atoms.now rows.old.items rows.new.items) }
    ensures few { OnOk result (length rows.new.items ≤ query.now.most) }
    ensures fault { IfErr result (LacksAnswers query.now.most (L.known query.now.look.now)
        query.now.sorts.now (W.wants query.now.wanted.now) partial.now atoms.now rows.old.items) }
{
    if let Some((atom, rest)) = atoms.split_first() {
        if let Some(lead) = lead_of(query.look, partial, atom) {
            return follow(query, partial, atom, &lead, rest, rows);
        }
    }
    branch(query, partial, slot, atoms, rows)
}

/// Goes on with each fact of the first atom that has the leading object.
#[cycle(join)]
fn follow<L: Look, W: Wanted, const N: usize>(
    query: &Query<'_, L, W>,
    partial: &Partial,
    atom: &QueryAtom<'_>,
    lead: &Lead,
    rest: &[QueryAtom<'_>],
    rows: &mut Vec<Objects<N>>,
) -> Result<(), JoinFault>
    requires query { IsAskable query.now.sorts.now (W.can_judge query.now.wanted.now)
        (atom.now ∷ rest.now) }
    requires lead { IsLead (L.known query.now.look.now) partial.now atom.now lead.now }
    requires few { length rows.old.items ≤ query.now.most }
    ensures found { OnOk result (AddsAnswers (L.known query.now.look.now) query.now.sorts.now
        (W.wants query.now.wanted.now) partial.now (atom.now ∷ rest.now) rows.old.items
        rows.new.items) }
    ensures few { OnOk result (length rows.new.items ≤ query.now.most) }
    ensures fault { IfErr result (LacksAnswers query.now.most (L.known query.now.look.now)
        query.now.sorts.now (W.wants query.now.wanted.now) partial.now (atom.now ∷ rest.now)
        rows.old.items) }
{
    for number in 0..lead.count {
        let args = query
            .look
            .matched(atom.pred, lead.place, lead.object, number);
        join_fact(query, partial, atom, args, rest, rows)?;
    }
    Ok(())
}

/// Goes on with the other atoms where this one is the fact with these arguments.
#[cycle(join)]
fn join_fact<L: Look, W: Wanted, const N: usize>(
    query: &Query<'_, L, W>,
    partial: &Partial,
    atom: &QueryAtom<'_>,
    args: &[Obj],
    rest: &[QueryAtom<'_>],
    rows: &mut Vec<Objects<N>>,
) -> Result<(), JoinFault>
    requires query { IsAskable query.now.sorts.now (W.can_judge query.now.wanted.now)
        (atom.now ∷ rest.now) }
    requires few { length rows.old.items ≤ query.now.most }
    ensures found { OnOk result (Adds (IsAnswerBy (L.known query.now.look.now) query.now.sorts.now
        (W.wants query.now.wanted.now) partial.now atom.now.terms.now rest.now
        (atom_fact atom.now.pred args.now)) rows.old.items rows.new.items) }
    ensures few { OnOk result (length rows.new.items ≤ query.now.most) }
    ensures fault { IfErr result (ComesOf query.now.most
        (IsAnswerBy (L.known query.now.look.now) query.now.sorts.now (W.wants query.now.wanted.now)
        partial.now atom.now.terms.now rest.now (atom_fact atom.now.pred args.now))
        rows.old.items) }
{
    match partial.fit(atom.terms, args) {
        Some(left) => join(query, &left, rest, rows),
        None => Ok(()),
    }
}

/// Goes on with each object of the slot's type in the slot, which is free.
#[cycle(join)]
fn branch<L: Look, W: Wanted, const N: usize>(
    query: &Query<'_, L, W>,
    partial: &Partial,
    slot: u8,
    atoms: &[QueryAtom<'_>],
    rows: &mut Vec<Objects<N>>,
) -> Result<(), JoinFault>
    requires query { IsAskable query.now.sorts.now (W.can_judge query.now.wanted.now) atoms.now }
    requires width { slot < length query.now.sorts.now }
    requires free { slice_get partial.now.slots slot ≡ Some None }
    requires few { length rows.old.items ≤ query.now.most }
    ensures found { OnOk result (AddsAnswers (L.known query.now.look.now) query.now.sorts.now
        (W.wants query.now.wanted.now) partial.now atoms.now rows.old.items rows.new.items) }
    ensures few { OnOk result (length rows.new.items ≤ query.now.most) }
    ensures fault { IfErr result (LacksAnswers query.now.most (L.known query.now.look.now)
        query.now.sorts.now (W.wants query.now.wanted.now) partial.now atoms.now rows.old.items) }
{
    let sort = query.sorts[slot as usize];
    let count = query.look.count(sort);
    for place in 0..count {
        let object = query.look.object(sort, place);
        join(query, &partial.with(slot, object), atoms, rows)?;
    }
    Ok(())
}

/// Whether the tuple agrees with the partial one, is wanted and has the types.
fn is_answer<L: Look, W: Wanted>(query: &Query<'_, L, W>, partial: &Partial, tuple: &[Obj]) -> bool
    requires query { IsAskable query.now.sorts.now (W.can_judge query.now.wanted.now) [] }
    requires long { length tuple.now ≡ length query.now.sorts.now }
    ensures { IsTrue result ↔ IsAnswer (L.known query.now.look.now) query.now.sorts.now
        (W.wants query.now.wanted.now) partial.now [] tuple.now }
{
    partial.agrees(tuple)
        && query.wanted.wants(tuple)
        && have_types(query.alloc, query.look, tuple, query.sorts)
}

/// Adds the tuple, of which each object is fixed, if it has the types and is wanted.
fn add_answer<L: Look, W: Wanted, const N: usize>(
    query: &Query<'_, L, W>,
    partial: &Partial,
    rows: &mut Vec<Objects<N>>,
) -> Result<(), JoinFault>
    requires query { IsAskable query.now.sorts.now (W.can_judge query.now.wanted.now) [] }
    requires fixed { AreFixed partial.now (length query.now.sorts.now) }
    requires few { length rows.old.items ≤ query.now.most }
    ensures found { OnOk result (AddsAnswers (L.known query.now.look.now) query.now.sorts.now
        (W.wants query.now.wanted.now) partial.now [] rows.old.items rows.new.items) }
    ensures few { OnOk result (length rows.new.items ≤ query.now.most) }
    ensures fault { IfErr result (LacksAnswers query.now.most (L.known query.now.look.now)
        query.now.sorts.now (W.wants query.now.wanted.now) partial.now [] rows.old.items) }
{
    let objects = partial.objects();
    let tuple = &objects[..query.sorts.len()];
    if !is_answer(query, partial, tuple) {
        return Ok(());
    }
    if rows.len() == query.most {
        return Err(JoinFault::TooMany);
    }
    rows.push(Objects::new(query.alloc, tuple)?)?;
    Ok(())
}
