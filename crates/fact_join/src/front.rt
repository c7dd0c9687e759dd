//! How far a query is settled by the slots that are fixed.
ghost use Rattle.std.specs.Prelude.{IfOk, ◌≡◌};
ghost use Rattle.task_model.specs.Known.{is_fact, atom_fact};
ghost use Rattle.fact_join.specs.Answers.{IsAskable};
ghost use Rattle.fact_join.specs.Fronts.{IsFront};

use crate::partial::{Grounding, Partial};
use crate::query::{Query, QueryAtom, Wanted};
use std::alloc::AllocError;
use task_model::{Fact, Kind, Look, Row};

/// What the fixed slots of a partial tuple say of atoms.
pub(crate) enum Front<'a, 'b> {
    /// All are known.
    Known,
    /// One isn't known.
    Unknown,
    /// All are known where these last ones are, and the first of them has this slot, which is free.
    Free {
        /// The slot.
        slot: u8,
        /// The atoms that are left.
        left: &'a [QueryAtom<'b>],
    },
}

/// Whether the atom with these arguments is known.
fn has_atom<L: Look>(look: &L, pred: u32, args: Row) -> bool
    ensures { result ≡ is_fact (L.known look.now).facts (atom_fact pred args) }
{
    let kind = Kind::Predicate;
    look.has(&Fact {
        kind,
        name: pred,
        args,
    })
}

/// What the fixed slots say of the atoms. Fails only where memory is wanting.
pub(crate) fn front_of<'a, 'b, L: Look, W: Wanted>(
    query: &Query<'_, L, W>,
    partial: &Partial,
    atoms: &'a [QueryAtom<'b>],
) -> Result<Front<'a, 'b>, AllocError>
    requires { IsAskable query.now.sorts.now (W.can_judge query.now.wanted.now) atoms.now }
    ensures { IfOk result (IsFront (L.known query.now.look.now) partial.now atoms.now) }
{
    for (place, atom) in atoms.iter().enumerate() {
        match partial.ground(query.alloc, atom.terms)? {
            Grounding::Free(slot) => {
                let left = &atoms[place..];
                return Ok(Front::Free { slot, left });
            }
            Grounding::Row(args) => {
                if !has_atom(query.look, atom.pred, args) {
                    return Ok(Front::Unknown);
                }
            }
        }
    }
    Ok(Front::Known)
}
