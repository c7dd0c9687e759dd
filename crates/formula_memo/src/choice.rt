//! Which lead is taken to the objects of a variable: the one with the fewest places.
ghost use Rattle.std.specs.Prelude.{◌≡◌, true, IfSome, Some, slice_get};
ghost use Rattle.std.specs.List.{list_all};
ghost use Rattle.task_model.specs.declared.condition.Term.TheVariants.{Slot};
ghost use Rattle.formula_eval.specs.Readable.{is_readable, is_readable_term};
ghost use Rattle.formula_memo.specs.Tries.{IsInFacts, IsTryLead};

use crate::lead::{Among, Lead, filled};
use crate::scene::Scene;
use crate::tries::places_by;
use formula_eval::Env;
use task_model::{Formula, FormulaNode, Look, Role, Term};

/// The place of the slot among the terms, if it is there.
fn place_of(terms: &[Term], slot: u8) -> Option<usize>
    ensures { IfSome result (λ place. slice_get terms.now place ≡ Some (Slot slot)) }
{
    for (place, term) in terms.iter().enumerate() {
        if *term == Term::Slot(slot) {
            return Some(place);
        }
    }
    None
}

/// The lead, but among the facts that have the object of one of its filled terms, where they are
/// fewest, if that are no more than `most`.
fn lead_in_facts<'a, L: Look>(
    scene: &Scene<'_, L>,
    most: usize,
    slot: u8,
    lead: &Lead<'a>,
    env: &Env,
) -> Option<Lead<'a>>
    requires { list_all is_readable_term lead.now.terms.now ≡ true }
    ensures { IfSome result (IsInFacts slot env.now lead.now) }
{
    let mut best = None;
    let mut fewest = most;
    for (at, term) in lead.terms.iter().enumerate() {
        if let Some(object) = filled(*term, slot, env) {
            let count = scene.look.matches(lead.pred, at, object);
            if count <= fewest {
                let among = Among::Facts { at, object };
                best = Some(Lead { among, ..*lead });
                fewest = count;
            }
        }
    }
    best
}

/// A lead to the slot by the condition, if it is an atom of a fluent or a static predicate with
/// that slot, which can be at no more places than `most`.
fn lead_by<'a, L: Look>(
    scene: &Scene<'_, L>,
    most: usize,
    slot: u8,
    condition: &'a Formula,
    env: &Env,
) -> Option<Lead<'a>>
    requires readable { is_readable scene.now.task.now.domain condition.now ≡ true }
    ensures { IfSome result (IsTryLead scene.now.task.now.domain condition.now slot env.now) }
{
    let FormulaNode::Atom { pred, args } = &condition.node else {
        return None;
    };
    let terms = args.as_slice();
    let place = place_of(terms, slot)?;
    let lead = Lead {
        pred: *pred,
        terms,
        place,
        among: Among::State,
    };
    match scene.task.domain.roles.as_slice()[*pred as usize] {
        Role::Fluent => {
            if scene.state.len() <= most {
                Some(lead)
            } else {
                None
            }
        }
        Role::Static => lead_in_facts(scene, most, slot, &lead, env),
        Role::Derived => None,
    }
}

/// The lead to the slot with the fewest places, if that are no more than there are objects of the
/// type: by the condition itself or, where all of its parts have to be true, by one of them.
/// Looking ends where as many parts were seen as there are places by then.
pub(crate) fn lead_for<'a, L: Look>(
    scene: &Scene<'_, L>,
    sort: u32,
    slot: u8,
    condition: &'a Formula,
    env: &Env,
) -> Option<Lead<'a>>
    requires readable { is_readable scene.now.task.now.domain condition.now ≡ true }
    ensures { IfSome result (IsTryLead scene.now.task.now.domain condition.now slot env.now) }
{
    let mut fewest = scene.look.count(sort);
    let FormulaNode::All(parts) = &condition.node else {
        return lead_by(scene, fewest, slot, condition, env);
    };
    let mut best = None;
    for (number, part) in parts.as_slice().iter().enumerate() {
        if fewest <= number {
            return best;
        }
        if let Some(next) = lead_by(scene, fewest, slot, part, env) {
            fewest = places_by(scene, &next);
            best = Some(next);
        }
    }
    best
}
