//! Which objects are tried for a variable: all that have its type, or those to which a lead leads.
ghost use Rattle.std.specs.Prelude.{◌≡◌, ◌<◌, true, ℕ, List, IfSome, Some, Contains, slice_index};
ghost use Rattle.task_model.specs.Known.{objects_of};
ghost use Rattle.task_model.specs.Truth.{has_type, objects_at};
ghost use Rattle.formula_memo.specs.Tries.{ComesAt, IsPlaced, IsSameBelow, places_among, place_count};

use crate::lead::{Among, Lead, agrees};
use crate::scene::Scene;
use formula_eval::{Env, have_types};
use task_model::{Look, Obj};

/// At how many places the lead's atom can be: one for each atom of the state, or for each fact that
/// has the object at the place.
pub(crate) fn places_by<L: Look>(scene: &Scene<'_, L>, lead: &Lead<'_>) -> usize
    ensures { result ≡ places_among (L.known scene.now.look.now) scene.now.state.now lead.now.pred
        lead.now.among }
{
    match lead.among {
        Among::State => scene.state.as_slice().len(),
        Among::Facts { at, object } => scene.look.matches(lead.pred, at, object),
    }
}

/// At how many places an object can come: those of the lead or, where there is none, one for each
/// object of the type.
pub(crate) fn places<L: Look>(scene: &Scene<'_, L>, sort: u32, lead: &Option<Lead<'_>>) -> usize
    ensures { result ≡ place_count (L.known scene.now.look.now) scene.now.state.now sort lead.now }
{
    match lead {
        Some(lead) => places_by(scene, lead),
        None => scene.look.count(sort),
    }
}

/// The object in the slot by which the lead's terms would have these objects, where the slots below
/// are filled, if it has the type.
fn led_object<L: Look>(
    scene: &Scene<'_, L>,
    sort: u32,
    slot: u8,
    lead: &Lead<'_>,
    objects: &[Obj],
    env: &Env,
) -> Option<Obj>
    requires { IsPlaced slot lead.now }
    ensures typed { IfSome result
        (λ object. has_type (L.known scene.now.look.now) object sort ≡ true) }
    ensures led { (after : List ℕ) → objects.now ≡ objects_at after lead.now.terms.now
        → IsSameBelow slot env.now after
        → has_type (L.known scene.now.look.now) (slice_index after slot) sort ≡ true
        → result ≡ Some (slice_index after slot) }
{
    if !agrees(lead.terms, objects, slot, env) {
        return None;
    }
    let object = *objects.get(lead.place)?;
    if have_types(scene.state.allocator(), scene.look, &[object], &[sort]) {
        Some(object)
    } else {
        None
    }
}

/// The object that comes at this place, if there is one that has the type.
pub(crate) fn tried_object<L: Look>(
    scene: &Scene<'_, L>,
    sort: u32,
    slot: u8,
    lead: &Option<Lead<'_>>,
    place: usize,
    env: &Env,
) -> Option<Obj>
    requires place { place < place_count (L.known scene.now.look.now) scene.now.state.now sort
        lead.now }
    requires placed { IfSome lead.now (IsPlaced slot) }
    ensures typed { IfSome result
        (λ object. Contains (objects_of (L.known scene.now.look.now).facts sort) object) }
    ensures comes { (object : ℕ)
        → ComesAt (L.known scene.now.look.now) scene.now.state.now sort lead.now slot env.now
        place object
        → Contains (objects_of (L.known scene.now.look.now).facts sort) object
        → result ≡ Some object }
{
    let Some(lead) = lead else {
        return Some(scene.look.object(sort, place));
    };
    match lead.among {
        Among::State => {
            let atom = &scene.state.as_slice()[place];
            if atom.pred != lead.pred {
                return None;
            }
            led_object(scene, sort, slot, lead, atom.args.as_slice(), env)
        }
        Among::Facts { at, object } => {
            let args = scene.look.matched(lead.pred, at, object, place);
            led_object(scene, sort, slot, lead, args, env)
        }
    }
}
