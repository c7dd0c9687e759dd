//! The forms of conditions.
#![tactic(auto, using(crate::proofs::FaultsFirstLemmas::first_append))]

ghost use Rattle.std.specs.Prelude.{◌≡◌};
ghost use Rattle.sexpr_text.specs.Trees.{trees};
ghost use Rattle.form_reader.specs.Conditions as specs;
ghost use Rattle.form_reader.specs.Faults.{first};

use crate::fault::{Fault, sooner};
use crate::groups::{check_application, check_end, check_groups, check_two};
use crate::words::{ConditionHead, WordSort, condition_head_of};
use sexpr_text::{Front, Node, front_of};

/// The condition that the list at this place is.
#[cycle(conditions)]
pub(crate) fn check_condition(place: usize, items: &[Node], so_far: Option<Fault>) -> Option<Fault>
    ensures { result ≡ first so_far (specs.condition_faults place (trees items.now)) }
{
    match front_of(items) {
        Front::End => so_far,
        Front::Word { text, rest, .. } => match condition_head_of(text) {
            ConditionHead::And | ConditionHead::Or => check_conditions(rest, so_far),
            ConditionHead::Not => check_single(place, rest, so_far),
            ConditionHead::Exists => check_exists(place, rest, so_far),
            ConditionHead::Equal => check_two(WordSort::Term, place, rest, so_far),
            ConditionHead::Refused => sooner(so_far, Fault::unsupported(place)),
            ConditionHead::Atom => {
                check_application(WordSort::Predicate, WordSort::Term, place, items, so_far)
            }
        },
        Front::List { place: at, .. } => sooner(so_far, Fault::shape(at)),
    }
}

/// Conditions in a row.
#[cycle(conditions)]
fn check_conditions(items: &[Node], so_far: Option<Fault>) -> Option<Fault>
    ensures { result ≡ first so_far (specs.conditions_faults (trees items.now)) }
{
    let mut left = items;
    let mut found = so_far;
    'parts: loop {
        match front_of(left) {
            Front::End => return found,
            Front::Word { place, .. } => return sooner(found, Fault::shape(place)),
            Front::List { items, place, rest } => {
                found = check_condition(place, items, found);
                left = rest;
            }
        }
    }
}

/// One condition, in the list at this place.
#[cycle(conditions)]
pub(crate) fn check_single(place: usize, items: &[Node], so_far: Option<Fault>) -> Option<Fault>
    ensures { result ≡ first so_far (specs.single_faults place (trees items.now)) }
{
    match front_of(items) {
        Front::End => sooner(so_far, Fault::shape(place)),
        Front::Word { place: at, .. } => sooner(so_far, Fault::shape(at)),
        Front::List {
            items,
            place: at,
            rest,
        } => check_end(rest, check_condition(at, items, so_far)),
    }
}

/// Variables and one condition, in the list at this place.
#[cycle(conditions)]
fn check_exists(place: usize, items: &[Node], so_far: Option<Fault>) -> Option<Fault>
    ensures { result ≡ first so_far (specs.exists_faults place (trees items.now)) }
{
    match front_of(items) {
        Front::End => sooner(so_far, Fault::shape(place)),
        Front::Word { place: at, .. } => sooner(so_far, Fault::shape(at)),
        Front::List {
            items,
            place: at,
            rest,
        } => {
            let found = check_groups(WordSort::Variable, at, items, so_far);
            check_single(place, rest, found)
        }
    }
}
