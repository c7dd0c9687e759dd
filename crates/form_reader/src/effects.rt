//! The forms of effects.
#![tactic(auto, using(crate::proofs::FaultsFirstLemmas::first_append))]

ghost use Rattle.std.specs.Prelude.{◌≡◌};
ghost use Rattle.sexpr_text.specs.Trees.{trees};
ghost use Rattle.form_reader.specs.Effects as specs;
ghost use Rattle.form_reader.specs.Faults.{first};

use crate::fault::{Fault, sooner};
use crate::groups::{check_application, check_end};
use crate::words::{EffectHead, WordSort, effect_head_of};
use sexpr_text::{Front, Node, front_of};
use task_model::{is_name, is_number};

/// Whether the word is `total-cost`.
pub fn is_total_cost(word: &[u8]) -> bool
    ensures { result ≡ specs.is_total_cost word.now }
{
    word == b"total-cost".as_slice()
}

/// The effect that the list at this place is.
#[cycle(effects)]
pub(crate) fn check_effect(place: usize, items: &[Node], so_far: Option<Fault>) -> Option<Fault>
    ensures { result ≡ first so_far (specs.effect_faults place (trees items.now)) }
{
    match front_of(items) {
        Front::End => so_far,
        Front::Word { text, rest, .. } => match effect_head_of(text) {
            EffectHead::And => check_effects(rest, so_far),
            EffectHead::Not => check_negated(place, rest, so_far),
            EffectHead::Increase => check_increase(place, rest, so_far),
            EffectHead::Refused => sooner(so_far, Fault::unsupported(place)),
            EffectHead::Atom => {
                check_application(WordSort::Predicate, WordSort::Term, place, items, so_far)
            }
        },
        Front::List { place: at, .. } => sooner(so_far, Fault::shape(at)),
    }
}

/// Effects in a row.
#[cycle(effects)]
fn check_effects(items: &[Node], so_far: Option<Fault>) -> Option<Fault>
    ensures { result ≡ first so_far (specs.effects_faults (trees items.now)) }
{
    let mut left = items;
    let mut found = so_far;
    'parts: loop {
        match front_of(left) {
            Front::End => return found,
            Front::Word { place, .. } => return sooner(found, Fault::shape(place)),
            Front::List { items, place, rest } => {
                found = check_effect(place, items, found);
                left = rest;
            }
        }
    }
}

/// The atom that `not` takes away, in the list at this place.
fn check_negated(place: usize, items: &[Node], so_far: Option<Fault>) -> Option<Fault>
    ensures { result ≡ first so_far (specs.negated_faults place (trees items.now)) }
{
    match front_of(items) {
        Front::End => sooner(so_far, Fault::shape(place)),
        Front::Word { place: at, .. } => sooner(so_far, Fault::shape(at)),
        Front::List {
            items,
            place: at,
            rest,
        } => {
            let found = check_application(WordSort::Predicate, WordSort::Term, at, items, so_far);
            check_end(rest, found)
        }
    }
}

/// What `increase` takes, in the list at this place.
fn check_increase(place: usize, items: &[Node], so_far: Option<Fault>) -> Option<Fault>
    ensures { result ≡ first so_far (specs.increase_faults place (trees items.now)) }
{
    match front_of(items) {
        Front::End => sooner(so_far, Fault::shape(place)),
        Front::Word { place: at, .. } => sooner(so_far, Fault::shape(at)),
        Front::List { items, .. } if is_other_function(items) => {
            sooner(so_far, Fault::unsupported(place))
        }
        Front::List {
            items,
            place: at,
            rest,
        } => { check_cost(place, rest, check_total_cost(at, items, so_far)) }
    }
}

/// Whether a list begins with the name of a function other than `total-cost`.
fn is_other_function(items: &[Node]) -> bool
    ensures { result ≡ specs.is_other_function (trees items.now) }
{
    match front_of(items) {
        Front::Word { text, .. } => is_name(text) && !is_total_cost(text),
        Front::End | Front::List { .. } => false,
    }
}

/// The word `total-cost`, in the list at this place.
fn check_total_cost(place: usize, items: &[Node], so_far: Option<Fault>) -> Option<Fault>
    ensures { result ≡ first so_far (specs.total_cost_faults place (trees items.now)) }
{
    match front_of(items) {
        Front::End => sooner(so_far, Fault::shape(place)),
        Front::Word { text, rest, .. } if is_total_cost(text) => check_end(rest, so_far),
        Front::Word { place: at, .. } | Front::List { place: at, .. } => {
            sooner(so_far, Fault::shape(at))
        }
    }
}

/// A number or a function term, in the list at this place.
fn check_cost(place: usize, items: &[Node], so_far: Option<Fault>) -> Option<Fault>
    ensures { result ≡ first so_far (specs.cost_faults place (trees items.now)) }
{
    match front_of(items) {
        Front::End => sooner(so_far, Fault::shape(place)),
        Front::Word { text, rest, .. } if is_number(text) => check_end(rest, so_far),
        Front::Word { place: at, .. } => sooner(so_far, Fault::number(at)),
        Front::List {
            items,
            place: at,
            rest,
        } => {
            let found = check_application(WordSort::Name, WordSort::Term, at, items, so_far);
            check_end(rest, found)
        }
    }
}
