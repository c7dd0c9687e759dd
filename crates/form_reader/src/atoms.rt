//! The forms of facts and of streams' atoms.
#![tactic(auto, using(crate::proofs::FaultsFirstLemmas::first_append))]

ghost use Rattle.std.specs.Prelude.{◌≡◌};
ghost use Rattle.sexpr_text.specs.Trees.{trees};
ghost use Rattle.form_reader.specs.Atoms as specs;
ghost use Rattle.form_reader.specs.Faults.{first};

use crate::effects::is_total_cost;
use crate::fault::{Fault, sooner};
use crate::groups::{check_application, check_end};
use crate::refused::is_end;
use crate::words::{WordSort, is_word};
use sexpr_text::{Front, Node, front_of};
use task_model::is_number;

/// A number, in the list at this place.
fn check_number(place: usize, items: &[Node], so_far: Option<Fault>) -> Option<Fault>
    ensures { result ≡ first so_far (specs.number_faults place (trees items.now)) }
{
    match front_of(items) {
        Front::End => sooner(so_far, Fault::shape(place)),
        Front::Word { text, rest, .. } if is_number(text) => check_end(rest, so_far),
        Front::Word { place: at, .. } => sooner(so_far, Fault::number(at)),
        Front::List { place: at, .. } => sooner(so_far, Fault::shape(at)),
    }
}

/// A function term and a number, in the list at this place.
fn check_valued(place: usize, items: &[Node], so_far: Option<Fault>) -> Option<Fault>
    ensures { result ≡ first so_far (specs.valued_faults place (trees items.now)) }
{
    match front_of(items) {
        Front::End => sooner(so_far, Fault::shape(place)),
        Front::Word { place: at, .. } => sooner(so_far, Fault::shape(at)),
        Front::List {
            items,
            place: at,
            rest,
        } => {
            let found = check_application(WordSort::Name, WordSort::Name, at, items, so_far);
            check_number(place, rest, found)
        }
    }
}

/// The fact that the list at this place is.
fn check_fact(place: usize, items: &[Node], so_far: Option<Fault>) -> Option<Fault>
    ensures { result ≡ first so_far (specs.fact_faults place (trees items.now)) }
{
    match front_of(items) {
        Front::End => sooner(so_far, Fault::shape(place)),
        Front::Word { text, rest, .. } if is_word(text, b"=") => {
            check_valued(place, rest, so_far)
        }
        Front::Word { .. } => {
            check_application(WordSort::Predicate, WordSort::Name, place, items, so_far)
        }
        Front::List { place: at, .. } => sooner(so_far, Fault::shape(at)),
    }
}

/// Facts in a row.
pub(crate) fn check_facts(items: &[Node], so_far: Option<Fault>) -> Option<Fault>
    ensures { result ≡ first so_far (specs.facts_faults (trees items.now)) }
{
    let mut left = items;
    let mut found = so_far;
    'facts: loop {
        match front_of(left) {
            Front::End => return found,
            Front::Word { place, .. } => return sooner(found, Fault::shape(place)),
            Front::List { items, place, rest } => {
                found = check_fact(place, items, found);
                left = rest;
            }
        }
    }
}

/// The atoms of a stream that the list at this place is.
#[cycle(atoms)]
pub(crate) fn check_atoms(place: usize, items: &[Node], so_far: Option<Fault>) -> Option<Fault>
    ensures { result ≡ first so_far (specs.atoms_faults place (trees items.now)) }
{
    match front_of(items) {
        Front::End => so_far,
        Front::Word { text, rest, .. } if is_word(text, b"and") => { check_atom_rows(rest, so_far) }
        Front::Word { .. } => {
            check_application(WordSort::Predicate, WordSort::Term, place, items, so_far)
        }
        Front::List { place: at, .. } => sooner(so_far, Fault::shape(at)),
    }
}

/// Atoms in a row.
#[cycle(atoms)]
fn check_atom_rows(items: &[Node], so_far: Option<Fault>) -> Option<Fault>
    ensures { result ≡ first so_far (specs.atom_rows_faults (trees items.now)) }
{
    let mut left = items;
    let mut found = so_far;
    'parts: loop {
        match front_of(left) {
            Front::End => return found,
            Front::Word { place, .. } => return sooner(found, Fault::shape(place)),
            Front::List { items, place, rest } => {
                found = check_atoms(place, items, found);
                left = rest;
            }
        }
    }
}

/// Whether this is the word `total-cost` alone.
pub fn is_total_cost_alone(items: &[Node]) -> bool
    ensures { result ≡ specs.is_total_cost_alone (trees items.now) }
{
    match front_of(items) {
        Front::Word { text, rest, .. } => is_total_cost(text) && is_end(rest),
        Front::End | Front::List { .. } => false,
    }
}

/// The function term that a cost stream gives a value, as the list at this place.
pub(crate) fn check_worth(place: usize, items: &[Node], so_far: Option<Fault>) -> Option<Fault>
    ensures { result ≡ first so_far (specs.worth_faults place (trees items.now)) }
{
    if is_total_cost_alone(items) {
        return sooner(so_far, Fault::unsupported(place));
    }
    check_application(WordSort::Name, WordSort::Term, place, items, so_far)
}
