//! Atoms that are true at first: their name faults, and the facts that they are.
#![tactic(auto, using(form_reader::proofs::FaultsFirstLemmas::first_append))]

ghost use Rattle.std.specs.Prelude.{◌≡◌, [], ◌++◌, ◌∷◌, IfOk, OnOk};
ghost use Rattle.sexpr_text.specs.Trees.{trees};
ghost use Rattle.form_reader.specs.Faults.{first};
ghost use Rattle.form_reader.specs.Rows.{head_of as head, tail_of as tail};
ghost use Rattle.name_tables.specs.Names.{table_place};
ghost use Rattle.name_tables.specs.Terms.{application_names, terms_names};
ghost use Rattle.problem_reader.specs.Names as specs;
ghost use Rattle.problem_reader.specs.Problems.{places_in_row, spelled_fact};

use crate::facts::places_of;
use form_reader::{Fault, InputKind, head_of, tail_of};
use name_tables::{NameTable, Vocabulary, check_use, number, unless, width};
use sexpr_text::{Front, Node, front_of};
use std::alloc::{AllocError, Global};
use task_model::{Domain, Fact, Kind, Obj, Role, Row};

/// Over what a problem's items are read: its domain, and its names.
#[derive(Clone, Copy)]
pub(crate) struct Setting<'a> {
    /// Where facts take memory.
    pub(crate) alloc: Global,
    /// The domain.
    pub(crate) domain: &'a Domain,
    /// The domain's names, and behind its constants the objects.
    pub(crate) names: &'a Vocabulary,
}

/// Each term is an object; and the objects.
fn check_places(
    alloc: Global,
    objects: &NameTable,
    items: &[Node],
    so_far: Option<Fault>,
) -> Result<(Option<Fault>, Row), AllocError>
    ensures faults { IfOk result (λ r. r.0
        ≡ first so_far (terms_names objects.now [] (trees items.now))) }
    ensures places { IfOk result (λ r. r.1 ≡ places_in_row objects.now (trees items.now)) }
{
    let mut row = Row::empty(alloc);
    let mut left = items;
    let mut found = so_far;
    'terms: loop {
        match front_of(left) {
            Front::End => return Ok((found, row)),
            Front::Word { text, place, rest } => {
                let known = objects.place_of(text);
                found = unless(known.is_some(), InputKind::Unknown, place, found);
                row.push(Obj::new(number(known.unwrap_or(0))?))?;
                left = rest;
            }
            Front::List { rest, .. } => left = rest,
        }
    }
}

/// The use of a predicate, whose place is known, in the list at this place; and the arguments.
fn check_arguments(
    setting: &Setting<'_>,
    pred: Option<usize>,
    place: usize,
    items: &[Node],
    so_far: Option<Fault>,
) -> Result<(Option<Fault>, Row), AllocError>
    requires { pred
        ≡ table_place (head (trees items.now)) setting.now.names.now.predicates.names }
    ensures faults { IfOk result (λ r. r.0 ≡ first so_far
        (application_names setting.now.names.now.predicates setting.now.names.now.objects [] place
        (trees items.now))) }
    ensures places { IfOk result (λ r. r.1
        ≡ places_in_row setting.now.names.now.objects (tail (trees items.now))) }
{
    let names = setting.names;
    match front_of(items) {
        Front::End | Front::List { .. } => {
            let args = places_of(setting.alloc, &names.objects, tail_of(items))?;
            Ok((so_far, args))
        }
        Front::Word {
            place: at,
            rest,
            ..
        } => {
            let count = width(rest)?;
            let used = check_use(names.predicates.arity_at(pred), count, at, place, so_far);
            check_places(setting.alloc, &names.objects, rest, used)
        }
    }
}

/// Whether a predicate is derived, by its place.
fn is_derived_at(roles: &[Role], place: Option<usize>) -> bool
    ensures { result ≡ specs.is_derived_at roles.now place }
{
    match place {
        None => false,
        Some(place) => match roles.get(place) {
            Some(Role::Derived) => true,
            Some(Role::Static | Role::Fluent) | None => false,
        },
    }
}

/// An atom that is true at first, as the list at this place, and behind the facts the one that it
/// is.
pub(crate) fn check_atom(
    setting: &Setting<'_>,
    place: usize,
    items: &[Node],
    so_far: Option<Fault>,
    facts: &mut Vec<Fact>,
) -> Result<Option<Fault>, AllocError>
    ensures faults { IfOk result (λ f. f ≡ first so_far
        (specs.atom_names setting.now.names.now setting.now.domain.now.roles place
        (trees items.now))) }
    ensures facts { OnOk result (facts.new.items
        ≡ facts.old.items ++ spelled_fact setting.now.names.now (trees items.now) ∷ []) }
{
    let pred = setting.names.predicates.place_of(head_of(items));
    let name = number(pred.unwrap_or(0))?;
    let (used, args) = check_arguments(setting, pred, place, items, so_far)?;
    facts.push(Fact {
        kind: Kind::Predicate,
        name,
        args,
    })?;
    let derived = is_derived_at(setting.domain.roles.as_slice(), pred);
    Ok(unless(!derived, InputKind::EffectOnStatic, place, used))
}
