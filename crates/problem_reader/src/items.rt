//! The name faults of a problem's items, and its first facts.
#![tactic(auto, using(form_reader::proofs::FaultsFirstLemmas::first_append))]

ghost use Rattle.std.specs.Prelude.{◌≡◌, ◌++◌, ◌||◌, true, IfOk, OnOk};
ghost use Rattle.sexpr_text.specs.Trees.{trees};
ghost use Rattle.form_reader.specs.Faults.{first};
ghost use Rattle.problem_reader.specs.Names as specs;
ghost use Rattle.problem_reader.specs.Problems as problems;
ghost use Rattle.problem_reader.specs.Values.{is_init};

use crate::atoms::{Setting, check_atom};
use form_reader::{Fault, InputKind, Item, TextKind, head_of, tail_of};
use name_tables::{Scope, Vocabulary, check_application, check_conditions, check_types, unless};
use sexpr_text::{Front, Node, front_of};
use std::alloc::{AllocError, Global};
use task_model::Fact;

/// The facts of the first `:init`.
#[derive(Drop)]
pub(crate) struct Held {
    /// The facts.
    pub(crate) facts: Vec<Fact>,
    /// Whether there was an `:init`.
    pub(crate) begun: bool,
}

/// The name behind `:domain` is the domain's.
fn check_domain(name: &[u8], items: &[Node], so_far: Option<Fault>) -> Option<Fault>
    ensures { result ≡ first so_far (specs.domain_name_faults name.now (trees items.now)) }
{
    match front_of(items) {
        Front::End | Front::List { .. } => so_far,
        Front::Word { text, place, .. } => {
            unless(text == name, InputKind::Unknown, place, so_far)
        }
    }
}

/// Whether a list gives a function term a value.
pub(crate) fn is_worth(items: &[Node]) -> bool
    ensures { result ≡ specs.is_worth (trees items.now) }
{
    match head_of(items) {
        [] => false,
        [only] => *only == b'=',
        [_, _, ..] => false,
    }
}

/// The function term that stands first in a row.
fn check_worth(
    alloc: Global,
    names: &Vocabulary,
    items: &[Node],
    so_far: Option<Fault>,
) -> Result<Option<Fault>, AllocError>
    ensures { IfOk result (λ f. f ≡ first so_far (specs.worth_names names.now (trees items.now))) }
{
    match front_of(items) {
        Front::End | Front::Word { .. } => Ok(so_far),
        Front::List { items, place, .. } => {
            let scope = Scope::new(alloc);
            check_application(
                &names.functions,
                &names.objects,
                &scope,
                place,
                items,
                so_far,
            )
        }
    }
}

/// A fact, as the list at this place, which stands behind the facts then if it is an atom.
fn check_fact(
    setting: &Setting<'_>,
    place: usize,
    items: &[Node],
    so_far: Option<Fault>,
    facts: &mut Vec<Fact>,
) -> Result<Option<Fault>, AllocError>
    ensures faults { IfOk result (λ f. f ≡ first so_far
        (specs.fact_names setting.now.names.now setting.now.domain.now.roles place
        (trees items.now))) }
    ensures facts { OnOk result (facts.new.items
        ≡ facts.old.items ++ problems.fact_if_atom setting.now.names.now (trees items.now)) }
{
    if is_worth(items) {
        check_worth(setting.alloc, setting.names, tail_of(items), so_far)
    } else {
        check_atom(setting, place, items, so_far, facts)
    }
}

/// Facts in a row, and behind the facts so far the atoms among them.
fn check_facts(
    setting: &Setting<'_>,
    items: &[Node],
    so_far: Option<Fault>,
    facts: &mut Vec<Fact>,
) -> Result<Option<Fault>, AllocError>
    ensures faults { IfOk result (λ f. f ≡ first so_far
        (specs.facts_names setting.now.names.now setting.now.domain.now.roles (trees items.now))) }
    ensures facts { OnOk result (facts.new.items
        ≡ facts.old.items ++ problems.facts_of setting.now.names.now (trees items.now)) }
{
    let mut left = items;
    let mut found = so_far;
    'facts: loop {
        match front_of(left) {
            Front::End => return Ok(found),
            Front::Word { rest, .. } => left = rest,
            Front::List { items, place, rest } => {
                found = check_fact(setting, place, items, found, facts)?;
                left = rest;
            }
        }
    }
}

/// The facts of an `:init`, which are held if it is the first.
#[tactic(auto, using(lemmas::proofs::Members::take_append))]
fn check_init(
    setting: &Setting<'_>,
    items: &[Node],
    so_far: Option<Fault>,
    held: &mut Held,
) -> Result<Option<Fault>, AllocError>
    ensures faults { IfOk result (λ f. f ≡ first so_far
        (specs.facts_names setting.now.names.now setting.now.domain.now.roles (trees items.now))) }
    ensures begun { OnOk result (held.new.begun ≡ true) }
    ensures facts { OnOk result (held.new.facts.items
        ≡ problems.facts_with setting.now.names.now held.old.begun true held.old.facts.items
        (trees items.now)) }
{
    let before = held.facts.len();
    let found = check_facts(setting, items, so_far, &mut held.facts)?;
    if held.begun {
        held.facts.truncate(before);
    }
    held.begun = true;
    Ok(found)
}

/// The goal.
fn check_goal(
    alloc: Global,
    names: &Vocabulary,
    items: &[Node],
    so_far: Option<Fault>,
) -> Result<Option<Fault>, AllocError>
    ensures { IfOk result (λ f. f ≡ first so_far (specs.goal_names names.now (trees items.now))) }
{
    let mut scope = Scope::new(alloc);
    check_conditions(alloc, names, &mut scope, items, so_far)
}

/// What stands behind the first word of an item, and the facts that are held behind it.
fn check_body(
    setting: &Setting<'_>,
    item: Item,
    items: &[Node],
    so_far: Option<Fault>,
    held: &mut Held,
) -> Result<Option<Fault>, AllocError>
    ensures faults { IfOk result (λ f. f ≡ first so_far
        (specs.problem_body_names setting.now.names.now setting.now.domain.now item
        (trees items.now))) }
    ensures begun { OnOk result (held.new.begun ≡ (held.old.begun || is_init item)) }
    ensures facts { OnOk result (held.new.facts.items
        ≡ problems.facts_with setting.now.names.now held.old.begun (is_init item)
        held.old.facts.items (trees items.now)) }
{
    let Setting {
        alloc,
        domain,
        names,
    } = *setting;
    match item {
        Item::Domain => Ok(check_domain(domain.name.bytes(), items, so_far)),
        Item::Objects => Ok(check_types(&names.sorts, items, so_far)),
        Item::Init => check_init(setting, items, so_far, held),
        Item::Goal => check_goal(alloc, names, items, so_far),
        Item::Requirements
        | Item::Metric
        | Item::Types
        | Item::Constants
        | Item::Predicates
        | Item::Functions
        | Item::Derived
        | Item::Action
        | Item::Stream
        | Item::CostStream
        | Item::Unknown
        | Item::NoItem => Ok(so_far),
    }
}

/// The items of a problem, and the facts of the first `:init` among them, if there was none before.
/// Fails only where memory is wanting.
#[tactic(auto, using(form_reader::proofs::FaultsFirstLemmas::first_append, crate::proofs::HeldLemmas::held_end, crate::proofs::HeldLemmas::held_next))]
pub(crate) fn check_items(
    setting: &Setting<'_>,
    items: &[Node],
    so_far: Option<Fault>,
    held: &mut Held,
) -> Result<Option<Fault>, AllocError>
    ensures faults { IfOk result (λ f. f ≡ first so_far
        (specs.problem_items_names setting.now.names.now setting.now.domain.now
        (trees items.now))) }
    ensures facts { OnOk result (held.new.facts.items
        ≡ problems.first_facts setting.now.names.now held.old.begun held.old.facts.items
        (trees items.now)) }
{
    let mut left = items;
    let mut found = so_far;
    'items: loop {
        match front_of(left) {
            Front::End => return Ok(found),
            Front::Word { rest, .. } => left = rest,
            Front::List { items, rest, .. } => {
                let item = TextKind::Problem.item_of(head_of(items));
                found = check_body(setting, item, tail_of(items), found, held)?;
                left = rest;
            }
        }
    }
}
