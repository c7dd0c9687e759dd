//! What may be there once.
#![tactic(auto, using(form_reader::proofs::FaultsFirstLemmas::first_append))]

ghost use Rattle.std.specs.Prelude.{◌≡◌, [], IfOk, OnOk};
ghost use Rattle.sexpr_text.specs.Trees.{trees};
ghost use Rattle.form_reader.specs.Faults.{first};
ghost use Rattle.domain_reader.specs.Names as specs;

use crate::tables::{headed, is_derived};
use form_reader::{Fault, InputKind, Item, TextKind, head_of, tail_of};
use name_tables::{NameTable, Signatures, unless};
use sexpr_text::{Front, Node, front_of};
use std::alloc::{AllocError, Global};

/// What declarations declare.
#[derive(Clone, Copy, PartialEq, Eq)]
pub(crate) enum Declared {
    /// Predicates.
    Predicates,
    /// Functions.
    Functions,
}

impl Declared {
    /// Whether an item has declarations of this kind.
    fn stands_in(self, item: Item) -> bool
        ensures { result ≡ specs.declares self item }
    {
        match self {
            Declared::Predicates => matches!(item, Item::Predicates),
            Declared::Functions => matches!(item, Item::Functions),
        }
    }
}

/// Whether an item of this kind may be there once.
fn is_single(item: Item) -> bool
    ensures { result ≡ specs.is_single item }
{
    match item {
        Item::Derived
        | Item::Action
        | Item::Stream
        | Item::CostStream
        | Item::Unknown
        | Item::NoItem => false,
        Item::Requirements
        | Item::Types
        | Item::Constants
        | Item::Predicates
        | Item::Functions
        | Item::Domain
        | Item::Objects
        | Item::Init
        | Item::Goal
        | Item::Metric => true,
    }
}

/// Adds a `Duplicate` to a fault so far where a list at this place has a name that was seen before,
/// if the list counts; what is seen grows by the name then. Fails only where memory is wanting.
fn check_once(
    counts: bool,
    name: &[u8],
    place: usize,
    seen: &mut NameTable,
    so_far: Option<Fault>,
) -> Result<Option<Fault>, AllocError>
    ensures faults { IfOk result (λ f. f
        ≡ first so_far (specs.once counts name.now place seen.old)) }
    ensures seen { OnOk result (seen.new ≡ specs.seen_once counts name.now seen.old) }
{
    if counts {
        Ok(unless(seen.add(name)?, InputKind::Duplicate, place, so_far))
    } else {
        Ok(so_far)
    }
}

/// Adds to a fault so far those of second items of a kind of which a text may have one: `Duplicate`
/// at the item's list. Fails only where memory is wanting.
pub fn check_second_items(
    alloc: Global,
    text: TextKind,
    items: &[Node],
    so_far: Option<Fault>,
) -> Result<Option<Fault>, AllocError>
    ensures { IfOk result (λ f. f ≡ first so_far (specs.second_items text [] (trees items.now))) }
{
    let mut seen = NameTable::new(alloc);
    let mut left = items;
    let mut found = so_far;
    'items: loop {
        match front_of(left) {
            Front::End => return Ok(found),
            Front::Word { rest, .. } => left = rest,
            Front::List { items, place, rest } => {
                let word = head_of(items);
                let counts = is_single(text.item_of(word));
                found = check_once(counts, word, place, &mut seen, found)?;
                left = rest;
            }
        }
    }
}

/// Whether the item is an action.
pub(crate) fn is_action(item: Item) -> bool
    ensures { result ≡ specs.is_action item }
{
    matches!(item, Item::Action)
}

/// Second actions of a name.
pub(crate) fn check_second_actions(
    alloc: Global,
    items: &[Node],
    so_far: Option<Fault>,
) -> Result<Option<Fault>, AllocError>
    ensures { IfOk result (λ f. f ≡ first so_far (specs.second_actions [] (trees items.now))) }
{
    let mut seen = NameTable::new(alloc);
    let mut left = items;
    let mut found = so_far;
    'items: loop {
        match front_of(left) {
            Front::End => return Ok(found),
            Front::Word { rest, .. } => left = rest,
            Front::List { items, place, rest } => {
                let counts = is_action(TextKind::Domain.item_of(head_of(items)));
                found = check_once(counts, head_of(tail_of(items)), place, &mut seen, found)?;
                left = rest;
            }
        }
    }
}

/// Second declarations of a name in a row. What is seen grows by the row.
fn check_second_declared(
    seen: &mut NameTable,
    items: &[Node],
    so_far: Option<Fault>,
) -> Result<Option<Fault>, AllocError>
    ensures faults { IfOk result (λ f. f
        ≡ first so_far (specs.second_declared seen.old (trees items.now))) }
    ensures seen { OnOk result (seen.new ≡ specs.declared_after seen.old (trees items.now)) }
{
    let mut left = items;
    let mut found = so_far;
    'declarations: loop {
        match front_of(left) {
            Front::End => return Ok(found),
            Front::Word { rest, .. } => left = rest,
            Front::List { items, place, rest } => {
                found = check_once(true, head_of(items), place, seen, found)?;
                left = rest;
            }
        }
    }
}

/// Second predicates, or second functions, of a name.
pub(crate) fn check_second_signatures(
    alloc: Global,
    declared: Declared,
    items: &[Node],
    so_far: Option<Fault>,
) -> Result<Option<Fault>, AllocError>
    ensures { IfOk result (λ f. f ≡ first so_far
        (specs.second_signatures declared [] (trees items.now))) }
{
    let mut seen = NameTable::new(alloc);
    let mut left = items;
    let mut found = so_far;
    'items: loop {
        match front_of(left) {
            Front::End => return Ok(found),
            Front::Word { rest, .. } => left = rest,
            Front::List { items, rest, .. } => {
                if declared.stands_in(TextKind::Domain.item_of(head_of(items))) {
                    found = check_second_declared(&mut seen, tail_of(items), found)?;
                }
                left = rest;
            }
        }
    }
}

/// How many derived predicates there may be.
const MAX_DERIVED: usize = 64;

/// Whether a list is a `:derived` item of a predicate that is there.
fn counts_as_derived(predicates: &Signatures, items: &[Node]) -> bool
    ensures { result ≡ specs.counts_as_derived predicates.now.names (trees items.now) }
{
    is_derived(TextKind::Domain.item_of(head_of(items))) && predicates.has(headed(items))
}

/// The predicate is not the 65th, if its item, which is the list at this place, counts.
fn check_crowded(
    counts: bool,
    name: &[u8],
    place: usize,
    heads: &mut NameTable,
    so_far: Option<Fault>,
) -> Result<Option<Fault>, AllocError>
    ensures faults { IfOk result (λ f. f
        ≡ first so_far (specs.crowded counts name.now place heads.old)) }
    ensures heads { OnOk result (heads.new ≡ specs.seen_once counts name.now heads.old) }
{
    if !counts {
        return Ok(so_far);
    }
    let fits = heads.has(name) || heads.len() != MAX_DERIVED;
    let _new = heads.add(name)?;
    Ok(unless(fits, InputKind::TooMany, place, so_far))
}

/// The item with the 65th derived predicate.
pub(crate) fn check_derived_count(
    alloc: Global,
    predicates: &Signatures,
    items: &[Node],
    so_far: Option<Fault>,
) -> Result<Option<Fault>, AllocError>
    ensures { IfOk result (λ f. f ≡ first so_far
        (specs.too_many_derived predicates.now.names [] (trees items.now))) }
{
    let mut heads = NameTable::new(alloc);
    let mut left = items;
    let mut found = so_far;
    'items: loop {
        match front_of(left) {
            Front::End => return Ok(found),
            Front::Word { rest, .. } => left = rest,
            Front::List { items, place, rest } => {
                let counts = counts_as_derived(predicates, items);
                found = check_crowded(counts, headed(items), place, &mut heads, found)?;
                left = rest;
            }
        }
    }
}
