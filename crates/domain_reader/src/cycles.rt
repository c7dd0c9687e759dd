//! The cycles of a domain's types and of its derived predicates.
ghost use Rattle.std.specs.Prelude.{◌≡◌, ◌++◌, [], IfOk, OnOk};
ghost use Rattle.sexpr_text.specs.Trees.{trees};
ghost use Rattle.form_reader.specs.declared.groups.Spot.TheVariants.{Start};
ghost use Rattle.name_tables.specs.Variables.{named_sorts as sorts_in, named_words, seen_after};
ghost use Rattle.domain_reader.specs.Cycles as specs;

use crate::tables::{headed, is_derived};
use form_reader::{Item, Spot, TextKind, head_of, tail_of};
use name_tables::{
    Candidate, NameTable, NumberLists, Signatures, ascending, is_named, named_sorts, number,
    reached_from, sort_of,
};
use sexpr_text::{Front, Node, front_of};
use std::alloc::{AllocError, Global};
use task_model::{Name, Seq, Sort};

/// Whether the item lists types.
fn is_types(item: Item) -> bool
    ensures { result ≡ specs.is_types item }
{
    matches!(item, Item::Types)
}

/// What the type at a place is under before `:types` is read.
fn first_edge(alloc: Global, place: usize) -> Result<Vec<u32>, AllocError>
    ensures { IfOk result (λ above. above.items ≡ specs.first_edge place) }
{
    let mut above = Vec::new(alloc);
    if place != 0 {
        above.push(0)?;
    }
    Ok(above)
}

/// What each type is under before `:types` is read: `object`, which is the first, under nothing,
/// and the others under it.
fn first_edges(alloc: Global, sorts: &NameTable) -> Result<NumberLists, AllocError>
    ensures { IfOk result (λ edges. edges ≡ specs.first_edges sorts.now) }
{
    let mut edges = NumberLists::new(alloc);
    for place in 0..sorts.len() {
        edges.push(first_edge(alloc, place)?)?;
    }
    Ok(edges)
}

/// Puts one type under another, except `object` under itself.
fn put_edge(edges: &mut NumberLists, below: u32, above: u32) -> Result<(), AllocError>
    ensures { OnOk result (edges.new ≡ specs.edge_put edges.old below above) }
{
    if below == 0 && above == 0 {
        return Ok(());
    }
    edges.add(below as usize, above)
}

/// Puts each listed type of a row under the type beside it.
fn add_row(
    alloc: Global,
    edges: &mut NumberLists,
    sorts: &NameTable,
    items: &[Node],
) -> Result<(), AllocError>
    ensures { OnOk result (edges.new
        ≡ specs.edges_each sorts.now edges.old (named_words Start (trees items.now))
        (sorts_in sorts.now Start 0 (trees items.now))) }
{
    let types = named_sorts(alloc, sorts, items)?;
    let mut waiting = types.as_slice();
    let mut left = items;
    let mut spot = Spot::Start;
    'words: loop {
        let Front::Word { text, rest, .. } = front_of(left) else {
            return Ok(());
        };
        if is_named(spot, text) {
            let [above, more @ ..] = waiting else {
                return Ok(());
            };
            put_edge(edges, sort_of(sorts, text)?, *above)?;
            waiting = more;
        }
        spot = spot.after_word(text);
        left = rest;
    }
}

/// Puts the types of `:types` items under the types beside them.
fn add_types(
    alloc: Global,
    edges: &mut NumberLists,
    sorts: &NameTable,
    items: &[Node],
) -> Result<(), AllocError>
    ensures { OnOk result (edges.new
        ≡ specs.edges_in sorts.now edges.old (trees items.now)) }
{
    let mut left = items;
    'items: loop {
        match front_of(left) {
            Front::End => return Ok(()),
            Front::Word { rest, .. } => left = rest,
            Front::List { items, rest, .. } => {
                if is_types(TextKind::Domain.item_of(head_of(items))) {
                    add_row(alloc, edges, sorts, tail_of(items))?;
                }
                left = rest;
            }
        }
    }
}

/// What each type is directly under. Fails only where memory is wanting.
pub(crate) fn type_edges(
    alloc: Global,
    sorts: &NameTable,
    body: &[Node],
) -> Result<Vec<Seq<u32>>, AllocError>
    ensures { IfOk result (λ edges. edges.items ≡ specs.type_edges sorts.now (trees body.now)) }
{
    let mut edges = first_edges(alloc, sorts)?;
    add_types(alloc, &mut edges, sorts, body)?;
    edges.to_lists()
}

/// Adds the first listings of a row. What is seen grows by the row.
fn list_row(
    sorts: &NameTable,
    seen: &mut NameTable,
    listed: &mut Vec<Candidate>,
    items: &[Node],
) -> Result<(), AllocError>
    ensures listed { OnOk result (listed.new.items ≡ listed.old.items
        ++ specs.listed_row sorts.now seen.old Start (trees items.now)) }
    ensures seen { OnOk result (seen.new ≡ seen_after seen.old Start (trees items.now)) }
{
    let mut left = items;
    let mut spot = Spot::Start;
    'words: loop {
        let Front::Word { text, place, rest } = front_of(left) else {
            return Ok(());
        };
        if is_named(spot, text) && seen.add(text)? {
            let node = sort_of(sorts, text)?;
            listed.push(Candidate { node, place })?;
        }
        spot = spot.after_word(text);
        left = rest;
    }
}

/// The first listing of each type. Fails only where memory is wanting.
pub(crate) fn listed_types(
    alloc: Global,
    sorts: &NameTable,
    body: &[Node],
) -> Result<Vec<Candidate>, AllocError>
    ensures { IfOk result (λ listed. listed.items ≡ specs.listed_in sorts.now [] (trees body.now)) }
{
    let mut listed = Vec::new(alloc);
    let mut seen = NameTable::new(alloc);
    let mut left = body;
    'items: loop {
        match front_of(left) {
            Front::End => return Ok(listed),
            Front::Word { rest, .. } => left = rest,
            Front::List { items, rest, .. } => {
                if is_types(TextKind::Domain.item_of(head_of(items))) {
                    list_row(sorts, &mut seen, &mut listed, tail_of(items))?;
                }
                left = rest;
            }
        }
    }
}

/// All proper supertypes of a type, ascending.
fn supertypes(alloc: Global, edges: &[Seq<u32>], sort: u32) -> Result<Seq<u32>, AllocError>
    ensures { IfOk result (λ above. specs.IsAbove edges.now sort above) }
{
    let reached = reached_from(alloc, edges, sort)?;
    Ok(Seq::from_vec(ascending(alloc, reached.as_slice())?))
}

/// The types as a task has them. Fails only where memory is wanting.
pub(crate) fn sorts_of(
    alloc: Global,
    edges: &[Seq<u32>],
    sorts: &NameTable,
) -> Result<Vec<Sort>, AllocError>
    ensures { IfOk result (λ list. specs.AreSorts edges.now 0 sorts.now list.items) }
{
    let mut list = Vec::new(alloc);
    for place in 0..sorts.len() {
        let name = Name::from_slice(alloc, sorts.name_at(place))?;
        let above = supertypes(alloc, edges, number(place)?)?;
        list.push(Sort { name, above })?;
    }
    Ok(list)
}

/// A predicate depends on one of this name, if that is there.
fn put_mention(edges: &mut NumberLists, from: usize, place: Option<usize>) -> Result<(), AllocError>
    ensures { OnOk result (edges.new ≡ specs.mention_put edges.old from place) }
{
    match place {
        None => Ok(()),
        Some(pred) => edges.add(from, number(pred)?),
    }
}

/// A predicate depends on those that head lists of these trees, however deep.
fn add_mentions(
    predicates: &Signatures,
    edges: &mut NumberLists,
    from: usize,
    items: &[Node],
) -> Result<(), AllocError>
    ensures { OnOk result (edges.new
        ≡ specs.mentions_in predicates.now.names edges.old from (trees items.now)) }
{
    let mut left = items;
    'trees: loop {
        match front_of(left) {
            Front::End => return Ok(()),
            Front::Word { rest, .. } => left = rest,
            Front::List { items, rest, .. } => {
                put_mention(edges, from, predicates.place_of(head_of(items)))?;
                add_mentions(predicates, edges, from, items)?;
                left = rest;
            }
        }
    }
}

/// No predicate depends on any.
fn no_edges(alloc: Global, predicates: &Signatures) -> Result<NumberLists, AllocError>
    ensures { IfOk result (λ edges. edges ≡ specs.no_edges predicates.now.names) }
{
    let mut edges = NumberLists::new(alloc);
    for _place in 0..predicates.len() {
        edges.push(Vec::new(alloc))?;
    }
    Ok(edges)
}

/// The predicate of a `:derived` item, if it is there.
fn derived_place(predicates: &Signatures, items: &[Node]) -> Option<usize>
    ensures { result ≡ specs.derived_place predicates.now.names (trees items.now) }
{
    if is_derived(TextKind::Domain.item_of(head_of(items))) {
        predicates.place_of(headed(items))
    } else {
        None
    }
}

/// A predicate depends on those of a body, if there is one.
fn put_body(
    predicates: &Signatures,
    edges: &mut NumberLists,
    place: Option<usize>,
    body: &[Node],
) -> Result<(), AllocError>
    ensures { OnOk result (edges.new
        ≡ specs.body_put predicates.now.names edges.old place (trees body.now)) }
{
    match place {
        None => Ok(()),
        Some(pred) => add_mentions(predicates, edges, pred, body),
    }
}

/// What each predicate depends on directly. Fails only where memory is wanting.
pub(crate) fn derived_edges(
    alloc: Global,
    predicates: &Signatures,
    body: &[Node],
) -> Result<Vec<Seq<u32>>, AllocError>
    ensures { IfOk result (λ edges. edges.items
        ≡ specs.derived_edges predicates.now.names (trees body.now)) }
{
    let mut edges = no_edges(alloc, predicates)?;
    let mut left = body;
    'items: loop {
        match front_of(left) {
            Front::End => return edges.to_lists(),
            Front::Word { rest, .. } => left = rest,
            Front::List { items, rest, .. } => {
                let place = derived_place(predicates, items);
                put_body(predicates, &mut edges, place, tail_of(tail_of(items)))?;
                left = rest;
            }
        }
    }
}

/// Each `:derived` item of a predicate that is there. Fails only where memory is wanting.
pub(crate) fn derived_items(
    alloc: Global,
    predicates: &Signatures,
    body: &[Node],
) -> Result<Vec<Candidate>, AllocError>
    ensures { IfOk result (λ list. list.items
        ≡ specs.derived_in predicates.now.names (trees body.now)) }
{
    let mut list = Vec::new(alloc);
    let mut left = body;
    'items: loop {
        match front_of(left) {
            Front::End => return Ok(list),
            Front::Word { rest, .. } => left = rest,
            Front::List { items, place, rest } => {
                if let Some(pred) = derived_place(predicates, items) {
                    list.push(Candidate {
                        node: number(pred)?,
                        place,
                    })?;
                }
                left = rest;
            }
        }
    }
}
