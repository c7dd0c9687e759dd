//! The tables of names that a domain's items make.
ghost use Rattle.std.specs.Prelude.{◌≡◌, length, IfOk, OnOk};
ghost use Rattle.sexpr_text.specs.Trees.{tree, trees};
ghost use Rattle.form_reader.specs.declared.groups.Spot.TheVariants.{Start};
ghost use Rattle.name_tables.specs.Variables.{named_words, seen_after};
ghost use Rattle.name_tables.specs.Vocabulary.{with_total_cost};
ghost use Rattle.domain_reader.specs.Tables as specs;

use form_reader::{Item, Spot, TextKind, head_of, inner_of, is_dash, is_total_cost, tail_of};
use name_tables::{NameTable, Signatures, Vocabulary, is_named, next, text_of};
use sexpr_text::{Front, Node, Tree, front_of};
use std::alloc::{AllocError, Global};

/// A text's name, the second word of its title, or no letters where there is none.
pub fn name_of<'a>(text: &'a Tree) -> &'a [u8]
    ensures { result.now ≡ specs.name_of (tree text.now) }
{
    head_of(tail_of(inner_of(tail_of(text_of(text)))))
}

/// Adds the types of a `:types` item.
fn add_types(names: &mut NameTable, items: &[Node]) -> Result<(), AllocError>
    ensures { OnOk result (names.new ≡ specs.types_in names.old (trees items.now)) }
{
    let mut left = items;
    'words: loop {
        match front_of(left) {
            Front::End => return Ok(()),
            Front::Word { text, rest, .. } => {
                if !is_dash(text) {
                    let _new = names.add(text)?;
                }
                left = rest;
            }
            Front::List { rest, .. } => left = rest,
        }
    }
}

/// Adds the names, or the variables, of groups. Fails only where memory is wanting.
pub fn add_named(names: &mut NameTable, items: &[Node]) -> Result<(), AllocError>
    ensures { OnOk result (names.new ≡ seen_after names.old Start (trees items.now)) }
{
    let mut left = items;
    let mut spot = Spot::Start;
    'words: loop {
        let Front::Word { text, rest, .. } = front_of(left) else {
            return Ok(());
        };
        if is_named(spot, text) {
            let _new = names.add(text)?;
        }
        spot = spot.after_word(text);
        left = rest;
    }
}

/// How many variables there are. Fails only where they can't be counted.
pub(crate) fn count_named(items: &[Node]) -> Result<usize, AllocError>
    ensures { IfOk result (λ n. n ≡ length (named_words Start (trees items.now))) }
{
    let mut left = items;
    let mut spot = Spot::Start;
    let mut count = 0;
    'words: loop {
        let Front::Word { text, rest, .. } = front_of(left) else {
            return Ok(count);
        };
        if is_named(spot, text) {
            count = next(count)?;
        }
        spot = spot.after_word(text);
        left = rest;
    }
}

/// How many arguments a declared function takes; the total cost takes none.
fn declared_arity(name: &[u8], vars: &[Node]) -> Result<usize, AllocError>
    ensures { IfOk result (λ n. n ≡ specs.declared_arity name.now (trees vars.now)) }
{
    if is_total_cost(name) {
        return Ok(0);
    }
    count_named(vars)
}

/// Declares the predicates of a row.
fn add_predicates(signatures: &mut Signatures, items: &[Node]) -> Result<(), AllocError>
    ensures { OnOk result (signatures.new ≡ specs.predicates_in signatures.old (trees items.now)) }
{
    let mut left = items;
    'declarations: loop {
        match front_of(left) {
            Front::End => return Ok(()),
            Front::Word { rest, .. } => left = rest,
            Front::List { items, rest, .. } => {
                let arity = count_named(tail_of(items))?;
                signatures.declare(head_of(items), arity)?;
                left = rest;
            }
        }
    }
}

/// Declares the functions of a row.
fn add_functions(signatures: &mut Signatures, items: &[Node]) -> Result<(), AllocError>
    ensures { OnOk result (signatures.new ≡ specs.functions_in signatures.old (trees items.now)) }
{
    let mut left = items;
    'declarations: loop {
        match front_of(left) {
            Front::End => return Ok(()),
            Front::Word { rest, .. } => left = rest,
            Front::List { items, rest, .. } => {
                let name = head_of(items);
                let arity = declared_arity(name, tail_of(items))?;
                signatures.declare(name, arity)?;
                left = rest;
            }
        }
    }
}

/// Adds what one item of a domain declares.
fn add_item(names: &mut Vocabulary, item: Item, items: &[Node]) -> Result<(), AllocError>
    ensures { OnOk result (names.new ≡ specs.with_item names.old item (trees items.now)) }
{
    match item {
        Item::Types => add_types(&mut names.sorts, items),
        Item::Constants => add_named(&mut names.objects, items),
        Item::Predicates => add_predicates(&mut names.predicates, items),
        Item::Functions => add_functions(&mut names.functions, items),
        Item::Requirements
        | Item::Derived
        | Item::Action
        | Item::Domain
        | Item::Objects
        | Item::Init
        | Item::Goal
        | Item::Metric
        | Item::Stream
        | Item::CostStream
        | Item::Unknown
        | Item::NoItem => Ok(()),
    }
}

/// Adds what items declare, and the total cost.
fn add_all(names: &mut Vocabulary, items: &[Node]) -> Result<(), AllocError>
    ensures { OnOk result (names.new
        ≡ with_total_cost (specs.with_items names.old (trees items.now))) }
{
    add_items(names, items)?;
    names.functions.declare(b"total-cost", 0)?;
    Ok(())
}

/// The names of a domain with these items. Fails only where memory is wanting.
pub(crate) fn vocabulary_of(alloc: Global, body: &[Node]) -> Result<Vocabulary, AllocError>
    ensures { IfOk result (λ names. names ≡ specs.vocabulary_in (trees body.now)) }
{
    let mut names = no_names(alloc)?;
    add_all(&mut names, body)?;
    Ok(names)
}

/// The names before all items: the type `object`.
fn no_names(alloc: Global) -> Result<Vocabulary, AllocError>
    ensures { IfOk result (λ names. names ≡ specs.no_names) }
{
    let mut sorts = NameTable::new(alloc);
    let _new = sorts.add(b"object")?;
    Ok(Vocabulary {
        sorts,
        predicates: Signatures::new(alloc),
        functions: Signatures::new(alloc),
        objects: NameTable::new(alloc),
    })
}

/// Adds what items declare.
fn add_items(names: &mut Vocabulary, items: &[Node]) -> Result<(), AllocError>
    ensures { OnOk result (names.new ≡ specs.with_items names.old (trees items.now)) }
{
    let mut left = items;
    'items: loop {
        match front_of(left) {
            Front::End => return Ok(()),
            Front::Word { rest, .. } => left = rest,
            Front::List { items, rest, .. } => {
                let item = TextKind::Domain.item_of(head_of(items));
                add_item(names, item, tail_of(items))?;
                left = rest;
            }
        }
    }
}

/// Whether the item is of a derived predicate.
pub(crate) fn is_derived(item: Item) -> bool
    ensures { result ≡ specs.is_derived_item item }
{
    matches!(item, Item::Derived)
}

/// The predicate that a list heads, if it is a `:derived` item.
pub(crate) fn headed<'a>(items: &'a [Node]) -> &'a [u8]
    ensures { result.now ≡ specs.headed (trees items.now) }
{
    head_of(inner_of(tail_of(items)))
}

/// Adds the predicates that `:derived` items head.
pub(crate) fn add_heads(names: &mut NameTable, items: &[Node]) -> Result<(), AllocError>
    ensures { OnOk result (names.new ≡ specs.heads_in names.old (trees items.now)) }
{
    let mut left = items;
    'items: loop {
        match front_of(left) {
            Front::End => return Ok(()),
            Front::Word { rest, .. } => left = rest,
            Front::List { items, rest, .. } => {
                if is_derived(TextKind::Domain.item_of(head_of(items))) {
                    let _new = names.add(headed(items))?;
                }
                left = rest;
            }
        }
    }
}
