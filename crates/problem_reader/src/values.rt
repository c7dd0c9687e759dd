//! Function terms with two different values.
#![tactic(auto, using(form_reader::proofs::FaultsFirstLemmas::first_append))]

ghost use Rattle.std.specs.Prelude.{◌≡◌, [], IfOk, OnOk};
ghost use Rattle.sexpr_text.specs.Trees.{trees};
ghost use Rattle.form_reader.specs.Faults.{first};
ghost use Rattle.problem_reader.specs.Values as specs;

use crate::items::is_worth;
use form_reader::{Fault, InputKind, Item, TextKind, head_of, inner_of, tail_of};
use name_tables::{NameTable, unless};
use sexpr_text::{Front, Node, front_of};
use std::alloc::{AllocError, Global};
use std::marker::Model;
use task_model::number_of;

/// Whether the item gives the first facts.
pub(crate) fn is_init(item: Item) -> bool
    ensures { result ≡ specs.is_init item }
{
    matches!(item, Item::Init)
}

/// The words of the term in a list that gives it a value.
pub(crate) fn term_in<'a>(items: &'a [Node]) -> &'a [Node]
    ensures { trees result.now ≡ specs.term_in (trees items.now) }
{
    inner_of(tail_of(items))
}

/// The number in such a list.
pub(crate) fn value_in(items: &[Node]) -> u32
    ensures { result ≡ specs.value_in (trees items.now) }
{
    number_of(head_of(tail_of(tail_of(items)))).unwrap_or(0)
}

/// How a term is written, with one space behind each word.
fn spelled(alloc: Global, items: &[Node]) -> Result<Vec<u8>, AllocError>
    ensures { IfOk result (λ letters. letters.items ≡ specs.spelled_term (trees items.now)) }
{
    let mut letters = Vec::new(alloc);
    let mut left = items;
    'words: loop {
        match front_of(left) {
            Front::End => return Ok(letters),
            Front::Word { text, rest, .. } => {
                letters.extend_from_slice(text)?;
                letters.push(b' ')?;
                left = rest;
            }
            Front::List { rest, .. } => left = rest,
        }
    }
}

/// The first value of each term, which is known by how it is written.
#[derive(Drop)]
struct Values {
    terms: NameTable,
    values: Vec<u32>,
}

impl Model for Values {
    ghost use Rattle.problem_reader.specs.Values.{Given};

    ghost Value = { Given };

    ghost view = { λ v. record { terms = v.terms; values = v.values.items } };
}

impl Values {
    /// No value, which takes no memory.
    fn new(alloc: Global) -> Values
        ensures { result ≡ record { terms = []; values = [] } }
    {
        Values {
            terms: NameTable::new(alloc),
            values: Vec::new(alloc),
        }
    }

    /// The first value of the term, if it has one.
    fn value_of(&self, term: &[u8]) -> Option<u32>
        ensures { result ≡ specs.value_of_term self.now term.now }
    {
        match self.terms.place_of(term) {
            None => None,
            Some(place) => self.values.get(place).copied(),
        }
    }

    /// Gives the term a value, unless it has one. Fails only where memory is wanting.
    fn put(&mut self, term: &[u8], value: u32) -> Result<(), AllocError>
        ensures { OnOk result (self.new ≡ specs.with_term_value self.old term.now value) }
    {
        if self.terms.add(term)? {
            self.values.push(value)?;
        }
        Ok(())
    }
}

/// Whether a value isn't the term's first one.
fn differs(before: Option<u32>, value: u32) -> bool
    ensures { result ≡ specs.differs before value }
{
    match before {
        None => false,
        Some(before) => before != value,
    }
}

/// A fact, which is the list at this place, and what it gives a value.
fn check_value(
    alloc: Global,
    given: &mut Values,
    place: usize,
    items: &[Node],
    so_far: Option<Fault>,
) -> Result<Option<Fault>, AllocError>
    ensures faults { IfOk result (λ f. f
        ≡ first so_far (specs.problem_value_names given.old place (trees items.now))) }
    ensures given { OnOk result (given.new ≡ specs.value_put given.old (trees items.now)) }
{
    if !is_worth(items) {
        return Ok(so_far);
    }
    let letters = spelled(alloc, term_in(items))?;
    let value = value_in(items);
    let changed = differs(given.value_of(letters.as_slice()), value);
    given.put(letters.as_slice(), value)?;
    Ok(unless(!changed, InputKind::Duplicate, place, so_far))
}

/// Facts in a row, and what they give values.
fn check_row(
    alloc: Global,
    given: &mut Values,
    items: &[Node],
    so_far: Option<Fault>,
) -> Result<Option<Fault>, AllocError>
    ensures faults { IfOk result (λ f. f
        ≡ first so_far (specs.row_names given.old (trees items.now))) }
    ensures given { OnOk result (given.new ≡ specs.row_put given.old (trees items.now)) }
{
    let mut left = items;
    let mut found = so_far;
    'facts: loop {
        match front_of(left) {
            Front::End => return Ok(found),
            Front::Word { rest, .. } => left = rest,
            Front::List { items, place, rest } => {
                found = check_value(alloc, given, place, items, found)?;
                left = rest;
            }
        }
    }
}

/// Function terms with two different values in `:init` items. Fails only where memory is wanting.
pub(crate) fn check_values(
    alloc: Global,
    items: &[Node],
    so_far: Option<Fault>,
) -> Result<Option<Fault>, AllocError>
    ensures { IfOk result (λ f. f ≡ first so_far
        (specs.values_names specs.nothing_given (trees items.now))) }
{
    let mut given = Values::new(alloc);
    let mut left = items;
    let mut found = so_far;
    'items: loop {
        match front_of(left) {
            Front::End => return Ok(found),
            Front::Word { rest, .. } => left = rest,
            Front::List { items, rest, .. } => {
                if is_init(TextKind::Problem.item_of(head_of(items))) {
                    found = check_row(alloc, &mut given, tail_of(items), found)?;
                }
                left = rest;
            }
        }
    }
}
