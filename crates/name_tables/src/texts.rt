//! The parts of a text: its items, and the values of keys.
#![tactic(auto, using(form_reader::proofs::FaultsFirstLemmas::first_append))]

ghost use Rattle.std.specs.Prelude.{◌≡◌, IfOk};
ghost use Rattle.sexpr_text.specs.Trees.{tree, trees};
ghost use Rattle.form_reader.specs.Faults.{first};
ghost use Rattle.form_reader.specs.Rows.{inner_of};
ghost use Rattle.name_tables.specs.Texts as specs;

use crate::names::NameTable;
use crate::variables::unless;
use form_reader::{Fault, InputKind, inner_of, tail_of};
use sexpr_text::{Front, Node, Tree, alone, front_of};
use std::alloc::AllocError;

/// The trees of the list that a text is.
pub fn text_of<'a>(text: &'a Tree) -> &'a [Node]
    ensures { trees result.now ≡ inner_of (tree text.now) }
{
    match alone(text) {
        Front::End | Front::Word { .. } => &[],
        Front::List { items, .. } => items,
    }
}

/// The items of a text: what stands behind `define` and the title.
pub fn body_of<'a>(text: &'a Tree) -> &'a [Node]
    ensures { trees result.now ≡ specs.body_of (tree text.now) }
{
    tail_of(tail_of(text_of(text)))
}

/// The value of the first key that is this word, or nothing.
pub fn value_at<'a>(key: &[u8], keys: &'a [Node]) -> &'a [Node]
    ensures { trees result.now ≡ specs.value_at key.now (trees keys.now) }
{
    let mut left = keys;
    'keys: loop {
        match front_of(left) {
            Front::End => return &[],
            Front::Word { text, rest, .. } => {
                if text == key {
                    return inner_of(rest);
                }
                left = rest;
            }
            Front::List { rest, .. } => left = rest,
        }
    }
}

/// Adds to a fault so far a `Duplicate` for each word of a row that was seen before, in the row or
/// before it. Fails only where memory is wanting.
pub fn check_repeated(
    seen: &mut NameTable,
    items: &[Node],
    so_far: Option<Fault>,
) -> Result<Option<Fault>, AllocError>
    ensures { IfOk result (λ f. f ≡ first so_far
        (specs.repeated_names seen.old (trees items.now))) }
{
    let mut left = items;
    let mut found = so_far;
    'words: loop {
        match front_of(left) {
            Front::End => return Ok(found),
            Front::Word { text, place, rest } => {
                found = unless(seen.add(text)?, InputKind::Duplicate, place, found);
                left = rest;
            }
            Front::List { rest, .. } => left = rest,
        }
    }
}
