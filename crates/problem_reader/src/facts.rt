//! The values of functions.
ghost use Rattle.std.specs.Prelude.{◌≡◌, IfOk};
ghost use Rattle.sexpr_text.specs.Trees.{trees};
ghost use Rattle.problem_reader.specs.Problems as specs;

use crate::items::is_worth;
use crate::values::{term_in, value_in};
use form_reader::{head_of, tail_of};
use name_tables::{NameTable, Vocabulary, declared_place, number};
use sexpr_text::{Front, Node, front_of};
use std::alloc::{AllocError, Global};
use task_model::{Obj, Row, Valued};

/// The objects that the words of a row name.
pub(crate) fn places_of(
    alloc: Global,
    objects: &NameTable,
    items: &[Node],
) -> Result<Row, AllocError>
    ensures { IfOk result (λ row. row ≡ specs.places_in_row objects.now (trees items.now)) }
{
    let mut row = Row::empty(alloc);
    let mut left = items;
    'words: loop {
        match front_of(left) {
            Front::End => return Ok(row),
            Front::Word { text, rest, .. } => {
                let place = number(objects.place_of(text).unwrap_or(0))?;
                row.push(Obj::new(place))?;
                left = rest;
            }
            Front::List { rest, .. } => left = rest,
        }
    }
}

/// The value that a list of these trees gives a function term.
fn valued_of(alloc: Global, names: &Vocabulary, items: &[Node]) -> Result<Valued, AllocError>
    ensures { IfOk result (λ valued. valued ≡ specs.valued_of names.now (trees items.now)) }
{
    let term = term_in(items);
    let func = declared_place(&names.functions, head_of(term))?;
    let args = places_of(alloc, &names.objects, tail_of(term))?;
    let value = value_in(items);
    Ok(Valued { func, args, value })
}

/// The values of a row. Fails only where memory is wanting.
pub(crate) fn valueds_of(
    alloc: Global,
    names: &Vocabulary,
    items: &[Node],
) -> Result<Vec<Valued>, AllocError>
    ensures { IfOk result (λ list. list.items ≡ specs.valueds_of names.now (trees items.now)) }
{
    let mut list = Vec::new(alloc);
    let mut left = items;
    'facts: loop {
        match front_of(left) {
            Front::End => return Ok(list),
            Front::Word { rest, .. } => left = rest,
            Front::List { items, rest, .. } => {
                if is_worth(items) {
                    list.push(valued_of(alloc, names, items)?)?;
                }
                left = rest;
            }
        }
    }
}
