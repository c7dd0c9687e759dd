//! The names of a problem: those of its domain, and its objects.
ghost use Rattle.std.specs.Prelude.{◌≡◌, IfOk, OnOk};
ghost use Rattle.std.specs.List.{list_all};
ghost use Rattle.sexpr_text.specs.Trees.{trees};
ghost use Rattle.name_tables.specs.Vocabulary.{vocabulary_of};
ghost use Rattle.problem_reader.specs.Problems as problems;
ghost use Rattle.problem_reader.specs.Tables as specs;

use crate::objects::objects_of;
use domain_reader::add_named;
use form_reader::{Item, TextKind, head_of, tail_of};
use name_tables::{NameTable, NumberLists, Vocabulary};
use sexpr_text::{Front, Node, front_of};
use std::alloc::{AllocError, Global};
use task_model::{Declared, Domain};

/// Whether the item declares objects.
pub(crate) fn is_objects(item: Item) -> bool
    ensures { result ≡ specs.is_objects item }
{
    matches!(item, Item::Objects)
}

/// Adds the objects that items declare.
fn add_objects(names: &mut NameTable, items: &[Node]) -> Result<(), AllocError>
    ensures { OnOk result (names.new ≡ specs.object_names_in names.old (trees items.now)) }
{
    let mut left = items;
    'items: loop {
        match front_of(left) {
            Front::End => return Ok(()),
            Front::Word { rest, .. } => left = rest,
            Front::List { items, rest, .. } => {
                if is_objects(TextKind::Problem.item_of(head_of(items))) {
                    add_named(names, tail_of(items))?;
                }
                left = rest;
            }
        }
    }
}

/// Whether a constant has a type.
fn has_type(constant: &Declared) -> bool
    ensures { result ≡ specs.has_type constant.now }
{
    0 < constant.sorts.as_slice().len()
}

/// Whether each constant has a type, as in a domain that was read.
fn have_types(constants: &[Declared]) -> bool
    ensures { result ≡ list_all specs.has_type constants.now }
{
    constants.iter().all(|constant| has_type(constant))
}

/// Puts the objects behind the constants of a domain's names. The types of all of them, at the places
/// of their names, are kept where each constant has one. Fails only where memory is wanting.
pub(crate) fn put_objects(
    alloc: Global,
    domain: &Domain,
    names: &mut Vocabulary,
    body: &[Node],
) -> Result<Option<NumberLists>, AllocError>
    requires { names.old ≡ vocabulary_of domain.now }
    ensures names { OnOk result (names.new ≡ specs.problem_names domain.now (trees body.now)) }
    ensures types { IfOk result
        (λ kept. problems.AreTypesOf domain.now names.new (trees body.now) kept) }
{
    if have_types(domain.constants.as_slice()) {
        let typed = objects_of(alloc, domain, &names.sorts, body)?;
        let (objects, sorts) = typed.into_parts();
        names.objects = objects;
        Ok(Some(sorts))
    } else {
        add_objects(&mut names.objects, body)?;
        Ok(None)
    }
}
