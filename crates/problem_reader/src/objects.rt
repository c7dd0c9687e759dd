//! The objects of a problem, with their types.
ghost use Rattle.std.specs.Prelude.{◌≡◌, IfOk, OnOk};
ghost use Rattle.sexpr_text.specs.Trees.{trees};
ghost use Rattle.problem_reader.specs.Problems as specs;

use crate::tables::is_objects;
use form_reader::{TextKind, head_of, tail_of};
use name_tables::{NameTable, TypedNames, declare_groups};
use sexpr_text::{Front, Node, front_of};
use std::alloc::{AllocError, Global};
use task_model::{Declared, Domain};

/// Declares a name with each of these types.
fn declare_all(names: &mut TypedNames, name: &[u8], sorts: &[u32]) -> Result<(), AllocError>
    ensures { OnOk result (names.new ≡ specs.declare_all names.old name.now sorts.now) }
{
    for sort in sorts {
        names.declare(name, *sort)?;
    }
    Ok(())
}

/// Declares constants with their types.
fn declare_constants(names: &mut TypedNames, constants: &[Declared]) -> Result<(), AllocError>
    ensures { OnOk result (names.new ≡ specs.constants_typed names.old constants.now) }
{
    for constant in constants {
        declare_all(names, constant.name.bytes(), constant.sorts.as_slice())?;
    }
    Ok(())
}

/// Declares the objects of items with their types.
fn declare_objects(
    alloc: Global,
    sorts: &NameTable,
    names: &mut TypedNames,
    items: &[Node],
) -> Result<(), AllocError>
    ensures { OnOk result (names.new ≡ specs.objects_typed sorts.now names.old (trees items.now)) }
{
    let mut left = items;
    'items: loop {
        match front_of(left) {
            Front::End => return Ok(()),
            Front::Word { rest, .. } => left = rest,
            Front::List { items, rest, .. } => {
                if is_objects(TextKind::Problem.item_of(head_of(items))) {
                    declare_groups(alloc, names, sorts, tail_of(items))?;
                }
                left = rest;
            }
        }
    }
}

/// The constants and the objects with their types. Fails only where memory is wanting.
pub(crate) fn objects_of(
    alloc: Global,
    domain: &Domain,
    sorts: &NameTable,
    body: &[Node],
) -> Result<TypedNames, AllocError>
    ensures { IfOk result (λ typed. typed
        ≡ specs.all_typed domain.now sorts.now (trees body.now)) }
{
    let mut names = TypedNames::new(alloc);
    declare_constants(&mut names, domain.constants.as_slice())?;
    declare_objects(alloc, sorts, &mut names, body)?;
    Ok(names)
}
