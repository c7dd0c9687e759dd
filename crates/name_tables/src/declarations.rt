//! Names with the numbers of their types.
ghost use Rattle.std.specs.Prelude.{◌≡◌, [], IfOk, OnOk};
ghost use Rattle.sexpr_text.specs.Trees.{trees};
ghost use Rattle.form_reader.specs.declared.groups.Spot.TheVariants.{Start};
ghost use Rattle.name_tables.specs.Declarations as specs;
ghost use Rattle.name_tables.specs.Declarations.{declare_each};
ghost use Rattle.name_tables.specs.Variables.{named_sorts as sorts_in, named_words};

use crate::names::NameTable;
use crate::number_lists::NumberLists;
use crate::variables::{is_named, named_sorts};
use form_reader::Spot;
use sexpr_text::{Front, Node, front_of};
use std::alloc::{AllocError, Global};
use std::marker::Model;
use task_model::{Declared, Name};

/// Distinct names in the order in which they came, each with its types.
#[derive(Drop)]
pub struct TypedNames {
    names: NameTable,
    sorts: NumberLists,
    alloc: Global,
}

impl Model for TypedNames {
    ghost use Rattle.name_tables.specs.Declarations.{Typed};

    ghost Value = { Typed };

    ghost view = { λ t. record { names = t.names; sorts = t.sorts } };
}

impl TypedNames {
    /// No name, which takes no memory.
    pub fn new(alloc: Global) -> TypedNames
        ensures { result ≡ record { names = []; sorts = [] } }
    {
        TypedNames {
            names: NameTable::new(alloc),
            sorts: NumberLists::new(alloc),
            alloc,
        }
    }

    /// Declares a name with a type. A name that is declared again has both types. Fails only where
    /// memory is wanting.
    pub fn declare(&mut self, name: &[u8], sort: u32) -> Result<(), AllocError>
        ensures { OnOk result (self.new ≡ specs.declare self.old name.now sort) }
    {
        let (place, fresh) = self.names.put(name)?;
        if fresh {
            self.sorts.push_one(sort)
        } else {
            self.sorts.add(place, sort)
        }
    }

    /// The names and their types as a task has them. Fails only where memory is wanting.
    pub fn to_declared(&self) -> Result<Vec<Declared>, AllocError>
        ensures { IfOk result (λ list. list.items
            ≡ specs.declared_list self.now.names self.now.sorts) }
    {
        declared_of(self.alloc, &self.names, &self.sorts)
    }

    /// The names, and beside them the lists of their types.
    pub fn into_parts(self) -> (NameTable, NumberLists)
        ensures names { result.0 ≡ self.names }
        ensures sorts { result.1 ≡ self.sorts }
    {
        let TypedNames { names, sorts, .. } = self;
        (names, sorts)
    }
}

/// The names, each with the types in the list beside it, as a task has them. Fails only where memory
/// is wanting.
pub fn declared_of(
    alloc: Global,
    names: &NameTable,
    sorts: &NumberLists,
) -> Result<Vec<Declared>, AllocError>
    ensures { IfOk result (λ list. list.items ≡ specs.declared_list names.now sorts.now) }
{
    let mut list = Vec::with_capacity(alloc, names.len())?;
    for place in 0..names.len() {
        let Some(sorts) = sorts.sorts_at(place)? else {
            return Ok(list);
        };
        let name = Name::from_slice(alloc, names.name_at(place))?;
        list.push(Declared { name, sorts })?;
    }
    Ok(list)
}

/// Declares each name of groups, with its type. Fails only where memory is wanting.
pub fn declare_groups(
    alloc: Global,
    names: &mut TypedNames,
    sorts: &NameTable,
    items: &[Node],
) -> Result<(), AllocError>
    ensures { OnOk result (names.new
        ≡ declare_each names.old (named_words Start (trees items.now))
        (sorts_in sorts.now Start 0 (trees items.now))) }
{
    let types = named_sorts(alloc, sorts, items)?;
    let mut waiting = types.as_slice();
    let mut left = items;
    let mut spot = Spot::Start;
    'words: loop {
        let Front::Word { text, rest, .. } = front_of(left) else {
            return Ok(());
        };
        if is_named(spot, text) {
            let [sort, more @ ..] = waiting else {
                return Ok(());
            };
            names.declare(text, *sort)?;
            waiting = more;
        }
        spot = spot.after_word(text);
        left = rest;
    }
}
