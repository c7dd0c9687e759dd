//! Names that are declared with a number of arguments.
ghost use Rattle.std.specs.Prelude.{◌≡◌, [], length, IfOk, OnOk};
ghost use Rattle.name_tables.specs.Names.{has_name, with_signature, table_place};
ghost use Rattle.name_tables.specs.Declarations.{signature_list};
ghost use Rattle.name_tables.specs.Vocabulary as specs;

use crate::names::NameTable;
use crate::terms::small_number;
use std::alloc::{AllocError, Global};
use std::marker::Model;
use task_model::{Name, Signature};

/// Declared predicates or functions, each with its number of arguments. The first declaration of a
/// name counts.
#[derive(Drop)]
pub struct Signatures {
    names: NameTable,
    arities: Vec<usize>,
    alloc: Global,
}

impl Model for Signatures {
    ghost use Rattle.name_tables.specs.Names.{Signed};

    ghost Value = { Signed };

    ghost view = { λ s. record { names = s.names; arities = s.arities.items } };
}

impl Signatures {
    /// No declaration, which takes no memory.
    pub fn new(alloc: Global) -> Signatures
        ensures { result ≡ record { names = []; arities = [] } }
    {
        Signatures {
            names: NameTable::new(alloc),
            arities: Vec::new(alloc),
            alloc,
        }
    }

    /// Declares the name with so many arguments, unless it is there. Fails only where memory is
    /// wanting.
    pub fn declare(&mut self, name: &[u8], arity: usize) -> Result<(), AllocError>
        ensures { OnOk result (self.new ≡ with_signature self.old name.now arity) }
    {
        if self.names.add(name)? {
            self.arities.push(arity)?;
        }
        Ok(())
    }

    /// The name's place, from 0, or None where it isn't declared.
    pub fn place_of(&self, name: &[u8]) -> Option<usize>
        ensures { result ≡ table_place name.now self.now.names }
    {
        self.names.place_of(name)
    }

    /// How many names are declared.
    pub fn len(&self) -> usize
        ensures { result ≡ length self.now.names }
    {
        self.names.len()
    }

    /// Whether the name is declared.
    pub fn has(&self, name: &[u8]) -> bool
        ensures { result ≡ has_name name.now self.now.names }
    {
        self.names.has(name)
    }

    /// How many arguments the name takes, or None where it isn't declared.
    pub fn arity_of(&self, name: &[u8]) -> Option<usize>
        ensures { result ≡ specs.arity_of self.now name.now }
    {
        self.arity_at(self.names.place_of(name))
    }

    /// How many arguments the name at this place takes, or None where there is none.
    pub fn arity_at(&self, place: Option<usize>) -> Option<usize>
        ensures { result ≡ specs.arity_at self.now place }
    {
        self.arities.get(place?).copied()
    }

    /// The declarations as a task has them. Fails only where memory is wanting or an arity is past
    /// 255.
    pub fn to_signatures(&self) -> Result<Vec<Signature>, AllocError>
        ensures { IfOk result (λ list. list.items
            ≡ signature_list self.now.names self.now.arities) }
    {
        let mut list = Vec::new(self.alloc);
        for place in 0..self.names.len() {
            let Some(arity) = self.arities.get(place) else {
                return Ok(list);
            };
            let name = Name::from_slice(self.alloc, self.names.name_at(place))?;
            let arity = small_number(*arity)?;
            list.push(Signature { name, arity })?;
        }
        Ok(list)
    }
}
