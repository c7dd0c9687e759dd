//! What names there are in the texts of a task.
ghost use Rattle.std.specs.Prelude.{◌≡◌, IfOk, OnOk};
ghost use Rattle.name_tables.specs.Vocabulary as specs;

use crate::names::NameTable;
use crate::signatures::Signatures;
use std::alloc::{AllocError, Global};
use task_model::{Declared, Domain, Signature, Sort};

/// The types, predicates, functions and objects by name. The objects are a domain's constants, and
/// for a problem the objects behind them.
#[derive(Drop)]
pub struct Vocabulary {
    /// The types; the first is `object`.
    pub sorts: NameTable,
    /// The predicates.
    pub predicates: Signatures,
    /// The functions.
    pub functions: Signatures,
    /// The constants and objects.
    pub objects: NameTable,
}

impl Vocabulary {
    /// The names of a domain, in its order: its types, its predicates and functions with their
    /// numbers of arguments, and its constants. Fails only where memory is wanting.
    pub fn of(alloc: Global, domain: &Domain) -> Result<Vocabulary, AllocError>
        ensures known { IfOk result (λ names. names ≡ specs.vocabulary_of domain.now) }
    {
        let mut sorts = NameTable::new(alloc);
        add_sorts(&mut sorts, domain.sorts.as_slice())?;
        let mut predicates = Signatures::new(alloc);
        add_signatures(&mut predicates, domain.predicates.as_slice())?;
        let mut functions = Signatures::new(alloc);
        add_signatures(&mut functions, domain.functions.as_slice())?;
        let mut objects = NameTable::new(alloc);
        add_constants(&mut objects, domain.constants.as_slice())?;
        Ok(Vocabulary {
            sorts,
            predicates,
            functions,
            objects,
        })
    }
}

/// Adds the names of types.
fn add_sorts(names: &mut NameTable, sorts: &[Sort]) -> Result<(), AllocError>
    ensures { OnOk result (names.new ≡ specs.put_sorts names.old sorts.now) }
{
    for sort in sorts {
        let _new = names.add(sort.name.bytes())?;
    }
    Ok(())
}

/// Declares predicates or functions.
fn add_signatures(signatures: &mut Signatures, declared: &[Signature]) -> Result<(), AllocError>
    ensures { OnOk result (signatures.new ≡ specs.put_signatures signatures.old declared.now) }
{
    for signature in declared {
        signatures.declare(signature.name.bytes(), usize::from(signature.arity))?;
    }
    Ok(())
}

/// Adds the names of constants.
fn add_constants(names: &mut NameTable, constants: &[Declared]) -> Result<(), AllocError>
    ensures { OnOk result (names.new ≡ specs.put_constants names.old constants.now) }
{
    for constant in constants {
        let _new = names.add(constant.name.bytes())?;
    }
    Ok(())
}
