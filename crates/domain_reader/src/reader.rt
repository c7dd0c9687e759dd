//! Domains, from trees.
ghost use Rattle.std.specs.Prelude.{◌≡◌, IfOk};
ghost use Rattle.sexpr_text.specs.Trees.{tree, trees};
ghost use Rattle.task_model.specs.Fit.{IsFitDomain};
ghost use Rattle.name_tables.specs.Sizes.{IsBoundedTree};
ghost use Rattle.domain_reader.specs.Domains as specs;

use crate::domain::{check_derived, check_plain, check_types, domain_of};
use crate::tables::vocabulary_of;
use form_reader::{Fault, InputFault, TextKind, check_form};
use name_tables::{Vocabulary, body_of};
use sexpr_text::{Node, Tree};
use std::alloc::{AllocError, Global};
use task_model::Domain;

/// The name fault that is answered of a domain with these items, if it has one. Fails only where
/// memory is wanting.
fn check_names(
    alloc: Global,
    names: &Vocabulary,
    body: &[Node],
) -> Result<Option<Fault>, AllocError>
    ensures { IfOk result (λ f. specs.AnswersNames names.now (trees body.now) f) }
{
    let plain = check_plain(alloc, names, body)?;
    let types = check_types(alloc, names, body, plain)?;
    let answered = check_derived(alloc, names, body, types)?;
    Ok(answered)
}

/// The domain that a text spells by these names, or its name fault that is answered. Fails only
/// where memory is wanting.
fn read_by(
    alloc: Global,
    names: &Vocabulary,
    text: &Tree,
) -> Result<Result<Domain, Fault>, AllocError>
    requires { names.now ≡ specs.domain_names (tree text.now) }
    ensures { IfOk result (λ r. specs.DomainReadsNamed (tree text.now) r) }
{
    match check_names(alloc, names, body_of(text))? {
        Some(fault) => Ok(Err(fault)),
        None => {
            let domain = domain_of(alloc, names, text)?;
            Ok(Ok(domain))
        }
    }
}

/// The domain, or its name fault that is answered. Fails only where memory is wanting.
fn read_named(alloc: Global, text: &Tree) -> Result<Result<Domain, Fault>, AllocError>
    ensures { IfOk result (λ r. specs.DomainReadsNamed (tree text.now) r) }
{
    let names = vocabulary_of(alloc, body_of(text))?;
    read_by(alloc, &names, text)
}

/// The domain, or the fault that is answered.
fn read(alloc: Global, text: &Tree) -> Result<Domain, InputFault>
    ensures { specs.DomainReads (tree text.now) result }
{
    if let Some(Fault { place, kind }) = check_form(TextKind::Domain, text) {
        return Err(InputFault::At { place, kind });
    }
    match read_named(alloc, text)? {
        Ok(domain) => Ok(domain),
        Err(Fault { place, kind }) => Err(InputFault::At { place, kind }),
    }
}

/// Reads a domain from its tree.
///
/// The forms are those of this project's profile of PDDL 2.1, with derived predicates (PDDL 2.2)
/// and the total cost (IPC 2008).
///
/// # Errors
///
/// - `At`: the text has a fault. Of its form faults the one with the least place is answered, and
///   at one place `Shape` last; where it has none, of its name faults the one with the least place,
///   and at one place the one of the smallest number.
/// - `Memory`: memory ran out, which says nothing of the text.
pub fn read_domain(alloc: Global, text: &Tree) -> Result<Domain, InputFault>
    ensures reads { specs.DomainReads (tree text.now) result }
    // Of a tree as texts of at most 4 MiB give it, the domain is fit.
    ensures fit { IfOk result (λ d. IsBoundedTree (tree text.now) → IsFitDomain d) }
{
    read(alloc, text)
}
