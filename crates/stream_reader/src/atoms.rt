//! The atoms of streams.
#![tactic(auto, using(form_reader::proofs::FaultsFirstLemmas::first_append))]

ghost use Rattle.std.specs.Prelude.{◌≡◌, ◌++◌, IfOk, OnOk};
ghost use Rattle.sexpr_text.specs.Trees.{trees};
ghost use Rattle.form_reader.specs.Faults.{first};
ghost use Rattle.stream_reader.specs.Atoms as specs;

use form_reader::{Fault, InputKind, head_of};
use name_tables::{Scope, Vocabulary, check_application, pattern_of, unless};
use sexpr_text::{Front, Node, front_of};
use std::alloc::{AllocError, Global};
use task_model::{Pattern, Role};

/// Whether actions or rules change the atoms of a predicate with this role.
fn is_changing(role: Option<Role>) -> bool
    ensures { result ≡ specs.is_changing role }
{
    match role {
        None | Some(Role::Static) => false,
        Some(Role::Fluent) | Some(Role::Derived) => true,
    }
}

/// The role at a place, if there is one.
fn role_at(roles: &[Role], place: Option<usize>) -> Option<Role>
    ensures { result ≡ specs.role_at roles.now place }
{
    match place {
        None => None,
        Some(place) => roles.get(place).copied(),
    }
}

/// An atom, as the list at this place. Fails only where its arguments can't be counted.
fn check_atom(
    names: &Vocabulary,
    roles: &[Role],
    scope: &Scope,
    place: usize,
    items: &[Node],
    so_far: Option<Fault>,
) -> Result<Option<Fault>, AllocError>
    ensures { IfOk result (λ f. f ≡ first so_far
        (specs.stream_atom_names names.now roles.now scope.now place (trees items.now))) }
{
    let found = check_application(
        &names.predicates,
        &names.objects,
        scope,
        place,
        items,
        so_far,
    )?;
    let role = role_at(roles, names.predicates.place_of(head_of(items)));
    Ok(unless(!is_changing(role), InputKind::EffectOnStatic, place, found))
}

/// The atoms that the list at this place is. Fails only where arguments can't be counted.
#[cycle(atoms)]
pub(crate) fn check_atoms(
    names: &Vocabulary,
    roles: &[Role],
    scope: &Scope,
    place: usize,
    items: &[Node],
    so_far: Option<Fault>,
) -> Result<Option<Fault>, AllocError>
    ensures { IfOk result (λ f. f ≡ first so_far
        (specs.atoms_names names.now roles.now scope.now place (trees items.now))) }
{
    match front_of(items) {
        Front::End | Front::List { .. } => Ok(so_far),
        Front::Word { text, rest, .. } => {
            if text == b"and".as_slice() {
                check_atom_rows(names, roles, scope, rest, so_far)
            } else {
                check_atom(names, roles, scope, place, items, so_far)
            }
        }
    }
}

/// Atoms in a row.
#[cycle(atoms)]
fn check_atom_rows(
    names: &Vocabulary,
    roles: &[Role],
    scope: &Scope,
    items: &[Node],
    so_far: Option<Fault>,
) -> Result<Option<Fault>, AllocError>
    ensures { IfOk result (λ f. f ≡ first so_far
        (specs.atom_rows_names names.now roles.now scope.now (trees items.now))) }
{
    let mut left = items;
    let mut found = so_far;
    'parts: loop {
        match front_of(left) {
            Front::End => return Ok(found),
            Front::Word { rest, .. } => left = rest,
            Front::List { items, place, rest } => {
                found = check_atoms(names, roles, scope, place, items, found)?;
                left = rest;
            }
        }
    }
}

/// Adds the atoms that a list of these trees is. Fails only where memory is wanting.
#[cycle(patterns)]
fn add_patterns(
    alloc: Global,
    names: &Vocabulary,
    scope: &Scope,
    list: &mut Vec<Pattern>,
    items: &[Node],
) -> Result<(), AllocError>
    ensures { OnOk result (list.new.items ≡ list.old.items
        ++ specs.patterns_of names.now scope.now (trees items.now)) }
{
    match front_of(items) {
        Front::End | Front::List { .. } => Ok(()),
        Front::Word { text, rest, .. } => {
            if text == b"and".as_slice() {
                add_row_patterns(alloc, names, scope, list, rest)
            } else {
                list.push(pattern_of(alloc, names, scope, items)?)?;
                Ok(())
            }
        }
    }
}

/// Adds the atoms of a row.
#[cycle(patterns)]
fn add_row_patterns(
    alloc: Global,
    names: &Vocabulary,
    scope: &Scope,
    list: &mut Vec<Pattern>,
    items: &[Node],
) -> Result<(), AllocError>
    ensures { OnOk result (list.new.items ≡ list.old.items
        ++ specs.row_patterns names.now scope.now (trees items.now)) }
{
    let mut left = items;
    'parts: loop {
        match front_of(left) {
            Front::End => return Ok(()),
            Front::Word { rest, .. } => left = rest,
            Front::List { items, rest, .. } => {
                add_patterns(alloc, names, scope, list, items)?;
                left = rest;
            }
        }
    }
}

/// The atoms that a list of these trees is, in order. Fails only where memory is wanting.
pub(crate) fn patterns_of(
    alloc: Global,
    names: &Vocabulary,
    scope: &Scope,
    items: &[Node],
) -> Result<Vec<Pattern>, AllocError>
    ensures { IfOk result (λ list. list.items
        ≡ specs.patterns_of names.now scope.now (trees items.now)) }
{
    let mut list = Vec::new(alloc);
    add_patterns(alloc, names, scope, &mut list, items)?;
    Ok(list)
}
