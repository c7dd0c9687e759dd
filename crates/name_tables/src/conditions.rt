//! Conditions: their name faults, and what they are.
#![tactic(auto, using(form_reader::proofs::FaultsFirstLemmas::first_append, lemmas::proofs::Members::take_append))]

ghost use Rattle.std.specs.Prelude.{◌≡◌, IfOk, OnOk};
ghost use Rattle.sexpr_text.specs.Trees.{trees};
ghost use Rattle.form_reader.specs.Faults.{first};
ghost use Rattle.name_tables.specs.Conditions as specs;

use crate::scope::Scope;
use crate::terms::{check_application, check_terms};
use crate::variables::{check_variables, enter};
use crate::vocabulary::Vocabulary;
use form_reader::{ConditionHead, Fault, condition_head_of};
use sexpr_text::{Front, Node, front_of};
use std::alloc::{AllocError, Global};

/// The condition that the list at this place is, with these variables in scope. Fails only where
/// memory is wanting, and else leaves the scope as it was.
#[cycle(names)]
pub fn check_condition(
    alloc: Global,
    names: &Vocabulary,
    scope: &mut Scope,
    place: usize,
    items: &[Node],
    so_far: Option<Fault>,
) -> Result<Option<Fault>, AllocError>
    ensures faults { IfOk result (λ f. f
        ≡ first so_far (specs.condition_names names.now scope.old place (trees items.now))) }
    ensures scope { OnOk result (scope.new ≡ scope.old) }
{
    match front_of(items) {
        Front::End | Front::List { .. } => Ok(so_far),
        Front::Word { text, rest, .. } => match condition_head_of(text) {
            ConditionHead::And | ConditionHead::Or | ConditionHead::Not => {
                check_conditions(alloc, names, scope, rest, so_far)
            }
            ConditionHead::Exists => check_exists(alloc, names, scope, rest, so_far),
            ConditionHead::Equal => Ok(check_terms(&names.objects, scope, rest, so_far)),
            ConditionHead::Refused => Ok(so_far),
            ConditionHead::Atom => {
                check_application(
                    &names.predicates,
                    &names.objects,
                    scope,
                    place,
                    items,
                    so_far,
                )
            }
        },
    }
}

/// Conditions in a row.
#[cycle(names)]
pub fn check_conditions(
    alloc: Global,
    names: &Vocabulary,
    scope: &mut Scope,
    items: &[Node],
    so_far: Option<Fault>,
) -> Result<Option<Fault>, AllocError>
    ensures faults { IfOk result (λ f. f
        ≡ first so_far (specs.conditions_names names.now scope.old (trees items.now))) }
    ensures scope { OnOk result (scope.new ≡ scope.old) }
{
    let mut left = items;
    let mut found = so_far;
    'parts: loop {
        match front_of(left) {
            Front::End => return Ok(found),
            Front::Word { rest, .. } => left = rest,
            Front::List { items, place, rest } => {
                found = check_condition(alloc, names, scope, place, items, found)?;
                left = rest;
            }
        }
    }
}

/// Variables, and then a condition in which they are in scope too.
#[cycle(names)]
fn check_exists(
    alloc: Global,
    names: &Vocabulary,
    scope: &mut Scope,
    items: &[Node],
    so_far: Option<Fault>,
) -> Result<Option<Fault>, AllocError>
    ensures faults { IfOk result (λ f. f
        ≡ first so_far (specs.exists_names names.now scope.old (trees items.now))) }
    ensures scope { OnOk result (scope.new ≡ scope.old) }
{
    match front_of(items) {
        Front::End | Front::Word { .. } => Ok(so_far),
        Front::List { items, rest, .. } => {
            let outer = scope.len();
            let declared = check_variables(alloc, &names.sorts, outer, items, so_far)?;
            enter(scope, items)?;
            let found = check_conditions(alloc, names, scope, rest, declared)?;
            scope.leave(outer);
            Ok(found)
        }
    }
}
