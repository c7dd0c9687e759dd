//! The name faults of effects.
#![tactic(auto, using(form_reader::proofs::FaultsFirstLemmas::first_append))]

ghost use Rattle.std.specs.Prelude.{◌≡◌, IfOk};
ghost use Rattle.sexpr_text.specs.Trees.{trees};
ghost use Rattle.form_reader.specs.Faults.{first};
ghost use Rattle.domain_reader.specs.Effects as specs;

use form_reader::{EffectHead, Fault, InputKind, effect_head_of, head_of, tail_of};
use name_tables::{NameTable, Scope, Vocabulary, check_application, unless};
use sexpr_text::{Front, Node, front_of};
use std::alloc::AllocError;

/// Whether a predicate is there and is derived.
pub(crate) fn is_derived_name(names: &Vocabulary, heads: &NameTable, name: &[u8]) -> bool
    ensures { result ≡ specs.is_derived_name names.now heads.now name.now }
{
    heads.has(name) && names.predicates.has(name)
}

/// An atom that an effect adds or takes away, as the list at this place.
fn check_changed(
    names: &Vocabulary,
    heads: &NameTable,
    scope: &Scope,
    place: usize,
    items: &[Node],
    so_far: Option<Fault>,
) -> Result<Option<Fault>, AllocError>
    ensures { IfOk result (λ f. f ≡ first so_far
        (specs.changed_names names.now heads.now scope.now place (trees items.now))) }
{
    let found = check_application(
        &names.predicates,
        &names.objects,
        scope,
        place,
        items,
        so_far,
    )?;
    let fluent = !is_derived_name(names, heads, head_of(items));
    Ok(unless(fluent, InputKind::EffectOnStatic, place, found))
}

/// The atom in a row.
fn check_negated(
    names: &Vocabulary,
    heads: &NameTable,
    scope: &Scope,
    items: &[Node],
    so_far: Option<Fault>,
) -> Result<Option<Fault>, AllocError>
    ensures { IfOk result (λ f. f ≡ first so_far
        (specs.negated_names names.now heads.now scope.now (trees items.now))) }
{
    match front_of(items) {
        Front::End | Front::Word { .. } => Ok(so_far),
        Front::List { items, place, .. } => check_changed(
            names, heads, scope, place, items, so_far,
        ),
    }
}

/// The function term in a row, if there is one.
fn check_cost(
    names: &Vocabulary,
    scope: &Scope,
    items: &[Node],
    so_far: Option<Fault>,
) -> Result<Option<Fault>, AllocError>
    ensures { IfOk result (λ f. f ≡ first so_far
        (specs.cost_names names.now scope.now (trees items.now))) }
{
    match front_of(items) {
        Front::End | Front::Word { .. } => Ok(so_far),
        Front::List { items, place, .. } => {
            check_application(
                &names.functions,
                &names.objects,
                scope,
                place,
                items,
                so_far,
            )
        }
    }
}

/// The effect that the list at this place is. Fails only where arguments can't be counted.
#[cycle(effects)]
pub(crate) fn check_effect(
    names: &Vocabulary,
    heads: &NameTable,
    scope: &Scope,
    place: usize,
    items: &[Node],
    so_far: Option<Fault>,
) -> Result<Option<Fault>, AllocError>
    ensures { IfOk result (λ f. f ≡ first so_far
        (specs.effect_names names.now heads.now scope.now place (trees items.now))) }
{
    match front_of(items) {
        Front::End | Front::List { .. } => Ok(so_far),
        Front::Word { text, rest, .. } => match effect_head_of(text) {
            EffectHead::And => check_effects(names, heads, scope, rest, so_far),
            EffectHead::Not => check_negated(names, heads, scope, rest, so_far),
            EffectHead::Increase => check_cost(names, scope, tail_of(rest), so_far),
            EffectHead::Refused => Ok(so_far),
            EffectHead::Atom => check_changed(names, heads, scope, place, items, so_far),
        },
    }
}

/// Effects in a row.
#[cycle(effects)]
fn check_effects(
    names: &Vocabulary,
    heads: &NameTable,
    scope: &Scope,
    items: &[Node],
    so_far: Option<Fault>,
) -> Result<Option<Fault>, AllocError>
    ensures { IfOk result (λ f. f ≡ first so_far
        (specs.effects_names names.now heads.now scope.now (trees items.now))) }
{
    let mut left = items;
    let mut found = so_far;
    'parts: loop {
        match front_of(left) {
            Front::End => return Ok(found),
            Front::Word { rest, .. } => left = rest,
            Front::List { items, place, rest } => {
                found = check_effect(names, heads, scope, place, items, found)?;
                left = rest;
            }
        }
    }
}
