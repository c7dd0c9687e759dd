//! Conditions.
ghost use Rattle.std.specs.Prelude.{◌≡◌, ◌&&◌, nat_le, true};
ghost use Rattle.std.specs.List.{list_all};
ghost use Rattle.task_model.specs.Condition.{parts_of, Exists};
ghost use Rattle.task_model.specs.Fit as fit;

use crate::lists::{are_places, is_short};
use crate::slots::Slots;
use task_model::{Domain, Formula, FormulaNode, SLOTS, Seq, Signature, Term};

/// Where conditions and patterns stand: the domain, and how many objects may be named.
#[derive(Clone, Copy)]
pub(crate) struct Scope<'a> {
    pub(crate) domain: &'a Domain,
    pub(crate) objects: usize,
}

/// Whether the term is an object, or a slot that has a value.
fn is_fit_term(objects: usize, slots: &Slots, term: Term) -> bool
    ensures { result ≡ fit.is_fit_term objects slots.now term }
{
    match term {
        Term::Slot(slot) => slots.has(slot),
        Term::Object(object) => (object.place() as usize) < objects,
    }
}

/// Whether the terms are so.
fn are_fit_terms(objects: usize, slots: &Slots, terms: &[Term]) -> bool
    ensures { result ≡ list_all (fit.is_fit_term objects slots.now) terms.now }
{
    terms.iter().all(|term| is_fit_term(objects, slots, *term))
}

/// Whether a predicate or a function of this list takes so many arguments.
pub(crate) fn has_arity(signatures: &[Signature], place: u32, count: usize) -> bool
    ensures { result ≡ fit.has_arity signatures.now place count }
{
    match signatures.get(place as usize) {
        Some(signature) => signature.arity as usize == count,
        None => false,
    }
}

/// Whether a predicate or a function of this list may be applied to these terms.
pub(crate) fn is_fit_application(
    signatures: &[Signature],
    objects: usize,
    slots: &Slots,
    place: u32,
    args: &[Term],
) -> bool
    ensures { result ≡ fit.is_fit_application signatures.now objects slots.now place args.now }
{
    has_arity(signatures, place, args.len()) && are_fit_terms(objects, slots, args)
}

/// Whether the condition is nested at most so deep.
#[cycle(depth)]
fn is_shallow(formula: &Formula, most: usize) -> bool
    ensures { result ≡ nat_le (fit.depth_of formula.now) most }
{
    let Some(below) = most.checked_sub(1) else {
        return false;
    };
    match &formula.node {
        FormulaNode::Atom { .. } | FormulaNode::Equal(_, _) => true,
        FormulaNode::All(parts) | FormulaNode::Any(parts) => are_shallow(parts.as_slice(), below),
        FormulaNode::Not(part) => is_shallow(part, below),
        FormulaNode::Exists { body, .. } => is_shallow(body, below),
    }
}

/// Whether each part is nested at most so deep.
#[cycle(depth)]
fn are_shallow(parts: &[Formula], most: usize) -> bool
    ensures { result ≡ nat_le (fit.depths_of (parts_of parts.now)) most }
{
    for part in parts {
        if !is_shallow(part, most) {
            return false;
        }
    }
    true
}

/// Whether all places in the condition are in range, and each slot that is used has a value.
#[cycle(sound)]
fn is_sound(scope: Scope<'_>, slots: &Slots, formula: &Formula) -> bool
    ensures { result ≡ fit.is_sound scope.entry.domain.now scope.entry.objects formula.now
        slots.now }
{
    let domain = scope.domain;
    match &formula.node {
        FormulaNode::Atom { pred, args } => is_fit_application(
            domain.predicates.as_slice(),
            scope.objects,
            slots,
            *pred,
            args.as_slice(),
        ),
        FormulaNode::Equal(first, second) => {
            is_fit_term(scope.objects, slots, *first) && is_fit_term(scope.objects, slots, *second)
        }
        FormulaNode::All(parts) | FormulaNode::Any(parts) => {
            are_fit_parts(scope, slots, parts.as_slice())
        }
        FormulaNode::Not(part) => is_sound(scope, slots, part),
        FormulaNode::Exists { first, sorts, body } => is_sound_in(
            scope, slots, *first, sorts, body,
        ),
    }
}

/// Whether there aren't too many parts, and each is so.
#[cycle(sound)]
fn are_fit_parts(scope: Scope<'_>, slots: &Slots, parts: &[Formula]) -> bool
    ensures { result ≡ (nat_le (fit.count_of (parts_of parts.now)) 8388608
        && fit.are_sound scope.entry.domain.now scope.entry.objects (parts_of parts.now)
        slots.now) }
{
    is_short(parts) && are_sound(scope, slots, parts)
}

/// Whether each part is so.
#[cycle(sound)]
fn are_sound(scope: Scope<'_>, slots: &Slots, parts: &[Formula]) -> bool
    ensures { result ≡ fit.are_sound scope.entry.domain.now scope.entry.objects (parts_of parts.now)
        slots.now }
{
    for part in parts {
        if !is_sound(scope, slots, part) {
            return false;
        }
    }
    true
}

/// Whether the body is so where slots get values of these types.
#[cycle(sound)]
fn is_sound_in(scope: Scope<'_>, slots: &Slots, first: u8, sorts: &Seq<u32>, body: &Formula) -> bool
    ensures { result ≡ fit.is_sound scope.entry.domain.now scope.entry.objects
        (Exists first sorts.now body.now) slots.now }
{
    let first = first as usize;
    if sorts.len() > SLOTS || first + sorts.len() > SLOTS {
        return false;
    }
    are_places(scope.domain.sorts.len(), sorts.as_slice())
        && is_sound(scope, &slots.with(first, sorts.len()), body)
}

/// Whether the condition is fit where these slots have values.
pub(crate) fn is_fit_condition(scope: Scope<'_>, slots: &Slots, formula: &Formula) -> bool
    ensures { result ≡ fit.is_fit_condition scope.entry.domain.now scope.entry.objects slots.now
        formula.now }
{
    is_shallow(formula, 64) && is_sound(scope, slots, formula)
}
