//! Terms, atoms and function terms.
#![tactic(auto, using(form_reader::proofs::FaultsFirstLemmas::first_append))]

ghost use Rattle.std.specs.Prelude.{◌≡◌, IfOk};
ghost use Rattle.sexpr_text.specs.Trees.{trees};
ghost use Rattle.form_reader.specs.Faults.{first};
ghost use Rattle.name_tables.specs.Terms as specs;

use crate::names::NameTable;
use crate::scope::Scope;
use crate::signatures::Signatures;
use crate::variables::{next, number, unless};
use crate::vocabulary::Vocabulary;
use form_reader::{Fault, InputKind, head_of, tail_of};
use sexpr_text::{Front, Node, front_of};
use std::alloc::{AllocError, Global};
use task_model::{Obj, Pattern, Seq, Term};

/// How many words and lists stand in a row. Fails only where they can't be counted.
pub fn width(items: &[Node]) -> Result<usize, AllocError>
    ensures { IfOk result (λ n. n ≡ specs.width (trees items.now)) }
{
    let mut left = items;
    let mut count = 0;
    'trees: loop {
        match front_of(left) {
            Front::End => return Ok(count),
            Front::Word { rest, .. } | Front::List { rest, .. } => {
                count = next(count)?;
                left = rest;
            }
        }
    }
}

/// Each term is a variable in scope or an object.
pub fn check_terms(
    objects: &NameTable,
    scope: &Scope,
    items: &[Node],
    so_far: Option<Fault>,
) -> Option<Fault>
    ensures { result ≡ first so_far (specs.terms_names objects.now scope.now (trees items.now)) }
{
    let mut left = items;
    let mut found = so_far;
    'terms: loop {
        match front_of(left) {
            Front::End => return found,
            Front::Word { text, place, rest } => {
                let known = scope.has(text) || objects.has(text);
                found = unless(known, InputKind::Unknown, place, found);
                left = rest;
            }
            Front::List { rest, .. } => left = rest,
        }
    }
}

/// A name is declared, and with so many arguments: its word is at `at`, its list at `place`.
pub fn check_use(
    arity: Option<usize>,
    count: usize,
    at: usize,
    place: usize,
    so_far: Option<Fault>,
) -> Option<Fault>
    ensures { result ≡ first so_far (specs.use_names arity count at place) }
{
    match arity {
        None => unless(false, InputKind::Unknown, at, so_far),
        Some(arity) => unless(arity == count, InputKind::Arity, place, so_far),
    }
}

/// An atom or a function term, as the list at this place. Fails only where its arguments can't be
/// counted.
pub fn check_application(
    declared: &Signatures,
    objects: &NameTable,
    scope: &Scope,
    place: usize,
    items: &[Node],
    so_far: Option<Fault>,
) -> Result<Option<Fault>, AllocError>
    ensures { IfOk result (λ f. f ≡ first so_far
        (specs.application_names declared.now objects.now scope.now place (trees items.now))) }
{
    match front_of(items) {
        Front::End | Front::List { .. } => Ok(so_far),
        Front::Word {
            text,
            place: at,
            rest,
        } => {
            let count = width(rest)?;
            let found = check_use(declared.arity_of(text), count, at, place, so_far);
            Ok(check_terms(objects, scope, rest, found))
        }
    }
}

/// The number as one of 8 bits. A greater one is as want of memory: there are no more than 16
/// slots.
pub fn small_number(n: usize) -> Result<u8, AllocError>
    ensures { IfOk result (λ m. m ≡ n) }
{
    match u8::try_from(n) {
        Ok(m) => Ok(m),
        Err(_) => Err(AllocError),
    }
}

/// The term that a word is: the slot of the innermost variable of this name, or else the object.
/// Fails only where its number is too great.
pub fn term_of(objects: &NameTable, scope: &Scope, word: &[u8]) -> Result<Term, AllocError>
    ensures { IfOk result (λ term. term ≡ specs.term_of objects.now scope.now word.now) }
{
    match scope.slot_of(word) {
        Some(slot) => Ok(Term::Slot(small_number(slot)?)),
        None => Ok(Term::Object(Obj::new(number(objects.place_of(word).unwrap_or(0))?))),
    }
}

/// The terms in a row. Fails only where memory is wanting.
pub fn terms_of(
    alloc: Global,
    objects: &NameTable,
    scope: &Scope,
    items: &[Node],
) -> Result<Vec<Term>, AllocError>
    ensures { IfOk result (λ terms. terms.items
        ≡ specs.terms_of objects.now scope.now (trees items.now)) }
{
    let mut terms = Vec::new(alloc);
    let mut left = items;
    'terms: loop {
        match front_of(left) {
            Front::End => return Ok(terms),
            Front::Word { text, rest, .. } => {
                terms.push(term_of(objects, scope, text)?)?;
                left = rest;
            }
            Front::List { rest, .. } => left = rest,
        }
    }
}

/// The place of a declared name, or 0 where it isn't declared. Fails only where the place is past
/// `u32`.
pub fn declared_place(declared: &Signatures, word: &[u8]) -> Result<u32, AllocError>
    ensures { IfOk result (λ place. place ≡ specs.declared_place declared.now word.now) }
{
    number(declared.place_of(word).unwrap_or(0))
}

/// The atom that a list of these trees is. Fails only where memory is wanting.
pub fn pattern_of(
    alloc: Global,
    names: &Vocabulary,
    scope: &Scope,
    items: &[Node],
) -> Result<Pattern, AllocError>
    ensures { IfOk result (λ p. p ≡ specs.pattern_of names.now scope.now (trees items.now)) }
{
    let pred = declared_place(&names.predicates, head_of(items))?;
    let args = terms_of(alloc, &names.objects, scope, tail_of(items))?;
    Ok(Pattern {
        pred,
        args: Seq::from_vec(args),
    })
}
