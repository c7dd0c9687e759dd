//! Groups of names or variables with types.
#![tactic(auto, using(form_reader::proofs::FaultsFirstLemmas::first_append))]

ghost use Rattle.std.specs.Prelude.{◌≡◌, ◌+◌, ◌++◌, IfOk, OnOk};
ghost use Rattle.sexpr_text.specs.Trees.{trees};
ghost use Rattle.form_reader.specs.Faults.{first};
ghost use Rattle.form_reader.specs.declared.groups.Spot.TheVariants.{Start};
ghost use Rattle.name_tables.specs.Variables as specs;

use crate::names::NameTable;
use crate::scope::Scope;
use form_reader::{Fault, InputKind, Spot, is_dash, sooner};
use sexpr_text::{Front, Node, front_of};
use std::alloc::{AllocError, Global};
use task_model::SLOTS;

/// Adds a fault of this kind and place to the one so far, unless the test holds.
pub fn unless(holds: bool, kind: InputKind, place: usize, so_far: Option<Fault>) -> Option<Fault>
    ensures { result ≡ first so_far (specs.unless holds kind place) }
{
    if holds {
        so_far
    } else {
        sooner(so_far, Fault { place, kind })
    }
}

/// Whether a word is a name or a variable here, and not a `-` or a type.
pub fn is_named(spot: Spot, word: &[u8]) -> bool
    ensures { result ≡ specs.is_named spot word.now }
{
    match spot {
        Spot::Start => true,
        Spot::Named => !is_dash(word),
        Spot::Typed => false,
    }
}

/// Whether a word is a type here.
pub fn is_type(spot: Spot) -> bool
    ensures { result ≡ specs.is_type spot }
{
    match spot {
        Spot::Start | Spot::Named => false,
        Spot::Typed => true,
    }
}

/// Puts variables into scope, in order. Fails only where memory is wanting.
pub fn enter(scope: &mut Scope, items: &[Node]) -> Result<(), AllocError>
    ensures { OnOk result (scope.new ≡ scope.old ++ specs.named_words Start (trees items.now)) }
{
    let mut left = items;
    let mut spot = Spot::Start;
    'words: loop {
        let Front::Word { text, rest, .. } = front_of(left) else {
            return Ok(());
        };
        if is_named(spot, text) {
            scope.push(text)?;
        }
        spot = spot.after_word(text);
        left = rest;
    }
}

/// Each type is there.
pub fn check_types(sorts: &NameTable, items: &[Node], so_far: Option<Fault>) -> Option<Fault>
    ensures { result ≡ first so_far (specs.types_names sorts.now Start (trees items.now)) }
{
    let mut left = items;
    let mut spot = Spot::Start;
    let mut found = so_far;
    'words: loop {
        let Front::Word { text, place, rest } = front_of(left) else {
            return found;
        };
        found = check_type(sorts, spot, text, place, found);
        spot = spot.after_word(text);
        left = rest;
    }
}

/// The word is there, if it is a type.
fn check_type(
    sorts: &NameTable,
    spot: Spot,
    word: &[u8],
    place: usize,
    so_far: Option<Fault>,
) -> Option<Fault>
    ensures { result ≡ first so_far (specs.type_names sorts.now spot word.now place) }
{
    if is_type(spot) {
        unless(sorts.has(word), InputKind::Unknown, place, so_far)
    } else {
        so_far
    }
}

/// No variable stands twice among these, and none stands in what was seen before. What is seen
/// grows by them.
pub fn check_doubles(
    seen: &mut NameTable,
    items: &[Node],
    so_far: Option<Fault>,
) -> Result<Option<Fault>, AllocError>
    ensures faults { IfOk result (λ f. f
        ≡ first so_far (specs.doubles_names seen.old Start (trees items.now))) }
    ensures seen { OnOk result (seen.new ≡ specs.seen_after seen.old Start (trees items.now)) }
{
    let mut left = items;
    let mut spot = Spot::Start;
    let mut found = so_far;
    'words: loop {
        let Front::Word { text, place, rest } = front_of(left) else {
            return Ok(found);
        };
        if is_named(spot, text) {
            found = unless(seen.add(text)?, InputKind::Duplicate, place, found);
        }
        spot = spot.after_word(text);
        left = rest;
    }
}

/// No more variables than [`SLOTS`] are in scope, where so many are in scope around these. Fails only
/// where they can't be counted.
pub fn check_scope(
    size: usize,
    items: &[Node],
    so_far: Option<Fault>,
) -> Result<Option<Fault>, AllocError>
    ensures { IfOk result (λ f. f ≡ first so_far (specs.scope_names size Start (trees items.now))) }
{
    let mut left = items;
    let mut spot = Spot::Start;
    let mut found = so_far;
    let mut inner = size;
    'words: loop {
        let Front::Word { text, place, rest } = front_of(left) else {
            return Ok(found);
        };
        if is_named(spot, text) {
            found = unless(inner != SLOTS, InputKind::TooMany, place, found);
            inner = next(inner)?;
        }
        spot = spot.after_word(text);
        left = rest;
    }
}

/// A list of variables, where so many are in scope around it. Fails only where memory is wanting.
pub fn check_variables(
    alloc: Global,
    sorts: &NameTable,
    size: usize,
    items: &[Node],
    so_far: Option<Fault>,
) -> Result<Option<Fault>, AllocError>
    ensures { IfOk result (λ f. f ≡ first so_far
        (specs.variables_names sorts.now size (trees items.now))) }
{
    let typed = check_types(sorts, items, so_far);
    let mut seen = NameTable::new(alloc);
    let once = check_doubles(&mut seen, items, typed)?;
    check_scope(size, items, once)
}

/// The place of a type, or 0 where it isn't there. Fails only where the place is past `u32`.
pub fn sort_of(sorts: &NameTable, word: &[u8]) -> Result<u32, AllocError>
    ensures { IfOk result (λ sort. sort ≡ specs.sort_of sorts.now word.now) }
{
    number(sorts.place_of(word).unwrap_or(0))
}

/// The number as one of 32 bits. A greater one is as want of memory: no table has so many entries.
pub fn number(n: usize) -> Result<u32, AllocError>
    ensures { IfOk result (λ m. m ≡ n) }
{
    match u32::try_from(n) {
        Ok(m) => Ok(m),
        Err(_) => Err(AllocError),
    }
}

/// The types of names or variables, in order. Fails only where memory is wanting.
pub fn named_sorts(alloc: Global, sorts: &NameTable, items: &[Node]) -> Result<Vec<u32>, AllocError>
    ensures { IfOk result (λ list. list.items
        ≡ specs.named_sorts sorts.now Start 0 (trees items.now)) }
{
    let mut list = Vec::new(alloc);
    let mut left = items;
    let mut spot = Spot::Start;
    let mut waiting = 0;
    'words: loop {
        let Front::Word { text, rest, .. } = front_of(left) else {
            push_times(&mut list, waiting, 0)?;
            return Ok(list);
        };
        if is_type(spot) {
            push_times(&mut list, waiting, sort_of(sorts, text)?)?;
            waiting = 0;
        } else if is_named(spot, text) {
            waiting = next(waiting)?;
        }
        spot = spot.after_word(text);
        left = rest;
    }
}

/// One more. What can't be counted can't be kept.
pub fn next(n: usize) -> Result<usize, AllocError>
    ensures { IfOk result (λ m. m ≡ n + 1) }
{
    n.checked_add(1).ok_or(AllocError)
}

/// Puts a number behind the others, so many times.
#[tactic(auto, using(crate::proofs::VariablesCopyLemmas::copies_step))]
fn push_times(list: &mut Vec<u32>, times: usize, sort: u32) -> Result<(), AllocError>
    ensures { OnOk result (list.new.items ≡ list.old.items ++ specs.copies times sort) }
{
    let mut left = times;
    while left > 0 {
        list.push(sort)?;
        left -= 1;
    }
    Ok(())
}
