//! The name faults of a stream file, but for streams that lead to themselves.
#![tactic(auto, using(form_reader::proofs::FaultsFirstLemmas::first_append))]

ghost use Rattle.std.specs.Prelude.{◌≡◌, [], IfOk};
ghost use Rattle.sexpr_text.specs.Trees.{trees};
ghost use Rattle.form_reader.specs.Faults.{first, least_fault};
ghost use Rattle.form_reader.specs.declared.groups.Spot.TheVariants.{Start};
ghost use Rattle.form_reader.specs.declared.keys.Key.TheVariants.{NoKey};
ghost use Rattle.stream_reader.specs.Names as specs;

use crate::atoms::check_atoms;
use crate::tables::{Scopes, keys_of, kind_of, scopes_of};
use form_reader::{Fault, InputKind, Key, Keyed, Spot, head_of, tail_of};
use name_tables::{
    NameTable, Vocabulary, check_application, check_doubles, check_repeated, check_types, is_named,
    next, unless,
};
use sexpr_text::{Front, Node, front_of};
use std::alloc::{AllocError, Global};
use task_model::Role;

/// How many inputs, and how many outputs, a stream may have.
const MAX_VARIABLES: usize = 8;

/// None of these is the 9th variable of its list.
fn check_ninth(items: &[Node], so_far: Option<Fault>) -> Result<Option<Fault>, AllocError>
    ensures { IfOk result (λ f. f ≡ first so_far (specs.ninth_names 0 Start (trees items.now))) }
{
    let mut left = items;
    let mut spot = Spot::Start;
    let mut found = so_far;
    let mut before = 0;
    'words: loop {
        let Front::Word { text, place, rest } = front_of(left) else {
            return Ok(found);
        };
        if is_named(spot, text) {
            found = unless(before != MAX_VARIABLES, InputKind::TooMany, place, found);
            before = next(before)?;
        }
        spot = spot.after_word(text);
        left = rest;
    }
}

/// A list of inputs or outputs.
fn check_variables(
    names: &Vocabulary,
    items: &[Node],
    so_far: Option<Fault>,
) -> Result<Option<Fault>, AllocError>
    ensures { IfOk result (λ f. f ≡ first so_far
        (specs.stream_variables_names names.now (trees items.now))) }
{
    let typed = check_types(&names.sorts, items, so_far);
    check_ninth(items, typed)
}

/// The value of a key, which is the list at this place.
fn check_value(
    names: &Vocabulary,
    roles: &[Role],
    scopes: &Scopes,
    key: Key,
    place: usize,
    items: &[Node],
    so_far: Option<Fault>,
) -> Result<Option<Fault>, AllocError>
    ensures { IfOk result (λ f. f ≡ first so_far
        (specs.stream_value_names names.now roles.now scopes.now key place (trees items.now))) }
{
    match key {
        Key::Inputs | Key::Outputs => check_variables(names, items, so_far),
        Key::Domain => check_atoms(names, roles, &scopes.inputs, place, items, so_far),
        Key::Certified => check_atoms(names, roles, &scopes.all, place, items, so_far),
        Key::Value => check_application(
            &names.functions,
            &names.objects,
            &scopes.inputs,
            place,
            items,
            so_far,
        ),
        Key::Parameters | Key::Precondition | Key::Effect | Key::Unknown | Key::NoKey => Ok(so_far),
    }
}

/// Keys and their values.
fn check_keys(
    names: &Vocabulary,
    roles: &[Role],
    scopes: &Scopes,
    keyed: Keyed,
    items: &[Node],
    so_far: Option<Fault>,
) -> Result<Option<Fault>, AllocError>
    ensures { IfOk result (λ f. f ≡ first so_far
        (specs.stream_keys_names names.now roles.now scopes.now keyed NoKey (trees items.now))) }
{
    let mut left = items;
    let mut found = so_far;
    let mut key = Key::NoKey;
    'keys: loop {
        match front_of(left) {
            Front::End => return Ok(found),
            Front::Word { text, rest, .. } => {
                key = keyed.key_of(text);
                left = rest;
            }
            Front::List { items, place, rest } => {
                found = check_value(names, roles, scopes, key, place, items, found)?;
                left = rest;
            }
        }
    }
}

/// Whether the key is that of inputs or of outputs.
fn has_variables(key: Key) -> bool
    ensures { result ≡ specs.has_variables key }
{
    matches!(key, Key::Inputs | Key::Outputs)
}

/// No variable stands twice among inputs and outputs.
fn check_second_variables(
    alloc: Global,
    keyed: Keyed,
    items: &[Node],
    so_far: Option<Fault>,
) -> Result<Option<Fault>, AllocError>
    ensures { IfOk result (λ f. f ≡ first so_far
        (specs.second_variables keyed [] NoKey (trees items.now))) }
{
    let mut seen = NameTable::new(alloc);
    let mut left = items;
    let mut found = so_far;
    let mut key = Key::NoKey;
    'keys: loop {
        match front_of(left) {
            Front::End => return Ok(found),
            Front::Word { text, rest, .. } => {
                key = keyed.key_of(text);
                left = rest;
            }
            Front::List { items, rest, .. } => {
                if has_variables(key) {
                    found = check_doubles(&mut seen, items, found)?;
                }
                left = rest;
            }
        }
    }
}

/// The keys of a stream.
fn check_stream(
    alloc: Global,
    names: &Vocabulary,
    roles: &[Role],
    keyed: Keyed,
    keys: &[Node],
    so_far: Option<Fault>,
) -> Result<Option<Fault>, AllocError>
    ensures { IfOk result (λ f. f ≡ first so_far
        (specs.stream_item_names names.now roles.now keyed (trees keys.now))) }
{
    let mut seen = NameTable::new(alloc);
    let once = check_repeated(&mut seen, keys, so_far)?;
    let distinct = check_second_variables(alloc, keyed, keys, once)?;
    let scopes = scopes_of(alloc, keys)?;
    check_keys(names, roles, &scopes, keyed, keys, distinct)
}

/// A list of a stream file, if it is a stream.
fn check_item(
    alloc: Global,
    names: &Vocabulary,
    roles: &[Role],
    kind: Option<Keyed>,
    keys: &[Node],
    so_far: Option<Fault>,
) -> Result<Option<Fault>, AllocError>
    ensures { IfOk result (λ f. f ≡ first so_far
        (specs.item_names names.now roles.now kind (trees keys.now))) }
{
    match kind {
        None => Ok(so_far),
        Some(keyed) => check_stream(alloc, names, roles, keyed, keys, so_far),
    }
}

/// The streams of a file.
fn check_items(
    alloc: Global,
    names: &Vocabulary,
    roles: &[Role],
    items: &[Node],
    so_far: Option<Fault>,
) -> Result<Option<Fault>, AllocError>
    ensures { IfOk result (λ f. f ≡ first so_far
        (specs.stream_items_names names.now roles.now (trees items.now))) }
{
    let mut left = items;
    let mut found = so_far;
    'items: loop {
        match front_of(left) {
            Front::End => return Ok(found),
            Front::Word { rest, .. } => left = rest,
            Front::List { items, rest, .. } => {
                let kind = kind_of(items);
                found = check_item(alloc, names, roles, kind, keys_of(items), found)?;
                left = rest;
            }
        }
    }
}

/// No two streams have one name.
fn check_second_streams(
    alloc: Global,
    items: &[Node],
    so_far: Option<Fault>,
) -> Result<Option<Fault>, AllocError>
    ensures { IfOk result (λ f. f ≡ first so_far (specs.second_streams [] (trees items.now))) }
{
    let mut seen = NameTable::new(alloc);
    let mut left = items;
    let mut found = so_far;
    'items: loop {
        match front_of(left) {
            Front::End => return Ok(found),
            Front::Word { rest, .. } => left = rest,
            Front::List { items, place, rest } => {
                let fresh = seen.add(head_of(tail_of(items)))?;
                found = unless(fresh, InputKind::Duplicate, place, found);
                left = rest;
            }
        }
    }
}

/// The name fault that is answered, but for streams that lead to themselves. Fails only where
/// memory is wanting.
pub(crate) fn check_plain(
    alloc: Global,
    names: &Vocabulary,
    roles: &[Role],
    body: &[Node],
) -> Result<Option<Fault>, AllocError>
    ensures { IfOk result (λ f. f ≡ least_fault
        (specs.stream_plain_names names.now roles.now (trees body.now))) }
{
    let used = check_items(alloc, names, roles, body, None)?;
    check_second_streams(alloc, body, used)
}
