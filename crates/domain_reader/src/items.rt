//! The name faults of a domain's items, but for those of cycles and of what may be there once.
#![tactic(auto, using(form_reader::proofs::FaultsFirstLemmas::first_append))]

ghost use Rattle.std.specs.Prelude.{◌≡◌, IfOk, OnOk};
ghost use Rattle.sexpr_text.specs.Trees.{trees, place_of_first};
ghost use Rattle.form_reader.specs.Faults.{first};
ghost use Rattle.form_reader.specs.declared.keys.Key.TheVariants.{NoKey};
ghost use Rattle.domain_reader.specs.Names as specs;

use crate::effects::check_effect;
use crate::tables::count_named;
use form_reader::{Fault, InputKind, Item, Key, Keyed, TextKind, head_of, is_total_cost, tail_of};
use name_tables::{
    NameTable, Scope, Vocabulary, check_condition, check_conditions, check_doubles, check_repeated,
    check_scope, check_types, check_use, check_variables, enter, unless, value_at,
};
use sexpr_text::{Front, Node, front_of};
use std::alloc::{AllocError, Global};

/// How many arguments a declaration may give.
const MAX_ARITY: usize = 8;

/// The variables of a declaration, which is the list at this place.
fn check_declaration(
    alloc: Global,
    sorts: &NameTable,
    place: usize,
    vars: &[Node],
    so_far: Option<Fault>,
) -> Result<Option<Fault>, AllocError>
    ensures { IfOk result (λ f. f ≡ first so_far
        (specs.declaration_names sorts.now place (trees vars.now))) }
{
    let typed = check_types(sorts, vars, so_far);
    let mut seen = NameTable::new(alloc);
    let once = check_doubles(&mut seen, vars, typed)?;
    let few = count_named(vars)? <= MAX_ARITY;
    Ok(unless(few, InputKind::TooMany, place, once))
}

/// Declarations of predicates.
fn check_predicates(
    alloc: Global,
    sorts: &NameTable,
    items: &[Node],
    so_far: Option<Fault>,
) -> Result<Option<Fault>, AllocError>
    ensures { IfOk result (λ f. f ≡ first so_far
        (specs.predicates_names sorts.now (trees items.now))) }
{
    let mut left = items;
    let mut found = so_far;
    'declarations: loop {
        match front_of(left) {
            Front::End => return Ok(found),
            Front::Word { rest, .. } => left = rest,
            Front::List { items, place, rest } => {
                found = check_declaration(alloc, sorts, place, tail_of(items), found)?;
                left = rest;
            }
        }
    }
}

/// The total cost is declared without arguments, if the list at this place declares it.
fn check_total_cost(
    place: usize,
    items: &[Node],
    so_far: Option<Fault>,
) -> Result<Option<Fault>, AllocError>
    ensures { IfOk result (λ f. f ≡ first so_far (specs.total_cost_names place (trees items.now))) }
{
    let right = if is_total_cost(head_of(items)) {
        count_named(tail_of(items))? == 0
    } else {
        true
    };
    Ok(unless(right, InputKind::Arity, place, so_far))
}

/// Declarations of functions.
fn check_functions(
    alloc: Global,
    sorts: &NameTable,
    items: &[Node],
    so_far: Option<Fault>,
) -> Result<Option<Fault>, AllocError>
    ensures { IfOk result (λ f. f ≡ first so_far
        (specs.functions_names sorts.now (trees items.now))) }
{
    let mut left = items;
    let mut found = so_far;
    'declarations: loop {
        match front_of(left) {
            Front::End => return Ok(found),
            Front::Word { rest, .. } => left = rest,
            Front::List { items, place, rest } => {
                let costed = check_total_cost(place, items, found)?;
                found = check_declaration(alloc, sorts, place, tail_of(items), costed)?;
                left = rest;
            }
        }
    }
}

/// The place of the first tree, or 0.
fn first_place(items: &[Node]) -> usize
    ensures { result ≡ place_of_first (trees items.now) }
{
    match front_of(items) {
        Front::End => 0,
        Front::Word { place, .. } | Front::List { place, .. } => place,
    }
}

/// The head of a derived predicate, as the list at this place.
fn check_head(
    alloc: Global,
    names: &Vocabulary,
    place: usize,
    items: &[Node],
    so_far: Option<Fault>,
) -> Result<Option<Fault>, AllocError>
    ensures { IfOk result (λ f. f ≡ first so_far
        (specs.head_names names.now place (trees items.now))) }
{
    let vars = tail_of(items);
    let arity = names.predicates.arity_of(head_of(items));
    let used = check_use(arity, count_named(vars)?, first_place(items), place, so_far);
    let declared = check_declaration(alloc, &names.sorts, place, vars, used)?;
    check_scope(0, vars, declared)
}

/// The head and the body of a derived predicate.
fn check_derived(
    alloc: Global,
    names: &Vocabulary,
    items: &[Node],
    so_far: Option<Fault>,
) -> Result<Option<Fault>, AllocError>
    ensures { IfOk result (λ f. f ≡ first so_far
        (specs.derived_names names.now (trees items.now))) }
{
    match front_of(items) {
        Front::End | Front::Word { .. } => Ok(so_far),
        Front::List { items, place, rest } => {
            let headed = check_head(alloc, names, place, items, so_far)?;
            let mut scope = Scope::new(alloc);
            enter(&mut scope, tail_of(items))?;
            check_conditions(alloc, names, &mut scope, rest, headed)
        }
    }
}

/// The parameters of an action with these keys.
pub(crate) fn parameters_of<'a>(keys: &'a [Node]) -> &'a [Node]
    ensures { trees result.now ≡ specs.parameters_of (trees keys.now) }
{
    value_at(b":parameters", keys)
}

/// The value of a key, which is the list at this place. Fails only where memory is wanting, and
/// else leaves the scope as it was.
fn check_value(
    alloc: Global,
    names: &Vocabulary,
    heads: &NameTable,
    scope: &mut Scope,
    key: Key,
    place: usize,
    items: &[Node],
    so_far: Option<Fault>,
) -> Result<Option<Fault>, AllocError>
    ensures faults { IfOk result (λ f. f
        ≡ first so_far (specs.value_names names.now heads.now scope.old key place
        (trees items.now))) }
    ensures scope { OnOk result (scope.new ≡ scope.old) }
{
    match key {
        Key::Parameters => check_variables(alloc, &names.sorts, 0, items, so_far),
        Key::Precondition => check_condition(alloc, names, scope, place, items, so_far),
        Key::Effect => check_effect(names, heads, scope, place, items, so_far),
        Key::Inputs
        | Key::Outputs
        | Key::Domain
        | Key::Certified
        | Key::Value
        | Key::Unknown
        | Key::NoKey => Ok(so_far),
    }
}

/// Keys and their values.
fn check_keys(
    alloc: Global,
    names: &Vocabulary,
    heads: &NameTable,
    scope: &mut Scope,
    items: &[Node],
    so_far: Option<Fault>,
) -> Result<Option<Fault>, AllocError>
    ensures { IfOk result (λ f. f ≡ first so_far
        (specs.keys_names names.now heads.now scope.old NoKey (trees items.now))) }
{
    let mut left = items;
    let mut found = so_far;
    let mut key = Key::NoKey;
    'keys: loop {
        match front_of(left) {
            Front::End => return Ok(found),
            Front::Word { text, rest, .. } => {
                key = Keyed::Action.key_of(text);
                left = rest;
            }
            Front::List { items, place, rest } => {
                found = check_value(alloc, names, heads, scope, key, place, items, found)?;
                left = rest;
            }
        }
    }
}

/// The keys of an action.
fn check_action(
    alloc: Global,
    names: &Vocabulary,
    heads: &NameTable,
    keys: &[Node],
    so_far: Option<Fault>,
) -> Result<Option<Fault>, AllocError>
    ensures { IfOk result (λ f. f ≡ first so_far
        (specs.action_names names.now heads.now (trees keys.now))) }
{
    let mut seen = NameTable::new(alloc);
    let once = check_repeated(&mut seen, keys, so_far)?;
    let mut scope = Scope::new(alloc);
    enter(&mut scope, parameters_of(keys))?;
    check_keys(alloc, names, heads, &mut scope, keys, once)
}

/// What stands behind the first word of an item.
fn check_body(
    alloc: Global,
    names: &Vocabulary,
    heads: &NameTable,
    item: Item,
    items: &[Node],
    so_far: Option<Fault>,
) -> Result<Option<Fault>, AllocError>
    ensures { IfOk result (λ f. f ≡ first so_far
        (specs.body_names names.now heads.now item (trees items.now))) }
{
    match item {
        Item::Constants => Ok(check_types(&names.sorts, items, so_far)),
        Item::Predicates => check_predicates(alloc, &names.sorts, items, so_far),
        Item::Functions => check_functions(alloc, &names.sorts, items, so_far),
        Item::Derived => check_derived(alloc, names, items, so_far),
        Item::Action => check_action(alloc, names, heads, tail_of(items), so_far),
        Item::Types
        | Item::Requirements
        | Item::Domain
        | Item::Objects
        | Item::Init
        | Item::Goal
        | Item::Metric
        | Item::Stream
        | Item::CostStream
        | Item::Unknown
        | Item::NoItem => Ok(so_far),
    }
}

/// The items of a domain. Fails only where memory is wanting.
pub(crate) fn check_items(
    alloc: Global,
    names: &Vocabulary,
    heads: &NameTable,
    items: &[Node],
    so_far: Option<Fault>,
) -> Result<Option<Fault>, AllocError>
    ensures { IfOk result (λ f. f ≡ first so_far
        (specs.items_names names.now heads.now (trees items.now))) }
{
    let mut left = items;
    let mut found = so_far;
    'items: loop {
        match front_of(left) {
            Front::End => return Ok(found),
            Front::Word { rest, .. } => left = rest,
            Front::List { items, rest, .. } => {
                let item = TextKind::Domain.item_of(head_of(items));
                found = check_body(alloc, names, heads, item, tail_of(items), found)?;
                left = rest;
            }
        }
    }
}
