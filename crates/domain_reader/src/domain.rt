//! A domain, from its tree.
#![tactic(auto, using(form_reader::proofs::FaultsFirstLemmas::first_append))]

ghost use Rattle.std.specs.Prelude.{◌≡◌, [], None, IfOk, OnOk};
ghost use Rattle.sexpr_text.specs.Trees.{tree, trees};
ghost use Rattle.form_reader.specs.Faults.{first, least_fault};
ghost use Rattle.form_reader.specs.declared.groups.Spot.TheVariants.{Start};
ghost use Rattle.name_tables.specs.Variables.{named_words};
ghost use Rattle.domain_reader.specs.Effects.{after_effect};
ghost use Rattle.domain_reader.specs.Domains as specs;
ghost use Rattle.domain_reader.specs.Names.{items_names};
ghost use Rattle.domain_reader.specs.Tables.{heads_in};

use crate::changes::{Changes, note_effect};
use crate::cycles::{derived_edges, derived_items, listed_types, sorts_of, type_edges};
use crate::items::{check_items, parameters_of};
use crate::once::{
    Declared as Declares, check_derived_count, check_second_actions, check_second_items,
    check_second_signatures, is_action,
};
use crate::roles::roles_of;
use crate::tables::{add_heads, is_derived, name_of, vocabulary_of};
use form_reader::{Fault, InputKind, Item, TextKind, head_of, inner_of, tail_of};
use name_tables::{
    NameTable, Scope, TypedNames, Vocabulary, body_of, check_cycles, condition_of, declare_groups,
    declared_place, enter, named_sorts, single_of, value_at,
};
use sexpr_text::{Front, Node, Tree, front_of};
use std::alloc::{AllocError, Global};
use task_model::{Action, Declared, Derived, Domain, Name, Seq};

/// Whether the item declares constants.
fn is_constants(item: Item) -> bool
    ensures { result ≡ specs.is_constants item }
{
    matches!(item, Item::Constants)
}

/// Declares the constants of items.
fn add_constants(
    alloc: Global,
    sorts: &NameTable,
    names: &mut TypedNames,
    items: &[Node],
) -> Result<(), AllocError>
    ensures { OnOk result (names.new ≡ specs.constants_in sorts.now names.old (trees items.now)) }
{
    let mut left = items;
    'items: loop {
        match front_of(left) {
            Front::End => return Ok(()),
            Front::Word { rest, .. } => left = rest,
            Front::List { items, rest, .. } => {
                if is_constants(TextKind::Domain.item_of(head_of(items))) {
                    declare_groups(alloc, names, sorts, tail_of(items))?;
                }
                left = rest;
            }
        }
    }
}

/// The variables of a row as a scope.
fn scope_of(alloc: Global, items: &[Node]) -> Result<Scope, AllocError>
    ensures { IfOk result (λ scope. scope ≡ named_words Start (trees items.now)) }
{
    let mut scope = Scope::new(alloc);
    enter(&mut scope, items)?;
    Ok(scope)
}

/// What an action does whose keys are these.
fn done_by(
    alloc: Global,
    names: &Vocabulary,
    scope: &Scope,
    keys: &[Node],
) -> Result<Changes, AllocError>
    ensures { IfOk result (λ done. done
        ≡ after_effect names.now scope.now specs.nothing_done
        (specs.value_of_effect (trees keys.now))) }
{
    let mut changes = Changes::new(alloc);
    note_effect(
        alloc,
        names,
        scope,
        &mut changes,
        value_at(b":effect", keys),
    )?;
    Ok(changes)
}

/// The action that stands behind `:action`. Fails only where memory is wanting.
fn action_of(alloc: Global, names: &Vocabulary, items: &[Node]) -> Result<Action, AllocError>
    ensures { IfOk result (λ action. action ≡ specs.action_of names.now (trees items.now)) }
{
    let name = Name::from_slice(alloc, head_of(items))?;
    let keys = tail_of(items);
    let vars = parameters_of(keys);
    let params = Seq::from_vec(named_sorts(alloc, &names.sorts, vars)?);
    let mut scope = scope_of(alloc, vars)?;
    let condition = condition_of(alloc, names, &mut scope, value_at(b":precondition", keys))?;
    let Changes {
        adds,
        deletes,
        costs,
    } = done_by(alloc, names, &scope, keys)?;
    Ok(Action {
        name,
        params,
        condition,
        adds: Seq::from_vec(adds),
        deletes: Seq::from_vec(deletes),
        costs: Seq::from_vec(costs),
    })
}

/// The actions of items. Fails only where memory is wanting.
fn actions_of(alloc: Global, names: &Vocabulary, items: &[Node]) -> Result<Vec<Action>, AllocError>
    ensures { IfOk result (λ list. list.items ≡ specs.actions_of names.now (trees items.now)) }
{
    let mut list = Vec::new(alloc);
    let mut left = items;
    'items: loop {
        match front_of(left) {
            Front::End => return Ok(list),
            Front::Word { rest, .. } => left = rest,
            Front::List { items, rest, .. } => {
                if is_action(TextKind::Domain.item_of(head_of(items))) {
                    list.push(action_of(alloc, names, tail_of(items))?)?;
                }
                left = rest;
            }
        }
    }
}

/// The rule that stands behind `:derived`. Fails only where memory is wanting.
fn rule_of(alloc: Global, names: &Vocabulary, items: &[Node]) -> Result<Derived, AllocError>
    ensures { IfOk result (λ rule. rule ≡ specs.rule_of names.now (trees items.now)) }
{
    let head = inner_of(items);
    let pred = declared_place(&names.predicates, head_of(head))?;
    let vars = tail_of(head);
    let params = Seq::from_vec(named_sorts(alloc, &names.sorts, vars)?);
    let mut scope = scope_of(alloc, vars)?;
    let body = single_of(alloc, names, &mut scope, tail_of(items))?;
    Ok(Derived { pred, params, body })
}

/// The rules of items. Fails only where memory is wanting.
fn rules_of(alloc: Global, names: &Vocabulary, items: &[Node]) -> Result<Vec<Derived>, AllocError>
    ensures { IfOk result (λ list. list.items ≡ specs.rules_of names.now (trees items.now)) }
{
    let mut list = Vec::new(alloc);
    let mut left = items;
    'items: loop {
        match front_of(left) {
            Front::End => return Ok(list),
            Front::Word { rest, .. } => left = rest,
            Front::List { items, rest, .. } => {
                if is_derived(TextKind::Domain.item_of(head_of(items))) {
                    list.push(rule_of(alloc, names, tail_of(items))?)?;
                }
                left = rest;
            }
        }
    }
}

/// The constants of items with their types.
fn constants_of(
    alloc: Global,
    sorts: &NameTable,
    body: &[Node],
) -> Result<Vec<Declared>, AllocError>
    ensures { IfOk result (λ list. list.items ≡ specs.constants_of sorts.now (trees body.now)) }
{
    let mut constants = TypedNames::new(alloc);
    add_constants(alloc, sorts, &mut constants, body)?;
    constants.to_declared()
}

/// The domain but for its roles.
fn parts_of(alloc: Global, names: &Vocabulary, text: &Tree) -> Result<Domain, AllocError>
    ensures { IfOk result (λ d. specs.ArePartsOf names.now (tree text.now) d) }
{
    let body = body_of(text);
    let edges = type_edges(alloc, &names.sorts, body)?;
    let sorts = sorts_of(alloc, edges.as_slice(), &names.sorts)?;
    let predicates = names.predicates.to_signatures()?;
    let functions = names.functions.to_signatures()?;
    let constants = constants_of(alloc, &names.sorts, body)?;
    let derived = rules_of(alloc, names, body)?;
    let actions = actions_of(alloc, names, body)?;
    Ok(Domain {
        name: Name::from_slice(alloc, name_of(text))?,
        sorts: Seq::from_vec(sorts),
        predicates: Seq::from_vec(predicates),
        functions: Seq::from_vec(functions),
        constants: Seq::from_vec(constants),
        derived: Seq::from_vec(derived),
        actions: Seq::from_vec(actions),
        roles: Seq::from_vec(Vec::new(alloc)),
    })
}

/// The domain that a text spells. Fails only where memory is wanting.
pub(crate) fn domain_of(
    alloc: Global,
    names: &Vocabulary,
    text: &Tree,
) -> Result<Domain, AllocError>
    ensures { IfOk result (λ d. specs.IsDomainBy names.now (tree text.now) d) }
{
    let parts = parts_of(alloc, names, text)?;
    let roles = roles_of(alloc, &parts)?;
    let Domain {
        name,
        sorts,
        predicates,
        functions,
        constants,
        derived,
        actions,
        roles: _none,
    } = parts;
    Ok(Domain {
        name,
        sorts,
        predicates,
        functions,
        constants,
        derived,
        actions,
        roles: Seq::from_vec(roles),
    })
}

/// The name faults of a domain's items, each by itself. Fails only where memory is wanting.
fn check_each(alloc: Global, names: &Vocabulary, body: &[Node]) -> Result<Option<Fault>, AllocError>
    ensures { IfOk result (λ f. f ≡ first None
        (items_names names.now (heads_in [] (trees body.now)) (trees body.now))) }
{
    let mut heads = NameTable::new(alloc);
    add_heads(&mut heads, body)?;
    check_items(alloc, names, &heads, body, None)
}

/// The name faults of a domain with these items that aren't of cycles.
pub(crate) fn check_plain(
    alloc: Global,
    names: &Vocabulary,
    body: &[Node],
) -> Result<Option<Fault>, AllocError>
    ensures { IfOk result (λ f. f ≡ least_fault (specs.plain_names names.now (trees body.now))) }
{
    let used = check_each(alloc, names, body)?;
    let single = check_second_items(alloc, TextKind::Domain, body, used)?;
    let predicates = check_second_signatures(alloc, Declares::Predicates, body, single)?;
    let functions = check_second_signatures(alloc, Declares::Functions, body, predicates)?;
    let actions = check_second_actions(alloc, body, functions)?;
    check_derived_count(alloc, &names.predicates, body, actions)
}

/// The faults of types that are their own supertypes.
pub(crate) fn check_types(
    alloc: Global,
    names: &Vocabulary,
    body: &[Node],
    so_far: Option<Fault>,
) -> Result<Option<Fault>, AllocError>
    ensures { IfOk result (λ f. specs.AnswersTypes names.now (trees body.now) so_far f) }
{
    let edges = type_edges(alloc, &names.sorts, body)?;
    let listed = listed_types(alloc, &names.sorts, body)?;
    check_cycles(
        alloc,
        InputKind::TypeCycle,
        edges.as_slice(),
        listed.as_slice(),
        so_far,
    )
}

/// The faults of derived predicates that depend on themselves.
pub(crate) fn check_derived(
    alloc: Global,
    names: &Vocabulary,
    body: &[Node],
    so_far: Option<Fault>,
) -> Result<Option<Fault>, AllocError>
    ensures { IfOk result (λ f. specs.AnswersDerived names.now (trees body.now) so_far f) }
{
    let edges = derived_edges(alloc, &names.predicates, body)?;
    let items = derived_items(alloc, &names.predicates, body)?;
    check_cycles(
        alloc,
        InputKind::DerivedCycle,
        edges.as_slice(),
        items.as_slice(),
        so_far,
    )
}
