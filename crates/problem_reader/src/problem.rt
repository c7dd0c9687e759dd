//! A problem, from its tree.
ghost use Rattle.std.specs.Prelude.{◌≡◌, IfOk};
ghost use Rattle.sexpr_text.specs.Trees.{tree, trees};
ghost use Rattle.name_tables.specs.Texts.{body_of as body_in};
ghost use Rattle.problem_reader.specs.Problems as specs;

use crate::atoms::Setting;
use crate::facts::valueds_of;
use crate::objects::objects_of;
use crate::values::is_init;
use domain_reader::name_of;
use form_reader::{Item, TextKind, head_of, tail_of};
use name_tables::{NumberLists, Scope, Vocabulary, body_of, declared_of, single_of};
use sexpr_text::{Front, Node, Tree, front_of};
use std::alloc::{AllocError, Global};
use task_model::{Declared, Fact, Formula, Name, Problem, Seq};

/// The constants and the objects with their types, which may be kept. Fails only where memory is
/// wanting.
fn declared_by(
    setting: &Setting<'_>,
    kept: &Option<NumberLists>,
    body: &[Node],
) -> Result<Vec<Declared>, AllocError>
    requires { specs.AreTypesOf setting.now.domain.now setting.now.names.now (trees body.now)
        kept.now }
    ensures { IfOk result (λ list. list.items ≡ specs.declared_objects setting.now.domain.now
        setting.now.names.now.sorts (trees body.now)) }
{
    let Setting {
        alloc,
        domain,
        names,
    } = *setting;
    match kept {
        Some(sorts) => declared_of(alloc, &names.objects, sorts),
        None => objects_of(alloc, domain, &names.sorts, body)?.to_declared(),
    }
}

/// What stands behind the word `:init` of the first such item.
fn init_of<'a>(items: &'a [Node]) -> &'a [Node]
    ensures { trees result.now ≡ specs.init_of (trees items.now) }
{
    let mut left = items;
    'items: loop {
        match front_of(left) {
            Front::End => return &[],
            Front::Word { rest, .. } => left = rest,
            Front::List { items, rest, .. } => {
                if is_init(TextKind::Problem.item_of(head_of(items))) {
                    return tail_of(items);
                }
                left = rest;
            }
        }
    }
}

/// Whether the item is a goal.
fn is_goal(item: Item) -> bool
    ensures { result ≡ specs.is_goal item }
{
    matches!(item, Item::Goal)
}

/// What stands behind the word `:goal` of the first such item.
fn goal_of<'a>(items: &'a [Node]) -> &'a [Node]
    ensures { trees result.now ≡ specs.goal_of (trees items.now) }
{
    let mut left = items;
    'items: loop {
        match front_of(left) {
            Front::End => return &[],
            Front::Word { rest, .. } => left = rest,
            Front::List { items, rest, .. } => {
                if is_goal(TextKind::Problem.item_of(head_of(items))) {
                    return tail_of(items);
                }
                left = rest;
            }
        }
    }
}

/// Whether the item is a metric.
fn is_metric(item: Item) -> bool
    ensures { result ≡ specs.is_metric_item item }
{
    matches!(item, Item::Metric)
}

/// Whether there is a metric.
fn has_metric(items: &[Node]) -> bool
    ensures { result ≡ specs.has_metric (trees items.now) }
{
    let mut left = items;
    'items: loop {
        match front_of(left) {
            Front::End => return false,
            Front::Word { rest, .. } => left = rest,
            Front::List { items, rest, .. } => {
                if is_metric(TextKind::Problem.item_of(head_of(items))) {
                    return true;
                }
                left = rest;
            }
        }
    }
}

/// The condition that a goal is, which is the row behind its word.
fn condition_of(alloc: Global, names: &Vocabulary, items: &[Node]) -> Result<Formula, AllocError>
    ensures { IfOk result (λ f. f ≡ specs.condition_of names.now (trees items.now)) }
{
    let mut scope = Scope::new(alloc);
    single_of(alloc, names, &mut scope, items)
}

/// The problem that a text spells, whose first facts these are. Fails only where memory is wanting.
pub(crate) fn problem_of(
    setting: &Setting<'_>,
    kept: &Option<NumberLists>,
    text: &Tree,
    facts: Vec<Fact>,
) -> Result<Problem, AllocError>
    requires types { specs.AreTypesOf setting.now.domain.now setting.now.names.now
        (body_in (tree text.now)) kept.now }
    requires facts { facts.items
        ≡ specs.facts_of setting.now.names.now (specs.init_of (body_in (tree text.now))) }
    ensures { IfOk result (λ p. p
        ≡ specs.problem_by setting.now.domain.now setting.now.names.now (tree text.now)) }
{
    let Setting { alloc, names, .. } = *setting;
    let body = body_of(text);
    let name = Name::from_slice(alloc, name_of(text))?;
    let objects = declared_by(setting, kept, body)?;
    let values = valueds_of(alloc, names, init_of(body))?;
    let goal = condition_of(alloc, names, goal_of(body))?;
    Ok(Problem {
        name,
        objects: Seq::from_vec(objects),
        init: Seq::from_vec(facts),
        values: Seq::from_vec(values),
        goal,
        metric: has_metric(body),
    })
}
