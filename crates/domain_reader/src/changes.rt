//! What effects do.
ghost use Rattle.std.specs.Prelude.{◌≡◌, [], IfOk, OnOk};
ghost use Rattle.sexpr_text.specs.Trees.{trees};
ghost use Rattle.domain_reader.specs.Effects as specs;

use form_reader::{EffectHead, effect_head_of, head_of, inner_of, tail_of};
use name_tables::{Scope, Vocabulary, declared_place, pattern_of, terms_of};
use sexpr_text::{Front, Node, front_of};
use std::alloc::{AllocError, Global};
use std::marker::Model;
use task_model::{CostTerm, Pattern, Seq, number_of};

/// The atoms that effects add and take away, and what they cost, in the order of the text.
#[derive(Drop)]
pub(crate) struct Changes {
    pub(crate) adds: Vec<Pattern>,
    pub(crate) deletes: Vec<Pattern>,
    pub(crate) costs: Vec<CostTerm>,
}

impl Model for Changes {
    ghost use Rattle.domain_reader.specs.Effects.{Done};

    ghost Value = { Done };

    ghost view = { λ c. record {
      adds = c.adds.items;
      deletes = c.deletes.items;
      costs = c.costs.items;
    } };
}

impl Changes {
    /// Nothing, which takes no memory.
    pub(crate) fn new(alloc: Global) -> Changes
        ensures { result ≡ record { adds = []; deletes = []; costs = [] } }
    {
        Changes {
            adds: Vec::new(alloc),
            deletes: Vec::new(alloc),
            costs: Vec::new(alloc),
        }
    }
}

/// The cost that stands first in a row.
fn cost_of(
    alloc: Global,
    names: &Vocabulary,
    scope: &Scope,
    items: &[Node],
) -> Result<CostTerm, AllocError>
    ensures { IfOk result (λ t. t ≡ specs.cost_term_of names.now scope.now (trees items.now)) }
{
    match front_of(items) {
        Front::End => Ok(CostTerm::Number(0)),
        Front::Word { text, .. } => Ok(CostTerm::Number(number_of(text).unwrap_or(0))),
        Front::List { items, .. } => {
            let func = declared_place(&names.functions, head_of(items))?;
            let args = terms_of(alloc, &names.objects, scope, tail_of(items))?;
            Ok(CostTerm::Value {
                func,
                args: Seq::from_vec(args),
            })
        }
    }
}

/// Notes what the effect does that a list of these trees is. Fails only where memory is wanting.
#[cycle(changes)]
pub(crate) fn note_effect(
    alloc: Global,
    names: &Vocabulary,
    scope: &Scope,
    changes: &mut Changes,
    items: &[Node],
) -> Result<(), AllocError>
    ensures { OnOk result (changes.new
        ≡ specs.after_effect names.now scope.now changes.old (trees items.now)) }
{
    match front_of(items) {
        Front::End | Front::List { .. } => Ok(()),
        Front::Word { text, rest, .. } => match effect_head_of(text) {
            EffectHead::And => note_effects(alloc, names, scope, changes, rest),
            EffectHead::Not => {
                let pattern = pattern_of(alloc, names, scope, inner_of(rest))?;
                changes.deletes.push(pattern)?;
                Ok(())
            }
            EffectHead::Increase => {
                let cost = cost_of(alloc, names, scope, tail_of(rest))?;
                changes.costs.push(cost)?;
                Ok(())
            }
            EffectHead::Refused => Ok(()),
            EffectHead::Atom => {
                let pattern = pattern_of(alloc, names, scope, items)?;
                changes.adds.push(pattern)?;
                Ok(())
            }
        },
    }
}

/// Notes what the effects of a row do.
#[cycle(changes)]
fn note_effects(
    alloc: Global,
    names: &Vocabulary,
    scope: &Scope,
    changes: &mut Changes,
    items: &[Node],
) -> Result<(), AllocError>
    ensures { OnOk result (changes.new
        ≡ specs.after_effects names.now scope.now changes.old (trees items.now)) }
{
    let mut left = items;
    'parts: loop {
        match front_of(left) {
            Front::End => return Ok(()),
            Front::Word { rest, .. } => left = rest,
            Front::List { items, rest, .. } => {
                note_effect(alloc, names, scope, changes, items)?;
                left = rest;
            }
        }
    }
}
