//! What conditions are.
#![tactic(auto, using(lemmas::proofs::Members::take_append, crate::proofs::ConditionsRowLemmas::push_part, crate::proofs::ConditionsRowLemmas::all_parts))]

ghost use Rattle.std.specs.Prelude.{◌≡◌, IfOk, OnOk};
ghost use Rattle.sexpr_text.specs.Trees.{trees};
ghost use Rattle.task_model.specs.Condition.{parts_of};
ghost use Rattle.name_tables.specs.Conditions as specs;

use crate::scope::Scope;
use crate::terms::{declared_place, small_number, terms_of};
use crate::variables::{enter, named_sorts};
use crate::vocabulary::Vocabulary;
use form_reader::{ConditionHead, condition_head_of};
use sexpr_text::{Front, Node, front_of};
use std::alloc::{AllocError, Global};
use task_model::{Formula, FormulaNode, Seq, Term};

/// The condition that is always true.
fn truth(alloc: Global) -> Formula
    ensures { result ≡ specs.truth }
{
    Formula {
        node: FormulaNode::All(Vec::new(alloc)),
    }
}

/// That the first two terms are the same object.
fn equality(alloc: Global, terms: &[Term]) -> Formula
    ensures { result ≡ specs.equal_of terms.now }
{
    match terms {
        [] => truth(alloc),
        [first] => Formula {
            node: FormulaNode::Equal(*first, *first),
        },
        [first, second, ..] => Formula {
            node: FormulaNode::Equal(*first, *second),
        },
    }
}

/// The condition that a list of these trees is, with these variables in scope. Fails only where
/// memory is wanting, and else leaves the scope as it was.
#[cycle(formulas)]
pub fn condition_of(
    alloc: Global,
    names: &Vocabulary,
    scope: &mut Scope,
    items: &[Node],
) -> Result<Formula, AllocError>
    ensures value { IfOk result (λ f. f
        ≡ specs.condition_of names.now scope.old (trees items.now)) }
    ensures scope { OnOk result (scope.new ≡ scope.old) }
{
    match front_of(items) {
        Front::End | Front::List { .. } => Ok(truth(alloc)),
        Front::Word { text, rest, .. } => match condition_head_of(text) {
            ConditionHead::And => {
                let parts = conditions_of(alloc, names, scope, rest)?;
                Ok(Formula {
                    node: FormulaNode::All(parts),
                })
            }
            ConditionHead::Or => {
                let parts = conditions_of(alloc, names, scope, rest)?;
                Ok(Formula {
                    node: FormulaNode::Any(parts),
                })
            }
            ConditionHead::Not => {
                let part = single_of(alloc, names, scope, rest)?;
                Ok(Formula {
                    node: FormulaNode::Not(Box::new(alloc, part)?),
                })
            }
            ConditionHead::Exists => exists_of(alloc, names, scope, rest),
            ConditionHead::Equal => {
                let terms = terms_of(alloc, &names.objects, scope, rest)?;
                Ok(equality(alloc, terms.as_slice()))
            }
            ConditionHead::Refused => Ok(truth(alloc)),
            ConditionHead::Atom => {
                let pred = declared_place(&names.predicates, text)?;
                let args = terms_of(alloc, &names.objects, scope, rest)?;
                Ok(Formula {
                    node: FormulaNode::Atom {
                        pred,
                        args: Seq::from_vec(args),
                    },
                })
            }
        },
    }
}

/// The conditions in a row.
#[cycle(formulas)]
fn conditions_of(
    alloc: Global,
    names: &Vocabulary,
    scope: &mut Scope,
    items: &[Node],
) -> Result<Vec<Formula>, AllocError>
    ensures value { IfOk result (λ fs. parts_of fs.items
        ≡ specs.conditions_of names.now scope.old (trees items.now)) }
    ensures scope { OnOk result (scope.new ≡ scope.old) }
{
    let mut parts = Vec::new(alloc);
    let mut left = items;
    'parts: loop {
        match front_of(left) {
            Front::End => return Ok(parts),
            Front::Word { rest, .. } => left = rest,
            Front::List { items, rest, .. } => {
                parts.push(condition_of(alloc, names, scope, items)?)?;
                left = rest;
            }
        }
    }
}

/// The first condition of a row.
#[cycle(formulas)]
pub fn single_of(
    alloc: Global,
    names: &Vocabulary,
    scope: &mut Scope,
    items: &[Node],
) -> Result<Formula, AllocError>
    ensures value { IfOk result (λ f. f ≡ specs.single_of names.now scope.old (trees items.now)) }
    ensures scope { OnOk result (scope.new ≡ scope.old) }
{
    match front_of(items) {
        Front::End | Front::Word { .. } => Ok(truth(alloc)),
        Front::List { items, .. } => condition_of(alloc, names, scope, items),
    }
}

/// Variables, and then a condition in which they are in scope too.
#[cycle(formulas)]
fn exists_of(
    alloc: Global,
    names: &Vocabulary,
    scope: &mut Scope,
    items: &[Node],
) -> Result<Formula, AllocError>
    ensures value { IfOk result (λ f. f ≡ specs.exists_of names.now scope.old (trees items.now)) }
    ensures scope { OnOk result (scope.new ≡ scope.old) }
{
    match front_of(items) {
        Front::End | Front::Word { .. } => Ok(truth(alloc)),
        Front::List { items, rest, .. } => {
            let outer = scope.len();
            let first = small_number(outer)?;
            let sorts = named_sorts(alloc, &names.sorts, items)?;
            enter(scope, items)?;
            let body = single_of(alloc, names, scope, rest)?;
            scope.leave(outer);
            Ok(Formula {
                node: FormulaNode::Exists {
                    first,
                    sorts: Seq::from_vec(sorts),
                    body: Box::new(alloc, body)?,
                },
            })
        }
    }
}
