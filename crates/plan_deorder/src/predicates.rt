//! The predicates that occur in conditions, and what they rest on.
ghost use Rattle.std.specs.Prelude.{◌≡◌, ◌++◌, IfOk, OnOk, length, map};
ghost use Rattle.lemmas.specs.Lists.{numbers_from};
ghost use Rattle.task_model.specs.Condition.{parts_of};
ghost use Rattle.plan_deorder.specs.Occurring.{all_occurring_in, below_in, occurring_in};

use std::alloc::{AllocError, Global};
use task_model::{Derived, Domain, Formula, FormulaNode, Seq};

/// Puts the predicates that occur in the condition behind others, as they come; or, without
/// `outside`, those that occur inside an `exists` of it.
#[cycle(occurring)]
pub(crate) fn put_occurring(
    outside: bool,
    condition: &Formula,
    preds: &mut Vec<u32>,
) -> Result<(), AllocError>
    ensures { OnOk result (preds.new.items ≡ preds.old.items ++ occurring_in outside condition.now) }
{
    match &condition.node {
        FormulaNode::Atom { pred, .. } => {
            if outside {
                preds.push(*pred)?;
            }
            Ok(())
        }
        FormulaNode::Equal(..) => Ok(()),
        FormulaNode::All(parts) | FormulaNode::Any(parts) => {
            put_all_occurring(outside, parts.as_slice(), preds)
        }
        FormulaNode::Not(part) => put_occurring(outside, part, preds),
        FormulaNode::Exists { body, .. } => put_occurring(true, body, preds),
    }
}

/// Puts those of all parts behind others.
#[cycle(occurring)]
fn put_all_occurring(
    outside: bool,
    parts: &[Formula],
    preds: &mut Vec<u32>,
) -> Result<(), AllocError>
    ensures { OnOk result (preds.new.items
        ≡ preds.old.items ++ all_occurring_in outside (parts_of parts.now)) }
{
    for part in parts {
        put_occurring(outside, part, preds)?;
    }
    Ok(())
}

/// The predicates that occur in the bodies of a predicate's items. Fails only where memory is
/// wanting.
fn below(alloc: Global, items: &[Derived], pred: usize) -> Result<Seq<u32>, AllocError>
    ensures { IfOk result (λ below. below ≡ below_in items.now pred) }
{
    let mut preds = Vec::new(alloc);
    for item in items {
        if item.pred as usize == pred {
            put_occurring(true, &item.body, &mut preds)?;
        }
    }
    Ok(Seq::from_vec(preds))
}

/// For each predicate those that occur in the bodies of its items. Fails only where memory is
/// wanting.
pub(crate) fn edges_of(alloc: Global, domain: &Domain) -> Result<Vec<Seq<u32>>, AllocError>
    ensures { IfOk result (λ edges. edges.items
        ≡ map (below_in domain.now.derived) (numbers_from 0 (length domain.now.predicates))) }
{
    let mut edges = Vec::with_capacity(alloc, domain.predicates.len())?;
    for pred in 0..domain.predicates.len() {
        edges.push(below(alloc, domain.derived.as_slice(), pred)?)?;
    }
    Ok(edges)
}
