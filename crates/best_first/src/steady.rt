//! Conditions that stay true as more atoms of fluents become true.
ghost use Rattle.std.specs.Prelude.{◌≡◌, ◌<◌, IfNone, IfOk, false, length, true};
ghost use Rattle.task_model.specs.Condition.{parts_of};
ghost use Rattle.task_model.specs.Fit.{IsFitDomain};
ghost use Rattle.task_model.specs.Roles.{role_of};
ghost use Rattle.formula_eval.specs.Readable.{is_readable, are_readable};
ghost use Rattle.best_first.specs.Steady.{has_steady_items};
ghost use Rattle.best_first.specs.Steady as steady;

use std::alloc::{AllocError, Global};
use task_model::{Derived, Domain, Formula, FormulaNode, Role};

/// The role of the predicate.
fn predicate_role(domain: &Domain, pred: u32) -> Role
    requires fit { IsFitDomain domain.now }
    requires predicate { pred < length domain.now.predicates }
    ensures { result ≡ role_of domain.now pred }
{
    domain.roles.as_slice()[pred as usize]
}

/// Whether the predicate is marked.
fn is_marked(marks: &[bool], pred: u32) -> bool
    ensures { result ≡ steady.is_marked marks.now pred }
{
    match marks.get(pred as usize) {
        Some(mark) => *mark,
        None => false,
    }
}

/// Whether an atom of the predicate stays true as more atoms of fluents become true, where derived
/// ones of the marked predicates do; under a `not`, whether it stays as it is.
fn is_steady_atom(domain: &Domain, marks: &[bool], under: bool, pred: u32) -> bool
    requires fit { IsFitDomain domain.now }
    requires predicate { pred < length domain.now.predicates }
    ensures { result ≡ steady.is_steady_atom marks.now under (role_of domain.now pred) pred }
{
    match predicate_role(domain, pred) {
        Role::Static => true,
        Role::Fluent => !under,
        Role::Derived => !under && is_marked(marks, pred),
    }
}

/// Whether each atom in the condition is so.
#[cycle(steady)]
pub(crate) fn is_steady(domain: &Domain, marks: &[bool], under: bool, condition: &Formula) -> bool
    requires fit { IsFitDomain domain.now }
    requires readable { is_readable domain.now condition.now ≡ true }
    ensures { result ≡ steady.is_steady domain.now marks.now under condition.now }
{
    match &condition.node {
        FormulaNode::Atom { pred, .. } => is_steady_atom(domain, marks, under, *pred),
        FormulaNode::Equal(_, _) => true,
        FormulaNode::All(parts) | FormulaNode::Any(parts) => {
            are_steady(domain, marks, under, parts.as_slice())
        }
        FormulaNode::Not(part) => is_steady(domain, marks, true, part),
        FormulaNode::Exists { body, .. } => is_steady(domain, marks, under, body),
    }
}

/// Whether each of the parts is so.
#[cycle(steady)]
fn are_steady(domain: &Domain, marks: &[bool], under: bool, parts: &[Formula]) -> bool
    requires fit { IsFitDomain domain.now }
    requires readable { are_readable domain.now (parts_of parts.now) ≡ true }
    ensures { result ≡ steady.are_steady domain.now marks.now under (parts_of parts.now) }
{
    for part in parts {
        if !is_steady(domain, marks, under, part) {
            return false;
        }
    }
    true
}

/// Whether what the item's predicate follows by is steady, if it is marked.
fn is_steady_item(domain: &Domain, marks: &[bool], item: &Derived) -> bool
    requires fit { IsFitDomain domain.now }
    requires readable { is_readable domain.now item.now.body ≡ true }
    ensures { result ≡ steady.is_steady_item domain.now marks.now item.now }
{
    !is_marked(marks, item.pred) || is_steady(domain, marks, false, &item.body)
}

/// A predicate that is marked though something that it follows by isn't steady, if there is one.
fn unsteady_predicate(domain: &Domain, marks: &[bool]) -> Option<u32>
    requires { IsFitDomain domain.now }
    ensures { IfNone result (has_steady_items domain.now marks.now ≡ true) }
{
    for item in domain.derived.as_slice() {
        if !is_steady_item(domain, marks, item) {
            return Some(item.pred);
        }
    }
    None
}

/// Takes the mark from the predicate.
fn unmark(marks: &mut Vec<bool>, pred: u32) {
    if let Some(mark) = marks.get_mut(pred as usize) {
        *mark = false;
    }
}

/// Marks for the predicates, so that what marked ones follow by is steady: as many as there can be.
/// Each turn takes one from a derived predicate. Fails only where memory is wanting.
pub(crate) fn steady_predicates(alloc: Global, domain: &Domain) -> Result<Vec<bool>, AllocError>
    requires { IsFitDomain domain.now }
    ensures { IfOk result (λ marks. has_steady_items domain.now marks.items ≡ true) }
{
    let mut marks = Vec::new(alloc);
    marks.resize(domain.predicates.len(), true)?;
    for _ in domain.derived.as_slice() {
        match unsteady_predicate(domain, marks.as_slice()) {
            Some(pred) => unmark(&mut marks, pred),
            None => return Ok(marks),
        }
    }
    Ok(Vec::new(alloc))
}
