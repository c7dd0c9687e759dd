//! What derived predicates rest on.
ghost use Rattle.std.specs.Prelude.{◌≡◌};
ghost use Rattle.task_model.specs.Condition.{parts_of};
ghost use Rattle.task_model.specs.Fit as fit;

use crate::graph::Graph;
use task_model::{Domain, Formula, FormulaNode};

/// Whether an atom of the predicate stands in the condition.
#[cycle(mentions)]
fn mentions(pred: u32, formula: &Formula) -> bool
    ensures { result ≡ fit.mentions pred formula.now }
{
    match &formula.node {
        FormulaNode::Atom { pred: named, .. } => *named == pred,
        FormulaNode::Equal(_, _) => false,
        FormulaNode::All(parts) | FormulaNode::Any(parts) => any_mentions(pred, parts.as_slice()),
        FormulaNode::Not(part) => mentions(pred, part),
        FormulaNode::Exists { body, .. } => mentions(pred, body),
    }
}

/// Whether one stands in some part.
#[cycle(mentions)]
fn any_mentions(pred: u32, parts: &[Formula]) -> bool
    ensures { result ≡ fit.any_mentions pred (parts_of parts.now) }
{
    for part in parts {
        if mentions(pred, part) {
            return true;
        }
    }
    false
}

/// The items of derived predicates: an edge leads from one to each whose head its body mentions.
impl Graph for Domain {
    ghost use Rattle.std.specs.Prelude.{length};
    ghost use Rattle.fit_check.specs.Tests.{item_leads};
    ghost use Rattle.fit_check.specs.Edges.{items_within};

    ghost size = { λ d. length d.derived };

    ghost edge = { item_leads };

    fn len(&self) -> usize {
        self.derived.len()
    }

    fn leads(&self, from: usize, to: usize) -> bool {
        let items = self.derived.as_slice();
        mentions(items[to].pred, &items[from].body)
    }

    ghost within = { items_within };
}
