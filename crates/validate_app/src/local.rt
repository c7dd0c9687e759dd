//! Whether steps look at few atoms. For speed alone.
use task_model::{Formula, FormulaNode, Role, Task};

/// Whether the condition asks for atoms of facts and fluents alone, each by its objects.
#[cycle(local)]
fn is_plain(task: &Task, formula: &Formula) -> bool {
    match &formula.node {
        FormulaNode::Atom { pred, .. } => match task.domain.roles.as_slice().get(*pred as usize) {
            Some(Role::Derived) => false,
            _ => true,
        },
        FormulaNode::Equal(_, _) => true,
        FormulaNode::All(parts) | FormulaNode::Any(parts) => are_plain(task, parts.as_slice()),
        FormulaNode::Not(part) => is_plain(task, part),
        FormulaNode::Exists { .. } => false,
    }
}

/// Whether all of them do.
#[cycle(local)]
fn are_plain(task: &Task, formulas: &[Formula]) -> bool {
    for formula in formulas {
        if !is_plain(task, formula) {
            return false;
        }
    }
    true
}

/// Whether no action's condition has a derived atom or says that something exists. Then a step looks
/// at a few atoms alone, and is quicker in a state that is spread; elsewhere the whole state would
/// be put together in each step. No clause says which it is, since what is said of a plan is the same
/// either way: this is for speed alone.
pub(crate) fn is_local(task: &Task) -> bool {
    for action in task.domain.actions.as_slice() {
        if !is_plain(task, &action.condition) {
            return false;
        }
    }
    true
}
