//! The static atoms of a condition, and its fluent ones.
ghost use Rattle.std.specs.Prelude.{◌≡◌, false, true, IfOk, MatchOption};
ghost use Rattle.formula_eval.specs.Readable.{is_readable};
ghost use Rattle.task_model.specs.Fit.{IsFitDomain};
ghost use Rattle.grounder.specs.Parts.{IsNeeded, AreNeeded, fluent_in, is_static_part, tops_of};

use fact_join::QueryAtom;
use formula_eval::{Env, objects_at};
use std::alloc::{AllocError, Global};
use std::slice;
use task_model::{Atom, Domain, Formula, FormulaNode, Role};

/// The parts that all have to be true where the condition is made of such, and else the condition
/// alone.
pub fn tops(condition: &Formula) -> &[Formula]
    ensures { result.now ≡ tops_of condition.now }
{
    match &condition.node {
        FormulaNode::All(parts) => parts.as_slice(),
        FormulaNode::Atom { .. }
        | FormulaNode::Equal(..)
        | FormulaNode::Any(_)
        | FormulaNode::Not(_)
        | FormulaNode::Exists { .. } => slice::from_ref(condition),
    }
}

/// The condition as an atom, if it is one of a static predicate.
pub(crate) fn static_atom<'a>(domain: &Domain, condition: &'a Formula) -> Option<QueryAtom<'a>>
    requires fit { IsFitDomain domain.now }
    requires readable { is_readable domain.now condition.now ≡ true }
    ensures { MatchOption result (is_static_part domain.now condition.now ≡ false)
        (IsNeeded domain.now condition.now) }
{
    let FormulaNode::Atom { pred, args } = &condition.node else {
        return None;
    };
    match domain.roles.as_slice()[*pred as usize] {
        Role::Static => Some(QueryAtom {
            pred: *pred,
            terms: args.as_slice(),
        }),
        Role::Fluent | Role::Derived => None,
    }
}

/// The condition as an atom where the slots have these objects, if it is one of a fluent. It takes
/// no memory.
pub fn fluent_atom(alloc: Global, domain: &Domain, condition: &Formula, env: &Env) -> Option<Atom>
    requires fit { IsFitDomain domain.now }
    requires readable { is_readable domain.now condition.now ≡ true }
    ensures { result ≡ fluent_in domain.now env.now condition.now }
{
    let FormulaNode::Atom { pred, args } = &condition.node else {
        return None;
    };
    match domain.roles.as_slice()[*pred as usize] {
        Role::Fluent => Some(Atom {
            pred: *pred,
            args: objects_at(alloc, args.as_slice(), env),
        }),
        Role::Static | Role::Derived => None,
    }
}

/// The atoms of static predicates that stand at the top of the condition: the condition itself, or
/// parts that all have to be true. Fails only where memory is wanting.
pub(crate) fn static_atoms<'a>(
    alloc: Global,
    domain: &Domain,
    condition: &'a Formula,
) -> Result<Vec<QueryAtom<'a>>, AllocError>
    requires fit { IsFitDomain domain.now }
    requires readable { is_readable domain.now condition.now ≡ true }
    ensures { IfOk result (λ atoms. AreNeeded domain.now (tops_of condition.now) atoms.items) }
{
    let mut atoms = Vec::new(alloc);
    for part in tops(condition) {
        if let Some(atom) = static_atom(domain, part) {
            atoms.push(atom)?;
        }
    }
    Ok(atoms)
}
