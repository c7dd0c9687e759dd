//! What a condition reads of a state.
ghost use Rattle.std.specs.Prelude.{◌≡◌, ◌↔◌, ◌++◌, ℕ, IfOk, OnOk, length, map, true};
ghost use Rattle.formula_eval.specs.Readable.{are_readable, is_readable};
ghost use Rattle.lemmas.specs.Lists.{has_number, numbers_from};
ghost use Rattle.task_model.specs.Condition.{parts_of};
ghost use Rattle.task_model.specs.Fit.{IsFitDomain};
ghost use Rattle.task_model.specs.Roles.{role_of};
ghost use Rattle.plan_deorder.specs.Occurring.{IsWay, below_in, fluents_of, is_fluent_role};
ghost use Rattle.plan_deorder.specs.Touches.{ReadsAll, all_reads_in, reads_in};

use crate::predicates::put_occurring;
use formula_eval::Env;
use grounder::fluent_atom;
use name_tables::reached_from;
use std::alloc::{AllocError, Global};
use task_model::{Atom, Domain, Formula, FormulaNode, Role, Seq};

/// Puts the fluents' atoms that stand in the condition outside every `exists` behind others.
#[cycle(reads)]
pub(crate) fn put_reads(
    alloc: Global,
    domain: &Domain,
    env: &Env,
    condition: &Formula,
    atoms: &mut Vec<Atom>,
) -> Result<(), AllocError>
    requires fit { IsFitDomain domain.now }
    requires readable { is_readable domain.now condition.now ≡ true }
    ensures { OnOk result (atoms.new.items
        ≡ atoms.old.items ++ reads_in domain.now env.now condition.now) }
{
    match &condition.node {
        FormulaNode::Atom { .. } => {
            if let Some(atom) = fluent_atom(alloc, domain, condition, env) {
                atoms.push(atom)?;
            }
            Ok(())
        }
        FormulaNode::Equal(..) | FormulaNode::Exists { .. } => Ok(()),
        FormulaNode::All(parts) | FormulaNode::Any(parts) => {
            put_all_reads(alloc, domain, env, parts.as_slice(), atoms)
        }
        FormulaNode::Not(part) => put_reads(alloc, domain, env, part, atoms),
    }
}

/// Puts those of all parts behind others.
#[cycle(reads)]
fn put_all_reads(
    alloc: Global,
    domain: &Domain,
    env: &Env,
    parts: &[Formula],
    atoms: &mut Vec<Atom>,
) -> Result<(), AllocError>
    requires fit { IsFitDomain domain.now }
    requires readable { are_readable domain.now (parts_of parts.now) ≡ true }
    ensures { OnOk result (atoms.new.items
        ≡ atoms.old.items ++ all_reads_in domain.now env.now (parts_of parts.now)) }
{
    for part in parts {
        put_reads(alloc, domain, env, part, atoms)?;
    }
    Ok(())
}

/// The numbers to which there is a way from one of these. Fails only where memory is wanting.
fn reached_from_each(
    alloc: Global,
    edges: &[Seq<u32>],
    starts: &[u32],
) -> Result<Vec<u32>, AllocError>
    ensures { IfOk result (λ reached. (p : ℕ) → has_number reached.items p ≡ true
        ↔ IsWay edges.now starts.now p) }
{
    let mut reached = Vec::new(alloc);
    for start in starts {
        let more = reached_from(alloc, edges, *start)?;
        reached.extend_from_slice(more.as_slice())?;
    }
    Ok(reached)
}

/// Whether the predicate is a fluent.
fn is_fluent(domain: &Domain, pred: u32) -> bool
    requires { IsFitDomain domain.now }
    ensures { result ≡ is_fluent_role (role_of domain.now pred) }
{
    let roles = domain.roles.as_slice();
    let place = pred as usize;
    if place < roles.len() {
        match roles[place] {
            Role::Fluent => true,
            Role::Static | Role::Derived => false,
        }
    } else {
        false
    }
}

/// Those of the predicates that are fluents. Fails only where memory is wanting.
fn fluents(alloc: Global, domain: &Domain, preds: &[u32]) -> Result<Vec<u32>, AllocError>
    requires { IsFitDomain domain.now }
    ensures { IfOk result (λ fluents. fluents.items ≡ fluents_of domain.now preds.now) }
{
    let mut fluents = Vec::new(alloc);
    for pred in preds {
        if is_fluent(domain, *pred) {
            fluents.push(*pred)?;
        }
    }
    Ok(fluents)
}

/// The fluents all of whose atoms the condition reads: those that occur inside an `exists`, and
/// those on which a derived predicate of the condition rests. `edges` has what stands in the bodies
/// of each predicate's items. Fails only where memory is wanting.
pub(crate) fn whole_reads(
    alloc: Global,
    domain: &Domain,
    edges: &[Seq<u32>],
    condition: &Formula,
) -> Result<Vec<u32>, AllocError>
    requires fit { IsFitDomain domain.now }
    requires edges { edges.now
        ≡ map (below_in domain.now.derived) (numbers_from 0 (length domain.now.predicates)) }
    ensures { IfOk result (λ preds. (p : ℕ) → has_number preds.items p ≡ true
        ↔ ReadsAll domain.now condition.now p) }
{
    let mut occurring = Vec::new(alloc);
    put_occurring(true, condition, &mut occurring)?;
    let mut preds = reached_from_each(alloc, edges, occurring.as_slice())?;
    put_occurring(false, condition, &mut preds)?;
    let whole = fluents(alloc, domain, preds.as_slice())?;
    Ok(whole)
}
