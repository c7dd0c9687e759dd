//! What changes each predicate's atoms.
ghost use Rattle.std.specs.Prelude.{◌≡◌, IfOk, slice_set};
ghost use Rattle.task_model.specs.declared.domain.Role.TheVariants as role;
ghost use Rattle.domain_reader.specs.Domains as domains;
ghost use Rattle.domain_reader.specs.Marks as specs;

use std::alloc::{AllocError, Global};
use task_model::{Action, Derived, Domain, Pattern, Role};

/// Gives the predicate the role, if there is the predicate.
fn mark(roles: &mut Vec<Role>, pred: u32, role: Role)
    ensures { roles.new.items ≡ slice_set roles.old.items pred role }
{
    let place = pred as usize;
    if place < roles.len() {
        roles[place] = role;
    }
}

/// Marks the predicates of the atoms as fluents.
fn mark_changed(roles: &mut Vec<Role>, patterns: &[Pattern])
    ensures { roles.new.items
        ≡ specs.all_marked role.Fluent roles.old.items (specs.changed_preds patterns.now) }
{
    for pattern in patterns {
        mark(roles, pattern.pred, Role::Fluent);
    }
}

/// Marks the predicates that actions change as fluents.
fn mark_fluents(roles: &mut Vec<Role>, actions: &[Action])
    ensures { roles.new.items ≡ specs.fluents_marked roles.old.items actions.now }
{
    for action in actions {
        mark_changed(roles, action.adds.as_slice());
        mark_changed(roles, action.deletes.as_slice());
    }
}

/// Marks the predicates that rules head as derived.
fn mark_derived(roles: &mut Vec<Role>, rules: &[Derived])
    ensures { roles.new.items
        ≡ specs.all_marked role.Derived roles.old.items (specs.headed_preds rules.now) }
{
    for rule in rules {
        mark(roles, rule.pred, Role::Derived);
    }
}

/// The roles of all predicates: each is static until an effect or a `:derived` item says otherwise.
/// Fails only where memory is wanting.
pub(crate) fn roles_of(alloc: Global, domain: &Domain) -> Result<Vec<Role>, AllocError>
    ensures { IfOk result (λ list. list.items ≡ domains.roles_of domain.now) }
{
    let mut roles = vec![in alloc; Role::Static; domain.predicates.len()]?;
    mark_fluents(&mut roles, domain.actions.as_slice());
    mark_derived(&mut roles, domain.derived.as_slice());
    Ok(roles)
}
