//! What changes a predicate's atoms.
ghost use Rattle.std.specs.Prelude.{◌≡◌, ◌==◌, ◌++◌, ◌||◌, count_by};
ghost use Rattle.std.specs.List.{list_any};
ghost use Rattle.task_model.specs.Fit as fit;
ghost use Rattle.task_model.specs.Roles as roles;
ghost use Rattle.fit_check.specs.Tests as tests;

use task_model::{Action, Domain, Role, has_atom_of};

/// Whether the action has an effect on the predicate.
fn is_changed_by(pred: usize, action: &Action) -> bool
    ensures { result ≡ list_any (λ p. p.pred == pred) (action.now.adds ++ action.now.deletes) }
{
    has_atom_of(pred, action.adds.as_slice()) || has_atom_of(pred, action.deletes.as_slice())
}

/// Whether the predicate occurs in an action's effect.
fn is_changed(domain: &Domain, pred: usize) -> bool
    ensures { result ≡ roles.is_changed domain.now pred }
{
    domain
        .actions
        .as_slice()
        .iter()
        .any(|action| is_changed_by(pred, action))
}

/// Whether an item heads the predicate.
fn is_derived(domain: &Domain, pred: usize) -> bool
    ensures { result ≡ roles.is_derived domain.now pred }
{
    domain
        .derived
        .as_slice()
        .iter()
        .any(|item| item.pred as usize == pred)
}

/// What changes the predicate's atoms.
pub(crate) fn role_of(domain: &Domain, pred: usize) -> Role
    ensures { result ≡ roles.role_of domain.now pred }
{
    if is_derived(domain, pred) {
        Role::Derived
    } else if is_changed(domain, pred) {
        Role::Fluent
    } else {
        Role::Static
    }
}

/// Whether the predicate is derived.
pub(crate) fn has_derived_role(domain: &Domain, pred: usize) -> bool
    ensures { result ≡ fit.is_derived_role (roles.role_of domain.now pred) }
{
    is_derived(domain, pred)
}

/// Whether this is the role of derived predicates.
fn is_derived_role(role: Role) -> bool
    ensures { result ≡ fit.is_derived_role role }
{
    match role {
        Role::Derived => true,
        Role::Static | Role::Fluent => false,
    }
}

/// Whether this is the role of static predicates.
pub(crate) fn is_static_role(role: Role) -> bool
    ensures { result ≡ fit.is_static_role role }
{
    match role {
        Role::Static => true,
        Role::Fluent | Role::Derived => false,
    }
}

/// Whether the roles are the same.
fn same_role(role: Role, other: Role) -> bool
    ensures { result ≡ tests.same_role role other }
{
    match (role, other) {
        (Role::Static, Role::Static)
        | (Role::Fluent, Role::Fluent)
        | (Role::Derived, Role::Derived) => true,
        _ => false,
    }
}

/// Whether the roles of the first predicates are these.
fn are_right(domain: &Domain, roles: &[Role]) -> bool
    ensures { result ≡ tests.are_right domain.now 0 roles.now }
{
    for (place, role) in roles.iter().enumerate() {
        if !same_role(*role, role_of(domain, place)) {
            return false;
        }
    }
    true
}

/// How many roles are those of derived predicates.
fn count_derived(roles: &[Role]) -> usize
    ensures { result ≡ count_by fit.is_derived_role roles.now }
{
    roles.iter().filter(|role| is_derived_role(**role)).count()
}

/// Whether each predicate has its role, and few are derived.
pub(crate) fn are_fit_roles(domain: &Domain) -> bool
    ensures { result ≡ tests.are_fit_roles domain.now }
{
    let roles = domain.roles.as_slice();
    roles.len() == domain.predicates.len() && are_right(domain, roles) && count_derived(roles) <= 64
}
