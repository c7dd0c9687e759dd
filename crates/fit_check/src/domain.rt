//! Domains.
ghost use Rattle.std.specs.Prelude.{◌≡◌, not, length, nat_le};
ghost use Rattle.std.specs.List.{list_all};
ghost use Rattle.task_model.specs.Fit as fit;
ghost use Rattle.task_model.specs.Roles as roles;
ghost use Rattle.fit_check.specs.Tests as tests;

use crate::conditions::{Scope, has_arity, is_fit_application, is_fit_condition};
use crate::lists::{are_places, is_short};
use crate::names::are_named;
use crate::roles::{are_fit_roles, has_derived_role};
use crate::slots::Slots;
use crate::sorts::are_fit_sorts;
use task_model::{
    Action, CostTerm, Declared, Derived, Domain, LARGEST_NUMBER, Pattern, SLOTS, Signature, is_name,
};

/// Whether each takes at most eight arguments.
fn have_fit_arities(signatures: &[Signature]) -> bool
    ensures { result ≡ list_all (λ s. nat_le s.arity 8) signatures.now }
{
    signatures.iter().all(|signature| signature.arity <= 8)
}

/// Whether these may be a domain's predicates or functions.
fn are_fit_signatures(signatures: &[Signature]) -> bool
    ensures { result ≡ tests.are_fit_signatures signatures.now }
{
    is_short(signatures) && have_fit_arities(signatures) && are_named(signatures)
}

/// Whether the objects have types of the domain.
fn have_types(domain: &Domain, objects: &[Declared]) -> bool
    ensures { result ≡ list_all (λ d. fit.are_places (length domain.now.sorts) d.sorts)
        objects.now }
{
    let size = domain.sorts.len();
    objects
        .iter()
        .all(|declared| are_places(size, declared.sorts.as_slice()))
}

/// Whether these may be constants or objects.
pub(crate) fn are_fit_objects(domain: &Domain, objects: &[Declared]) -> bool
    ensures { result ≡ tests.are_fit_objects domain.now objects.now }
{
    is_short(objects) && have_types(domain, objects) && are_named(objects)
}

/// Whether these may be the types of parameters.
fn are_fit_params(domain: &Domain, params: &[u32]) -> bool
    ensures { result ≡ fit.are_fit_params domain.now params.now }
{
    params.len() <= SLOTS && are_places(domain.sorts.len(), params)
}

/// Where conditions of the domain stand.
fn scope_of(domain: &Domain) -> Scope<'_>
    ensures domain { result.domain.now ≡ domain.now }
    ensures objects { result.objects ≡ length domain.now.constants }
{
    Scope {
        domain,
        objects: domain.constants.len(),
    }
}

/// Whether this may be an item.
fn is_fit_item(domain: &Domain, item: &Derived) -> bool
    ensures { result ≡ fit.is_fit_item domain.now item.now }
{
    let params = item.params.as_slice();
    if !are_fit_params(domain, params) {
        return false;
    }
    has_arity(domain.predicates.as_slice(), item.pred, params.len())
        && is_fit_condition(scope_of(domain), &Slots::first(params.len()), &item.body)
}

/// Whether each may be an item.
fn may_be_items(domain: &Domain, items: &[Derived]) -> bool
    ensures { result ≡ list_all (fit.is_fit_item domain.now) items.now }
{
    items.iter().all(|item| is_fit_item(domain, item))
}

/// Whether these may be the domain's items.
fn are_fit_items(domain: &Domain) -> bool
    ensures { result ≡ tests.are_fit_items domain.now }
{
    let items = domain.derived.as_slice();
    is_short(items) && may_be_items(domain, items)
}

/// Whether the atom's predicate takes its arguments.
fn is_fit_pattern(domain: &Domain, slots: &Slots, pattern: &Pattern) -> bool
    ensures { result ≡ fit.is_fit_pattern domain.now (length domain.now.constants) slots.now
        pattern.now }
{
    is_fit_application(
        domain.predicates.as_slice(),
        domain.constants.len(),
        slots,
        pattern.pred,
        pattern.args.as_slice(),
    )
}

/// Whether each is so.
fn may_be_patterns(domain: &Domain, slots: &Slots, patterns: &[Pattern]) -> bool
    ensures { result ≡ list_all (fit.is_fit_pattern domain.now (length domain.now.constants)
        slots.now) patterns.now }
{
    patterns
        .iter()
        .all(|pattern| is_fit_pattern(domain, slots, pattern))
}

/// Whether each is so, and there aren't too many.
pub(crate) fn are_fit_patterns(domain: &Domain, slots: &Slots, patterns: &[Pattern]) -> bool
    ensures { result ≡ fit.are_fit_patterns domain.now (length domain.now.constants) slots.now
        patterns.now }
{
    is_short(patterns) && may_be_patterns(domain, slots, patterns)
}

/// Whether none of these is an atom of a derived predicate.
fn are_underived(domain: &Domain, patterns: &[Pattern]) -> bool
    ensures { result ≡ list_all (λ p. not (fit.is_derived_role (roles.role_of domain.now p.pred)))
        patterns.now }
{
    patterns
        .iter()
        .all(|pattern| !has_derived_role(domain, pattern.pred as usize))
}

/// Whether these may be the effects of an action.
fn are_fit_effects(domain: &Domain, slots: &Slots, patterns: &[Pattern]) -> bool
    ensures { result ≡ fit.are_fit_effects domain.now slots.now patterns.now }
{
    are_fit_patterns(domain, slots, patterns) && are_underived(domain, patterns)
}

/// Whether this may be a term of an action's cost.
fn is_fit_cost(domain: &Domain, slots: &Slots, cost: &CostTerm) -> bool
    ensures { result ≡ fit.is_fit_cost domain.now slots.now cost.now }
{
    match cost {
        CostTerm::Number(number) => *number <= LARGEST_NUMBER,
        CostTerm::Value { func, args } => is_fit_application(
            domain.functions.as_slice(),
            domain.constants.len(),
            slots,
            *func,
            args.as_slice(),
        ),
    }
}

/// Whether all terms are so.
fn are_fit_costs(domain: &Domain, slots: &Slots, costs: &[CostTerm]) -> bool
    ensures { result ≡ list_all (fit.is_fit_cost domain.now slots.now) costs.now }
{
    costs.iter().all(|cost| is_fit_cost(domain, slots, cost))
}

/// Whether this may be an action.
fn is_fit_action(domain: &Domain, action: &Action) -> bool
    ensures { result ≡ fit.is_fit_action domain.now action.now }
{
    let params = action.params.as_slice();
    if !are_fit_params(domain, params) {
        return false;
    }
    let slots = Slots::first(params.len());
    is_fit_condition(scope_of(domain), &slots, &action.condition)
        && are_fit_effects(domain, &slots, action.adds.as_slice())
        && are_fit_effects(domain, &slots, action.deletes.as_slice())
        && action.costs.len() <= 262_144
        && are_fit_costs(domain, &slots, action.costs.as_slice())
}

/// Whether each may be an action.
fn may_be_actions(domain: &Domain, actions: &[Action]) -> bool
    ensures { result ≡ list_all (fit.is_fit_action domain.now) actions.now }
{
    actions.iter().all(|action| is_fit_action(domain, action))
}

/// Whether these may be the domain's actions.
fn are_fit_actions(domain: &Domain) -> bool
    ensures { result ≡ tests.are_fit_actions domain.now }
{
    let actions = domain.actions.as_slice();
    is_short(actions) && may_be_actions(domain, actions) && are_named(actions)
}

/// Whether the domain's name, types, predicates, functions and constants are fit.
fn have_fit_lists(domain: &Domain) -> bool
    ensures { result ≡ tests.have_fit_lists domain.now }
{
    is_name(domain.name.bytes())
        && are_fit_sorts(domain.sorts.as_slice())
        && are_fit_signatures(domain.predicates.as_slice())
        && are_fit_signatures(domain.functions.as_slice())
        && are_fit_objects(domain, domain.constants.as_slice())
}

/// Whether the domain is fit, apart from derived predicates that rest on themselves.
pub(crate) fn is_fit_domain(domain: &Domain) -> bool
    ensures { result ≡ tests.is_fit_domain domain.now }
{
    have_fit_lists(domain)
        && are_fit_items(domain)
        && are_fit_roles(domain)
        && are_fit_actions(domain)
}
