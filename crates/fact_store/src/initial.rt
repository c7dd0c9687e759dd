//! What is known at first: the declared objects with their types, the static atoms and the values
//! of functions.
ghost use Rattle.std.specs.Prelude.{◌≡◌, ◌==◌, ◌≤◌, ◌<◌, ◌++◌, ◌∷◌, [], map, filter, length, true, slice_get, option_map, unwrap_or, OnOk, OnErr};
ghost use Rattle.std.specs.List.{flat_map, list_all, list_any};
ghost use Rattle.task_model.specs.Fit.{is_fit_fact, is_fit_value};
ghost use Rattle.task_model.specs.Initial.{type_facts, declared_types, is_static};
ghost use Rattle.task_model.specs.Known.{IsIn, type_fact, with_fact, with_facts, with_values};
ghost use Rattle.fact_store.specs.Growth.{IsBetween};
ghost use Rattle.lemmas.specs.Lists.{AreDistinct, numbers_from};
ghost use Rattle.task_model.specs.Roles.{role_of};

use crate::facts::Facts;
use std::alloc::{AllocError, Global};
use task_model::{Declared, Domain, Fact, Kind, Obj, Role, Row, Valued, supertypes};

/// How many facts say what types the objects have, where no type but `object` has supertypes. Only
/// room rests on it.
pub(crate) fn type_count(objects: &[Declared]) -> usize {
    let mut count = objects.len();
    for declared in objects {
        count = count.saturating_add(declared.sorts.as_slice().len());
    }
    count
}

/// Gives the declared objects their numbers, in a store that has no names.
pub(crate) fn add_names(
    alloc: Global,
    facts: &mut Facts,
    objects: &[Declared],
) -> Result<(), AllocError>
    requires empty { facts.old.known.names ≡ [] }
    requires distinct { AreDistinct (map (λ d. d.name) objects.now) }
    requires few { length objects.now ≤ 8388608 }
    ensures names { OnOk result (facts.new.known.names ≡ map (λ d. d.name) objects.now) }
    ensures facts { OnOk result (facts.new.known.facts ≡ facts.old.known.facts) }
    ensures values { OnOk result (facts.new.known.values ≡ facts.old.known.values) }
{
    for declared in objects {
        let name = declared.name.copy(alloc)?;
        facts.add_name(name)?;
    }
    Ok(())
}

/// That the object has the type. Fails only where memory is wanting, and leaves all as it was then.
fn add_type(alloc: Global, facts: &mut Facts, sort: u32, object: Obj) -> Result<(), AllocError>
    requires { IsIn facts.old.known.names object }
    ensures facts { OnOk result (facts.new.known.facts
        ≡ with_fact facts.old.known.facts (type_fact sort object)) }
    ensures err { OnErr result (facts.new.known.facts ≡ facts.old.known.facts) }
    ensures names { facts.new.known.names ≡ facts.old.known.names }
    ensures values { facts.new.known.values ≡ facts.old.known.values }
{
    let args = Row::new(alloc, &[object])?;
    facts.add_uncovered(Fact {
        kind: Kind::Sort,
        name: sort,
        args,
    })?;
    Ok(())
}

/// That the object has each of these types. Fails only where memory is wanting; then the first of
/// them may be known.
fn add_types(alloc: Global, facts: &mut Facts, sorts: &[u32], object: Obj) -> Result<(), AllocError>
    requires { IsIn facts.old.known.names object }
    ensures facts { OnOk result (facts.new.known.facts
        ≡ with_facts facts.old.known.facts (map (λ s. type_fact s object) sorts.now)) }
    ensures part { OnErr result (IsBetween facts.old.known.facts facts.new.known.facts
        (with_facts facts.old.known.facts (map (λ s. type_fact s object) sorts.now))) }
    ensures names { facts.new.known.names ≡ facts.old.known.names }
    ensures values { facts.new.known.values ≡ facts.old.known.values }
{
    for sort in sorts {
        add_type(alloc, facts, *sort, object)?;
    }
    Ok(())
}

/// Whether `object` is the type or one of its supertypes.
fn has_object(sort: u32, above: &[u32]) -> bool
    ensures { result ≡ list_any (λ s. s == 0) (sort ∷ above.now) }
{
    sort == 0 || above.contains(&0)
}

/// The same as `add_supertypes`, where no table needs to find the facts yet.
fn add_each_type(
    alloc: Global,
    facts: &mut Facts,
    domain: &Domain,
    sort: u32,
    object: Obj,
) -> Result<(), AllocError>
    requires { IsIn facts.old.known.names object }
    ensures facts { OnOk result (facts.new.known.facts
        ≡ with_facts facts.old.known.facts (type_facts domain.now sort object)) }
    ensures part { OnErr result (IsBetween facts.old.known.facts facts.new.known.facts
        (with_facts facts.old.known.facts (type_facts domain.now sort object))) }
    ensures names { facts.new.known.names ≡ facts.old.known.names }
    ensures values { facts.new.known.values ≡ facts.old.known.values }
{
    let above = supertypes(domain, sort);
    add_type(alloc, facts, sort, object)?;
    add_types(alloc, facts, above, object)?;
    if has_object(sort, above) {
        return Ok(());
    }
    add_type(alloc, facts, 0, object)
}

/// Puts behind the facts that the object has the type, with all supertypes and `object`. The object
/// has a name. Fails only where memory is wanting; then the first of these facts may be known, and
/// nothing else has changed.
pub fn add_supertypes(
    alloc: Global,
    facts: &mut Facts,
    domain: &Domain,
    sort: u32,
    object: Obj,
) -> Result<(), AllocError>
    requires { IsIn facts.old.known.names object }
    ensures facts { OnOk result (facts.new.known.facts
        ≡ with_facts facts.old.known.facts (type_facts domain.now sort object)) }
    ensures part { OnErr result (IsBetween facts.old.known.facts facts.new.known.facts
        (with_facts facts.old.known.facts (type_facts domain.now sort object))) }
    ensures names { facts.new.known.names ≡ facts.old.known.names }
    ensures values { facts.new.known.values ≡ facts.old.known.values }
{
    let added = add_each_type(alloc, facts, domain, sort, object);
    facts.cover();
    added
}

/// Whether there is a type among these, and nothing above `object`.
fn is_typed(domain: &Domain, sorts: &[u32]) -> bool
    ensures typed { result ≡ true → 0 < length sorts.now }
    ensures top { result ≡ true → length
        (unwrap_or (option_map (λ s. s.above) (slice_get domain.now.sorts 0)) []) ≡ 0 }
{
    !sorts.is_empty() && supertypes(domain, 0).is_empty()
}

/// The types of a declared object. One with a type has got `object` with that.
fn add_object(
    alloc: Global,
    facts: &mut Facts,
    domain: &Domain,
    declared: &Declared,
    object: Obj,
) -> Result<(), AllocError>
    requires { IsIn facts.old.known.names object }
    ensures facts { OnOk result (facts.new.known.facts
        ≡ with_facts facts.old.known.facts
        (flat_map (λ sort. type_facts domain.now sort object) (declared.now.sorts ++ 0 ∷ []))) }
    ensures names { OnOk result (facts.new.known.names ≡ facts.old.known.names) }
    ensures values { OnOk result (facts.new.known.values ≡ facts.old.known.values) }
{
    for sort in declared.sorts.as_slice() {
        add_each_type(alloc, facts, domain, *sort, object)?;
    }
    if is_typed(domain, declared.sorts.as_slice()) {
        return Ok(());
    }
    add_each_type(alloc, facts, domain, 0, object)
}

/// The types of the declared objects, which are the first of the table of names.
pub(crate) fn add_objects(
    alloc: Global,
    facts: &mut Facts,
    domain: &Domain,
    objects: &[Declared],
) -> Result<(), AllocError>
    requires named { length objects.now ≤ length facts.old.known.names }
    requires few { length objects.now ≤ 8388608 }
    ensures facts { OnOk result (facts.new.known.facts
        ≡ with_facts facts.old.known.facts (declared_types domain.now 0 objects.now)) }
    ensures names { OnOk result (facts.new.known.names ≡ facts.old.known.names) }
    ensures values { OnOk result (facts.new.known.values ≡ facts.old.known.values) }
{
    for (place, declared) in objects.iter().enumerate() {
        add_object(alloc, facts, domain, declared, Obj::new(place as u32))?;
    }
    Ok(())
}

/// What changes the predicate's atoms.
fn role_at(domain: &Domain, pred: u32) -> Role
    requires roles { domain.now.roles
        ≡ map (role_of domain.now) (numbers_from 0 (length domain.now.predicates)) }
    requires place { pred < length domain.now.predicates }
    ensures { result ≡ role_of domain.now pred }
{
    domain.roles.as_slice()[pred as usize]
}

/// Whether the fact is an atom of a static predicate.
fn is_static_fact(domain: &Domain, fact: &Fact) -> bool
    requires roles { domain.now.roles
        ≡ map (role_of domain.now) (numbers_from 0 (length domain.now.predicates)) }
    requires place { fact.now.name < length domain.now.predicates }
    ensures { result ≡ is_static domain.now fact.now }
{
    match fact.kind {
        Kind::Predicate => match role_at(domain, fact.name) {
            Role::Static => true,
            Role::Fluent | Role::Derived => false,
        },
        Kind::Sort => false,
    }
}

/// The atoms of static predicates among these.
pub(crate) fn add_static(
    facts: &mut Facts,
    domain: &Domain,
    init: &[Fact],
) -> Result<(), AllocError>
    requires roles { domain.now.roles
        ≡ map (role_of domain.now) (numbers_from 0 (length domain.now.predicates)) }
    requires fit { list_all (is_fit_fact domain.now (length facts.old.known.names)) init.now
        ≡ true }
    ensures facts { OnOk result (facts.new.known.facts
        ≡ with_facts facts.old.known.facts (filter (is_static domain.now) init.now)) }
    ensures names { OnOk result (facts.new.known.names ≡ facts.old.known.names) }
    ensures values { OnOk result (facts.new.known.values ≡ facts.old.known.values) }
{
    for fact in init {
        if is_static_fact(domain, fact) {
            facts.add_uncovered(fact.copy()?)?;
        }
    }
    Ok(())
}

/// The values of functions.
pub(crate) fn add_values(
    facts: &mut Facts,
    domain: &Domain,
    values: &[Valued],
) -> Result<(), AllocError>
    requires { list_all (is_fit_value domain.now (length facts.old.known.names)) values.now ≡ true }
    ensures values { OnOk result (facts.new.known.values
        ≡ with_values facts.old.known.values values.now) }
    ensures names { OnOk result (facts.new.known.names ≡ facts.old.known.names) }
    ensures facts { OnOk result (facts.new.known.facts ≡ facts.old.known.facts) }
{
    for valued in values {
        facts.add_value(valued.func, valued.args.copy()?, valued.value)?;
    }
    Ok(())
}
