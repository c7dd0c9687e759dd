//! Problems.
ghost use Rattle.std.specs.Prelude.{◌≡◌, ◌<◌, ◌==◌, [], length, nat_lt};
ghost use Rattle.std.specs.List.{list_any, list_all};
ghost use Rattle.task_model.specs.Fit as fit;
ghost use Rattle.fit_check.specs.Tests as tests;

use crate::conditions::{Scope, has_arity, is_fit_condition};
use crate::domain::are_fit_objects;
use crate::lists::is_short;
use crate::names::same_name;
use crate::roles::has_derived_role;
use crate::slots::Slots;
use task_model::{Declared, Domain, Fact, Kind, LARGEST_NUMBER, Obj, Task, Valued, is_name};

/// Whether the first objects are these, by their names.
fn are_first(constants: &[Declared], objects: &[Declared]) -> bool
    ensures { result ≡ tests.are_first constants.now objects.now }
{
    if constants.len() > objects.len() {
        return false;
    }
    for (place, constant) in constants.iter().enumerate() {
        if !same_name(&constant.name, &objects[place].name) {
            return false;
        }
    }
    true
}

/// Whether each is one of the first objects, so many.
fn are_objects(size: usize, args: &[Obj]) -> bool
    ensures { result ≡ list_all (λ o. nat_lt o size) args.now }
{
    args.iter().all(|object| (object.place() as usize) < size)
}

/// Whether the fact is an atom of a predicate.
fn is_atom(fact: &Fact) -> bool
    ensures { result ≡ fit.is_predicate fact.now.kind }
{
    match fact.kind {
        Kind::Predicate => true,
        Kind::Sort => false,
    }
}

/// Whether this may be a fact of `:init`.
fn is_fit_fact(domain: &Domain, size: usize, fact: &Fact) -> bool
    ensures { result ≡ fit.is_fit_fact domain.now size fact.now }
{
    let args = fact.args.as_slice();
    is_atom(fact)
        && has_arity(domain.predicates.as_slice(), fact.name, args.len())
        && are_objects(size, args)
        && !has_derived_role(domain, fact.name as usize)
}

/// Whether each may be a fact of `:init`.
fn are_fit_facts(domain: &Domain, size: usize, facts: &[Fact]) -> bool
    ensures { result ≡ list_all (fit.is_fit_fact domain.now size) facts.now }
{
    facts.iter().all(|fact| is_fit_fact(domain, size, fact))
}

/// Whether the atoms of `:init` are fit.
fn has_fit_facts(task: &Task) -> bool
    ensures { result ≡ tests.has_fit_facts task.now }
{
    let facts = task.problem.init.as_slice();
    is_short(facts) && are_fit_facts(&task.domain, task.problem.objects.len(), facts)
}

/// Whether this may be a value of a function.
fn is_fit_value(domain: &Domain, size: usize, valued: &Valued) -> bool
    ensures { result ≡ fit.is_fit_value domain.now size valued.now }
{
    let args = valued.args.as_slice();
    has_arity(domain.functions.as_slice(), valued.func, args.len())
        && are_objects(size, args)
        && valued.value <= LARGEST_NUMBER
}

/// Whether each may be a value of a function.
fn are_fit_values(domain: &Domain, size: usize, values: &[Valued]) -> bool
    ensures { result ≡ list_all (fit.is_fit_value domain.now size) values.now }
{
    values
        .iter()
        .all(|valued| is_fit_value(domain, size, valued))
}

/// Whether these are different values of one term.
fn differ(valued: &Valued, other: &Valued) -> bool
    ensures { result ≡ tests.differ valued.now other.now }
{
    valued.func == other.func
        && valued.args.as_slice() == other.args.as_slice()
        && valued.value != other.value
}

/// Whether one of these is another value of the term.
fn is_other(valued: &Valued, values: &[Valued]) -> bool
    ensures { result ≡ list_any (tests.differ valued.now) values.now }
{
    values.iter().any(|other| differ(valued, other))
}

/// Whether no term has two values.
fn have_one_value(values: &[Valued]) -> bool
    ensures { result ≡ tests.have_one_value values.now }
{
    for (place, valued) in values.iter().enumerate() {
        if is_other(valued, &values[place + 1..]) {
            return false;
        }
    }
    true
}

/// Whether the values of functions are fit.
fn has_fit_values(task: &Task) -> bool
    ensures { result ≡ tests.has_fit_values task.now }
{
    let values = task.problem.values.as_slice();
    is_short(values)
        && are_fit_values(&task.domain, task.problem.objects.len(), values)
        && have_one_value(values)
}

/// Whether the goal is fit.
fn has_fit_goal(task: &Task) -> bool
    ensures { result ≡ fit.is_fit_condition task.now.domain (length task.now.problem.objects) []
        task.now.problem.goal }
{
    let scope = Scope {
        domain: &task.domain,
        objects: task.problem.objects.len(),
    };
    is_fit_condition(scope, &Slots::first(0), &task.problem.goal)
}

/// Whether the problem is fit.
pub(crate) fn is_fit_problem(task: &Task) -> bool
    ensures { result ≡ tests.is_fit_problem task.now }
{
    is_name(task.problem.name.bytes())
        && are_fit_objects(&task.domain, task.problem.objects.as_slice())
        && are_first(
            task.domain.constants.as_slice(),
            task.problem.objects.as_slice(),
        )
        && has_fit_facts(task)
        && has_fit_values(task)
        && has_fit_goal(task)
}
