//! What domains hold.
use crate::out::Out;
use crate::refusals::write_refusal;
use crate::shown::{write_applied, write_formula, write_name, write_numbers, write_patterns};
use std::alloc::Global;
use task_model::{Action, CostTerm, Declared, Derived, Domain, Role, Signature, Sort};
use task_reader::domain_in;

/// Writes types, each with those above it.
fn write_sorts(out: &mut Out, sorts: &[Sort]) {
    for sort in sorts {
        out.put("\nsort");
        write_name(out, &sort.name);
        write_numbers(out, sort.above.as_slice());
    }
}

/// Writes predicates or functions, with the number of their arguments.
fn write_signatures(out: &mut Out, word: &str, found: &[Signature]) {
    for signature in found {
        out.put(word);
        write_name(out, &signature.name);
        out.put(" ");
        out.print(signature.arity);
    }
}

/// Writes constants or objects, with their types.
pub(crate) fn write_declared(out: &mut Out, word: &str, found: &[Declared]) {
    for declared in found {
        out.put(word);
        write_name(out, &declared.name);
        write_numbers(out, declared.sorts.as_slice());
    }
}

fn write_rules(out: &mut Out, rules: &[Derived]) {
    for rule in rules {
        out.put("\nderived ");
        out.print(rule.pred);
        out.put(":");
        write_numbers(out, rule.params.as_slice());
        write_formula(out, &rule.body, 9);
    }
}

fn write_cost(out: &mut Out, cost: &CostTerm) {
    match cost {
        CostTerm::Number(number) => {
            out.put(" ");
            out.print(*number);
        }
        CostTerm::Value { func, args } => write_applied(out, *func, args.as_slice()),
    }
}

fn write_action(out: &mut Out, action: &Action) {
    out.put("\naction");
    write_name(out, &action.name);
    out.put(":");
    write_numbers(out, action.params.as_slice());
    write_formula(out, &action.condition, 9);
    out.put(" adds");
    write_patterns(out, action.adds.as_slice());
    out.put(" deletes");
    write_patterns(out, action.deletes.as_slice());
    out.put(" costs");
    for cost in action.costs.as_slice() {
        write_cost(out, cost);
    }
}

fn word_of(role: &Role) -> &'static str {
    match role {
        Role::Static => " static",
        Role::Fluent => " fluent",
        Role::Derived => " derived",
    }
}

/// Writes all that a domain holds.
fn write_domain(out: &mut Out, domain: &Domain) {
    out.put("domain");
    write_name(out, &domain.name);
    write_sorts(out, domain.sorts.as_slice());
    write_signatures(out, "\npredicate", domain.predicates.as_slice());
    write_signatures(out, "\nfunction", domain.functions.as_slice());
    write_declared(out, "\nconstant", domain.constants.as_slice());
    write_rules(out, domain.derived.as_slice());
    for action in domain.actions.as_slice() {
        write_action(out, action);
    }
    out.put("\nroles");
    for role in domain.roles.as_slice() {
        out.put(word_of(role));
    }
}

/// How many of these roles are fluent.
fn count_fluent(roles: &[Role]) -> usize {
    let mut count: usize = 0;
    for role in roles {
        if *role == Role::Fluent {
            count = count.saturating_add(1);
        }
    }
    count
}

/// Writes how many predicates, actions and roles a domain has, its first role, and how many are
/// fluent.
fn write_counts(out: &mut Out, domain: &Domain) {
    out.print(domain.predicates.len());
    out.put(" predicates, ");
    out.print(domain.actions.len());
    out.put(" actions, ");
    out.print(domain.roles.len());
    out.put(" roles:");
    if let [first, ..] = domain.roles.as_slice() {
        out.put(word_of(first));
    }
    out.put(" first, ");
    out.print(count_fluent(domain.roles.as_slice()));
    out.put(" fluent");
}

/// Writes numbers, a row of them that go up by one as the first, `..` and the last.
fn write_rising(out: &mut Out, numbers: &[u32]) {
    for (place, number) in numbers.iter().enumerate() {
        let follows = place > 0 && numbers[place - 1].wrapping_add(1) == *number;
        let leads = numbers.get(place + 1) == Some(&number.wrapping_add(1));
        if !(follows && leads) {
            out.put(if follows { ".." } else { " " });
            out.print(*number);
        }
    }
}

/// Writes a type and those above it.
fn write_above(out: &mut Out, sort: &Sort) {
    out.put("\nsort");
    write_name(out, &sort.name);
    write_rising(out, sort.above.as_slice());
}

/// Writes how many types there are, and what is above the second, the last but one and the last.
fn write_ends(out: &mut Out, sorts: &[Sort]) {
    out.print(sorts.len());
    out.put(" types");
    if let [_, second, .., third, last] = sorts {
        write_above(out, second);
        write_above(out, third);
        write_above(out, last);
    }
}

/// Writes the domain of a text, its counts or its types, as the row's kind says; or its fault.
pub(crate) fn write_read(alloc: Global, out: &mut Out, kind: &[u8], text: &[u8]) {
    match domain_in(alloc, text) {
        Ok(domain) => match kind {
            b"domain-counts" => write_counts(out, &domain),
            b"types" => write_ends(out, domain.sorts.as_slice()),
            _ => write_domain(out, &domain),
        },
        Err(refusal) => write_refusal(out, refusal),
    }
}
