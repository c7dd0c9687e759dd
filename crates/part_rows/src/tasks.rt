//! Tasks of three texts.
ghost use Rattle.std.specs.Prelude.{◌≡◌, IfOk};

use crate::out::Out;
use crate::refusals::write_refusal;
use crate::word::{first_word, number};
use fit_check::is_fit;
use form_reader::InputKind;
use std::alloc::Global;
use task_model::{Domain, Problem, Seq, Stream, Task};
use task_reader::{FaultKind, InputRefusal, domain_in, problem_in, streams_in};

/// Writes what is printed of a refusal for a cycle of types at a place, or for want of memory.
pub(crate) fn write_shown(out: &mut Out, words: &[u8]) {
    let (name, place) = first_word(words);
    out.print(match name {
        b"type-cycle" => InputRefusal::At {
            kind: FaultKind::Input(InputKind::TypeCycle),
            place: number(place),
        },
        _ => InputRefusal::Memory,
    });
}

/// The value in a box.
fn boxed<T: Drop>(alloc: Global, value: T) -> Result<Box<T>, InputRefusal>
    ensures { IfOk result (λ found. found.value ≡ value) }
{
    match Box::new(alloc, value) {
        Ok(found) => Ok(found),
        Err(_) => Err(InputRefusal::Memory),
    }
}

/// The domain of a text.
fn domain_of(alloc: Global, text: &[u8]) -> Result<Box<Domain>, InputRefusal> {
    let domain = domain_in(alloc, text)?;
    boxed(alloc, domain)
}

/// The problem of a text.
fn problem_of(alloc: Global, text: &[u8], domain: &Domain) -> Result<Box<Problem>, InputRefusal> {
    let problem = problem_in(alloc, text, domain)?;
    boxed(alloc, problem)
}

/// The streams of a text.
fn streams_of(
    alloc: Global,
    text: &[u8],
    domain: &Domain,
) -> Result<Box<Seq<Stream>>, InputRefusal> {
    let streams = streams_in(alloc, text, domain)?;
    boxed(alloc, streams)
}

/// The task of the texts of a domain, a problem and streams.
fn task_of(
    alloc: Global,
    domain: &[u8],
    problem: &[u8],
    streams: &[u8],
) -> Result<Box<Task>, InputRefusal> {
    let domain = domain_of(alloc, domain)?;
    let problem = problem_of(alloc, problem, &domain)?;
    let streams = streams_of(alloc, streams, &domain)?;
    let task = Task {
        domain: Box::into_inner(domain),
        problem: Box::into_inner(problem),
        streams: Box::into_inner(streams),
    };
    boxed(alloc, task)
}

/// The task of these streams, with no other text of its own.
pub(crate) fn bare_task(alloc: Global, streams: &[u8]) -> Result<Box<Task>, InputRefusal> {
    let domain = b"(define (domain d))";
    let problem = b"(define (problem p) (:domain d) (:goal ()))";
    task_of(alloc, domain, problem, streams)
}

/// Writes how many types, predicates, functions, derived rules and actions a task has, and how many
/// objects, facts, values and streams.
fn write_counts(out: &mut Out, task: &Task) {
    let Task {
        domain,
        problem,
        streams,
    } = task;
    let counts = [
        domain.sorts.len(),
        domain.predicates.len(),
        domain.functions.len(),
        domain.derived.len(),
        domain.actions.len(),
        problem.objects.len(),
        problem.init.len(),
        problem.values.len(),
        streams.len(),
    ];
    for count in counts {
        out.print(count);
        out.put(" ");
    }
}

/// Writes that, and whether the task is fit.
fn write_task(alloc: Global, out: &mut Out, task: &Task) {
    write_counts(out, task);
    match is_fit(alloc, task) {
        Ok(true) => out.put("fit"),
        Ok(false) => out.put("unfit"),
        Err(_) => out.lose(),
    }
}

/// Writes that of the task of three texts.
pub(crate) fn write_counted(
    alloc: Global,
    out: &mut Out,
    domain: &[u8],
    problem: &[u8],
    streams: &[u8],
) {
    match task_of(alloc, domain, problem, streams) {
        Ok(task) => write_task(alloc, out, &task),
        Err(refusal) => write_refusal(out, refusal),
    }
}
