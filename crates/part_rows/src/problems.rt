//! What problems and stream files hold.
use crate::domains::write_declared;
use crate::out::Out;
use crate::refusals::write_refusal;
use crate::shown::{write_applied, write_formula, write_name, write_numbers, write_patterns};
use std::alloc::Global;
use task_model::{Domain, Fact, Obj, Problem, Stream, Valued};
use task_reader::{domain_in, problem_in, streams_in};

/// Writes a predicate or a function and objects, all by their places.
fn write_ground(out: &mut Out, name: u32, objects: &[Obj]) {
    out.put(" [");
    out.print(name);
    for object in objects {
        out.put(" ");
        out.print(object.place());
    }
}

/// Writes facts as `[PRED OBJECTS]`.
fn write_facts(out: &mut Out, facts: &[Fact]) {
    for fact in facts {
        write_ground(out, fact.name, fact.args.as_slice());
        out.put("]");
    }
}

/// Writes values as `[FUNCTION OBJECTS = VALUE]`.
fn write_values(out: &mut Out, values: &[Valued]) {
    for valued in values {
        write_ground(out, valued.func, valued.args.as_slice());
        out.put(" = ");
        out.print(valued.value);
        out.put("]");
    }
}

/// Writes all that a problem holds.
fn write_problem(out: &mut Out, problem: &Problem) {
    out.put("problem");
    write_name(out, &problem.name);
    write_declared(out, "\nobject", problem.objects.as_slice());
    out.put("\ninit");
    write_facts(out, problem.init.as_slice());
    out.put("\nvalues");
    write_values(out, problem.values.as_slice());
    out.put("\ngoal");
    write_formula(out, &problem.goal, 9);
    out.put("\nmetric ");
    out.print(problem.metric);
}

/// Writes how many objects, facts and values a problem has.
fn write_counts(out: &mut Out, problem: &Problem) {
    out.print(problem.objects.len());
    out.put(" objects, ");
    out.print(problem.init.len());
    out.put(" facts, ");
    out.print(problem.values.len());
    out.put(" values");
}

/// Writes the problem of a text over a domain, or its counts; or its fault.
fn write_problem_over(alloc: Global, out: &mut Out, kind: &[u8], domain: &Domain, text: &[u8]) {
    match problem_in(alloc, text, domain) {
        Ok(problem) => match kind {
            b"problem-counts" => write_counts(out, &problem),
            _ => write_problem(out, &problem),
        },
        Err(refusal) => write_refusal(out, refusal),
    }
}

/// Writes all that a stream holds.
fn write_stream(out: &mut Out, stream: &Stream) {
    out.put("\nstream");
    write_name(out, &stream.name);
    out.put(":");
    write_numbers(out, stream.inputs.as_slice());
    out.put(" ->");
    write_numbers(out, stream.outputs.as_slice());
    out.put(" if");
    write_patterns(out, stream.domain.as_slice());
    out.put(" then");
    write_patterns(out, stream.certified.as_slice());
    if let Some(worth) = &stream.worth {
        out.put(" value");
        write_applied(out, worth.func, worth.args.as_slice());
    }
}

/// Writes how many streams there are, and the first and the last of them or each.
fn write_streams(out: &mut Out, kind: &[u8], streams: &[Stream]) {
    out.print(streams.len());
    out.put(" streams");
    match (kind, streams) {
        (b"stream-ends", [first, .., last]) => {
            write_stream(out, first);
            write_stream(out, last);
        }
        _ => {
            for stream in streams {
                write_stream(out, stream);
            }
        }
    }
}

/// Writes the streams of a text over a domain, or its fault.
fn write_streams_over(alloc: Global, out: &mut Out, kind: &[u8], domain: &Domain, text: &[u8]) {
    match streams_in(alloc, text, domain) {
        Ok(streams) => write_streams(out, kind, streams.as_slice()),
        Err(refusal) => write_refusal(out, refusal),
    }
}

/// Writes the problem or the streams of a text over the domain of another, as the row's kind says;
/// or the fault.
pub(crate) fn write_read(alloc: Global, out: &mut Out, kind: &[u8], given: &[u8], text: &[u8]) {
    match domain_in(alloc, given) {
        Ok(domain) => match kind {
            b"streams" | b"stream-ends" => write_streams_over(alloc, out, kind, &domain, text),
            _ => write_problem_over(alloc, out, kind, &domain, text),
        },
        Err(refusal) => write_refusal(out, refusal),
    }
}
