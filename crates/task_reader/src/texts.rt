//! Domains, problems and streams, from bytes.
ghost use Rattle.std.specs.Prelude.{IfOk, IfErr};
ghost use Rattle.task_model.specs.Fit.{IsFitDomain};
ghost use Rattle.problem_reader.specs.Fitness.{IsFitOver};
ghost use Rattle.stream_reader.specs.Fitness.{AreFitOver};
ghost use Rattle.task_reader.specs.Fitness.{HasShortText, IsShort};
ghost use Rattle.task_reader.specs.Refusals.{Refuses};
ghost use Rattle.task_reader.specs.Texts as specs;

use crate::refusal::InputRefusal;
use domain_reader::read_domain;
use problem_reader::read_problem;
use sexpr_text::read_tree;
use std::alloc::Global;
use stream_reader::read_streams;
use task_model::{Domain, Problem, Seq, Stream};

/// The longest text of a task, in bytes: 4 MiB (this project's).
pub const TEXT_BYTES: usize = 4_194_304;

/// The domain of a text.
///
/// The text is one list of this project's profile of PDDL 2.1, with derived predicates (PDDL 2.2)
/// and the total cost (IPC 2008).
///
/// # Errors
///
/// - `At`: the text is no list, and this is its first fault; or it is one, and this is the fault of
///   its form that comes first, or where its form has none, that of its names.
/// - `Memory`: memory ran out, which says nothing of the text.
pub fn domain_in(alloc: Global, bytes: &[u8]) -> Result<Domain, InputRefusal>
    ensures read { IfOk result (specs.SpellsDomain bytes.now) }
    // The domain of a text of at most 4 MiB is fit.
    ensures fit { IfOk result (λ d. IsShort bytes.now → IsFitDomain d) }
    ensures refused { IfErr result (Refuses (specs.RefusesDomain bytes.now)) }
{
    let tree = read_tree(alloc, bytes)?;
    let domain = read_domain(alloc, &tree)?;
    Ok(domain)
}

/// The problem of a text, over this domain, which is one that [`domain_in`] gave.
///
/// The text is one list of this project's profile of PDDL 2.1, with the total cost as the metric
/// (IPC 2008).
///
/// # Errors
///
/// - `At`: the text is no list, and this is its first fault; or it is one, and this is the fault of
///   its form that comes first, or where its form has none, that of its names.
/// - `Memory`: memory ran out, which says nothing of the text.
pub fn problem_in(alloc: Global, bytes: &[u8], domain: &Domain) -> Result<Problem, InputRefusal>
    ensures read { IfOk result (specs.SpellsProblem domain.now bytes.now) }
    // The problem of a text of at most 4 MiB, over a domain of such a text, is fit.
    ensures fit { IfOk result (λ p. HasShortText domain.now → IsShort bytes.now
        → IsFitOver domain.now p) }
    ensures refused { IfErr result (Refuses (specs.RefusesProblem domain.now bytes.now)) }
{
    let tree = read_tree(alloc, bytes)?;
    let problem = read_problem(alloc, &tree, domain)?;
    Ok(problem)
}

/// The streams of a text, over this domain, which is one that [`domain_in`] gave.
///
/// The text is one list of this project's profile of PDDLStream (2020), with cost streams.
///
/// # Errors
///
/// - `At`: the text is no list, and this is its first fault; or it is one, and this is the fault of
///   its form that comes first, or where its form has none, that of its names; a stream that leads
///   to itself is told only where nothing else is wrong.
/// - `Memory`: memory ran out, which says nothing of the text.
pub fn streams_in(alloc: Global, bytes: &[u8], domain: &Domain) -> Result<Seq<Stream>, InputRefusal>
    ensures read { IfOk result (specs.SpellsStreams domain.now bytes.now) }
    // The streams of a text of at most 4 MiB, over a domain of such a text, are fit.
    ensures fit { IfOk result (λ ss. HasShortText domain.now → IsShort bytes.now
        → AreFitOver domain.now ss) }
    ensures refused { IfErr result (Refuses (specs.RefusesStreams domain.now bytes.now)) }
{
    let tree = read_tree(alloc, bytes)?;
    let streams = read_streams(alloc, domain, &tree)?;
    Ok(streams)
}
