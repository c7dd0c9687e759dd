//! Tasks from their texts.
ghost use Rattle.std.specs.Prelude.{IfOk};
ghost use Rattle.problem_reader.specs.Fitness.{IsFitOver};
ghost use Rattle.stream_reader.specs.Fitness.{AreFitOver};
ghost use Rattle.task_model.specs.Fit.{IsFit, IsFitDomain};
ghost use Rattle.task_reader.specs.Fitness.{HasShortText, IsShort};

use std::alloc::{AllocError, Global};
use std::test::Fail;
use task_model::{Domain, Problem, Seq, Stream, Task};
use task_reader::{TEXT_BYTES, domain_in, problem_in, streams_in};

/// The texts of a task.
#[derive(Clone, Copy)]
pub struct Texts<'a> {
    pub domain: &'a str,
    pub problem: &'a str,
    pub streams: &'a str,
}

/// The bytes of a text of at most 4 MiB. Of a longer one there is no task here.
fn short_bytes<'a>(text: &'a str) -> Result<&'a [u8], AllocError>
    ensures { IfOk result (λ bytes. IsShort bytes.now) }
{
    let bytes = text.as_bytes();
    if bytes.len() > TEXT_BYTES {
        return Err(AllocError);
    }
    Ok(bytes)
}

/// The domain of this text.
fn domain_of(alloc: Global, text: &str) -> Result<Box<Domain>, Fail>
    ensures fit { IfOk result (λ domain. IsFitDomain domain.value) }
    ensures text { IfOk result (λ domain. HasShortText domain.value) }
{
    let bytes = short_bytes(text)?;
    let domain = domain_in(alloc, bytes)?;
    Ok(Box::new(alloc, domain)?)
}

/// The problem of this text.
fn problem_of(alloc: Global, text: &str, domain: &Domain) -> Result<Box<Problem>, Fail>
    requires { HasShortText domain.now }
    ensures { IfOk result (λ problem. IsFitOver domain.now problem.value) }
{
    let bytes = short_bytes(text)?;
    let problem = problem_in(alloc, bytes, domain)?;
    Ok(Box::new(alloc, problem)?)
}

/// The streams of this text.
fn streams_of(alloc: Global, text: &str, domain: &Domain) -> Result<Box<Seq<Stream>>, Fail>
    requires { HasShortText domain.now }
    ensures { IfOk result (λ streams. AreFitOver domain.now streams.value) }
{
    let bytes = short_bytes(text)?;
    let streams = streams_in(alloc, bytes, domain)?;
    Ok(Box::new(alloc, streams)?)
}

/// The task that these texts spell, which is fit.
///
/// # Errors
///
/// A text is refused or has more than 4 MiB, or memory ran out.
pub fn task(alloc: Global, texts: &Texts<'_>) -> Result<Box<Task>, Fail>
    ensures { IfOk result (λ task. IsFit task.value) }
{
    let domain = domain_of(alloc, texts.domain)?;
    let problem = problem_of(alloc, texts.problem, &domain)?;
    let streams = streams_of(alloc, texts.streams, &domain)?;
    let task = Task {
        domain: Box::into_inner(domain),
        problem: Box::into_inner(problem),
        streams: Box::into_inner(streams),
    };
    Ok(Box::new(alloc, task)?)
}
