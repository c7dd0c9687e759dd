//! The task of a row.
ghost use Rattle.std.specs.Prelude.{IfOk};
ghost use Rattle.task_model.specs.Fit.{IsFit};

use crate::fault::Fault;
use fit_check::is_fit;
use std::alloc::Global;
use task_model::{Domain, Problem, Seq, Stream, Task};
use task_reader::{domain_in, problem_in, streams_in};
use test_rows::Part;

/// The texts of a task.
#[derive(Clone, Copy)]
pub(crate) struct Given<'a> {
    domain: &'a [u8],
    problem: &'a [u8],
    streams: &'a [u8],
}

/// The domain of this text.
fn domain_of(alloc: Global, text: &[u8]) -> Result<Box<Domain>, Fault> {
    match domain_in(alloc, text) {
        Ok(domain) => Ok(Box::new(alloc, domain)?),
        Err(_) => Err(Fault::NoTask),
    }
}

/// The problem of this text.
fn problem_of(alloc: Global, text: &[u8], domain: &Domain) -> Result<Box<Problem>, Fault> {
    match problem_in(alloc, text, domain) {
        Ok(problem) => Ok(Box::new(alloc, problem)?),
        Err(_) => Err(Fault::NoTask),
    }
}

/// The streams of this text.
fn streams_of(alloc: Global, text: &[u8], domain: &Domain) -> Result<Box<Seq<Stream>>, Fault> {
    match streams_in(alloc, text, domain) {
        Ok(streams) => Ok(Box::new(alloc, streams)?),
        Err(_) => Err(Fault::NoTask),
    }
}

impl<'a> Given<'a> {
    /// No texts.
    pub(crate) fn new() -> Given<'a> {
        Given {
            domain: b"",
            problem: b"",
            streams: b"",
        }
    }

    /// The same with what these parts say.
    pub(crate) fn with(self, parts: &'a [Part]) -> Given<'a> {
        let mut given = self;
        for part in parts {
            let text = part.text.as_slice();
            match part.key.as_str() {
                "domain" => given.domain = text,
                "problem" => given.problem = text,
                "streams" => given.streams = text,
                _ => {}
            }
        }
        given
    }

    /// The task that the texts spell.
    pub(crate) fn task(&self, alloc: Global) -> Result<Box<Task>, Fault> {
        let domain = domain_of(alloc, self.domain)?;
        let problem = problem_of(alloc, self.problem, &domain)?;
        let streams = streams_of(alloc, self.streams, &domain)?;
        let task = Task {
            domain: Box::into_inner(domain),
            problem: Box::into_inner(problem),
            streams: Box::into_inner(streams),
        };
        Ok(Box::new(alloc, task)?)
    }

    /// The task that the texts spell, which is fit.
    pub(crate) fn fit_task(&self, alloc: Global) -> Result<Box<Task>, Fault>
        ensures { IfOk result (λ task. IsFit task.value) }
    {
        let task = self.task(alloc)?;
        if is_fit(alloc, &task)? {
            Ok(task)
        } else {
            Err(Fault::NoTask)
        }
    }
}
