//! Tasks that are fit, and tasks that just aren't: fit ones with a part that no text spells.
use crate::fault::Fault;
use crate::words::objects_of;
use fit_check::is_fit;
use std::alloc::{AllocError, Global};
use std::fmt::Write;
use task_model::{Derived, Formula, FormulaNode, Name, Row, Seq, Stream, Task, Valued};
use test_rows::{Part, number};

fn boxed(alloc: Global, node: FormulaNode) -> Result<Box<Formula>, AllocError> {
    Ok(Box::new(alloc, Formula { node })?)
}

/// The condition that is always true, with so many negations around it.
fn negated(alloc: Global, count: u32) -> Result<Box<Formula>, AllocError> {
    let mut formula = boxed(alloc, FormulaNode::All(Vec::new(alloc)))?;
    for _ in 0..count {
        formula = boxed(alloc, FormulaNode::Not(formula))?;
    }
    Ok(formula)
}

/// The atom of the first predicate.
fn first_atom(alloc: Global) -> Result<Box<Formula>, AllocError> {
    let args = Seq::from_vec(Vec::new(alloc));
    boxed(alloc, FormulaNode::Atom { pred: 0, args })
}

/// Gives the first predicate this body, and no other one any.
fn give_body(alloc: Global, task: &mut Task, body: Box<Formula>) -> Result<(), AllocError> {
    let mut items = Vec::new(alloc);
    items.push(Derived {
        pred: 0,
        params: Seq::from_vec(Vec::new(alloc)),
        body: Box::into_inner(body),
    })?;
    task.domain.derived = Seq::from_vec(items);
    Ok(())
}

/// Gives the task one stream, of an object, with outputs of these types.
fn give_stream(alloc: Global, task: &mut Task, line: &[u8]) -> Result<(), AllocError> {
    let mut outputs = Vec::new(alloc);
    let sorts: Row = objects_of(alloc, line)?;
    for sort in sorts.as_slice() {
        outputs.push(sort.place())?;
    }
    let mut streams = Vec::new(alloc);
    streams.push(Stream {
        name: Name::from_slice(alloc, b"s")?,
        inputs: Seq::from_vec(vec![in alloc; 0u32]?),
        outputs: Seq::from_vec(outputs),
        domain: Seq::from_vec(Vec::new(alloc)),
        certified: Seq::from_vec(Vec::new(alloc)),
        worth: None,
    })?;
    task.streams = Seq::from_vec(streams);
    Ok(())
}

/// Gives the first function, which has no arguments, these values.
fn give_values(alloc: Global, task: &mut Task, line: &[u8]) -> Result<(), AllocError> {
    let mut values = Vec::new(alloc);
    for word in line.split(|byte| *byte == b' ') {
        values.push(Valued {
            func: 0,
            args: Row::empty(alloc),
            value: number(word),
        })?;
    }
    task.problem.values = Seq::from_vec(values);
    Ok(())
}

/// Gives the task what a part of a row says.
fn give(alloc: Global, task: &mut Task, part: &Part) -> Result<(), Fault> {
    let line = part.rest.as_slice();
    match part.key.as_str() {
        "negations" => give_body(alloc, task, negated(alloc, number(line))?)?,
        "itself" => give_body(alloc, task, first_atom(alloc)?)?,
        "outputs" => give_stream(alloc, task, line)?,
        "values" => give_values(alloc, task, line)?,
        "domain" | "problem" | "streams" => {}
        _ => return Err(Fault::Unfit),
    }
    Ok(())
}

/// Adds whether the task is fit with what each part of a row gives it.
pub(crate) fn tell_fitness(
    alloc: Global,
    task: &mut Task,
    parts: &[Part],
    out: &mut String,
) -> Result<(), Fault> {
    for part in parts {
        give(alloc, task, part)?;
    }
    let fit = is_fit(alloc, task)?;
    Ok(write!(out, "{fit}\n")?)
}
