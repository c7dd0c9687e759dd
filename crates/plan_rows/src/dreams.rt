//! Lists and dreams as they are printed.
use crate::print::{Names, push_bytes, push_objects, push_stream};
use dreaming::Dreamt;
use optimistic_set::{OptEntry, Supposed};
use std::alloc::AllocError;
use std::fmt::Write;
use task_model::Task;
use transcript_model::{Call, DreamUse};

/// Adds an entry: its number, its stream and its inputs, and behind a colon its placeholders.
fn push_entry(
    out: &mut String,
    task: &Task,
    names: Names<'_>,
    number: usize,
    entry: &OptEntry,
) -> Result<(), AllocError> {
    write!(out, "{number} ")?;
    let instance = entry.instance();
    push_stream(out, task, instance.stream)?;
    push_objects(out, names, instance.inputs.as_slice())?;
    if !entry.outputs().is_empty() {
        out.push_str(" :")?;
        push_objects(out, names, entry.outputs())?;
    }
    out.push('\n')
}

/// Adds the entries of a list, a line each.
pub(crate) fn push_list(
    out: &mut String,
    task: &Task,
    supposed: &Supposed<'_>,
) -> Result<(), AllocError> {
    let names = Names::of_supposed(supposed);
    for (place, entry) in supposed.entries().iter().enumerate() {
        push_entry(out, task, names, place.saturating_add(1), entry)?;
    }
    Ok(())
}

/// Adds a call: its words with a space before each.
fn push_call(out: &mut String, call: &Call) -> Result<(), AllocError> {
    out.push(' ')?;
    push_bytes(out, call.name.bytes())?;
    for arg in call.args.as_slice() {
        out.push(' ')?;
        push_bytes(out, arg.bytes())?;
    }
    out.push('\n')
}

/// Adds the entries that a dream uses.
fn push_uses(out: &mut String, uses: &[DreamUse]) -> Result<(), AllocError> {
    for shown in uses {
        let number = shown.number;
        write!(out, "use {number}")?;
        push_call(out, &shown.call)?;
    }
    Ok(())
}

/// Adds the steps of a plan.
fn push_steps(out: &mut String, steps: &[Call]) -> Result<(), AllocError> {
    for step in steps {
        out.push_str("step")?;
        push_call(out, step)?;
    }
    Ok(())
}

/// Adds a dream: its lines as in a report, and what its plan costs.
pub(crate) fn push_dream(out: &mut String, dreamt: &Dreamt) -> Result<(), AllocError> {
    match dreamt {
        Dreamt::Dream {
            uses,
            steps,
            cost,
            ..
        } => {
            let (count, length) = (uses.len(), steps.len());
            write!(out, "dream {count} {length}\n")?;
            push_uses(out, uses.as_slice())?;
            push_steps(out, steps.as_slice())?;
            write!(out, "cost {cost}\n")
        }
        Dreamt::Empty => out.push_str("none\n"),
    }
}
