//! What is judged of the lines of a dream, or of the claim that there is none, before anything was
//! answered.
ghost use Rattle.std.specs.Prelude.{ℕ, List};
ghost use Rattle.task_model.specs.Fit.{IsFit};
ghost use Rattle.learning.specs.Knowledge.{IsKnowledge};
ghost use Rattle.transcript_model.specs.declared.entry.Entry.{Entry as AnyEntry};

use crate::fault::Fault;
use crate::story::Bounds;
use dream_check::{Dreamed, Point, judge_dream, judge_none};
use learning::Knowledge;
use optimistic_set::Tried;
use report_reader::{REPORT_BYTES, read_report};
use report_text::ReportFault;
use std::alloc::{AllocError, Global};
use std::fmt::Write;
use task_model::Task;
use transcript_model::{Entry, Report};

/// What stands in a report before its entries.
const HEAD: &[u8] = b"pddlstream 1 focused\nlimits 1 1 1\npool 1 s\n";

/// What stands there behind them.
const END: &[u8] = b"no plan\ndone\n";

/// The report with these lines between its head and its outcome.
fn report_of(alloc: Global, lines: &[u8]) -> Result<Box<Report>, Fault> {
    let mut bytes = Vec::from_slice(alloc, HEAD)?;
    bytes.extend_from_slice(lines)?;
    bytes.extend_from_slice(END)?;
    if bytes.len() > REPORT_BYTES {
        return Err(Fault::Unfit);
    }
    match read_report(alloc, bytes.as_slice()) {
        Ok(report) => Ok(Box::new(alloc, report)?),
        Err(ReportFault::Memory) => Err(Fault::Memory),
        Err(ReportFault::At { .. }) => Err(Fault::Unfit),
    }
}

/// Adds what is found of a dream.
fn push_dreamed(out: &mut String, dreamed: Dreamed) -> Result<(), AllocError> {
    match dreamed {
        Dreamed::Right(entries) => {
            let count = entries.len();
            write!(out, "right: {count} entries\n")
        }
        Dreamed::Use(place) => write!(out, "wrong: use {place}\n"),
        Dreamed::Step(place) => write!(out, "wrong: step {place}\n"),
        Dreamed::Last => out.push_str("wrong: the last line\n"),
    }
}

/// Adds what is found of the claim that there is none.
fn push_none(out: &mut String, found: Option<bool>) -> Result<(), AllocError> {
    let text = match found {
        Some(true) => "none: true\n",
        Some(false) => "none: false\n",
        None => "none: undecided\n",
    };
    out.push_str(text)
}

/// Judges an entry at a point, and adds what is found.
fn add_entry(
    alloc: Global,
    out: &mut String,
    point: &Point<'_>,
    bounds: Bounds,
    entry: &Entry,
) -> Result<(), Fault>
    requires { (version : ℕ) × (before : List AnyEntry)
        × IsKnowledge version point.now.task.now before point.now.knowledge.now }
{
    match entry {
        Entry::Dream { uses, steps } if !uses.is_empty() => {
            let found = judge_dream(alloc, point, uses.as_slice(), steps.as_slice())?;
            Ok(push_dreamed(out, found)?)
        }
        Entry::Nothing => {
            let states = bounds.states.clamp(1, 200_000);
            let limit = bounds.limit.clamp(1, 200_000);
            let found = judge_none(alloc, point, states, limit)?;
            Ok(push_none(out, found)?)
        }
        _ => Err(Fault::Unfit),
    }
}

/// Judges each entry at a point, and adds what is found.
fn add_entries(
    alloc: Global,
    out: &mut String,
    point: &Point<'_>,
    bounds: Bounds,
    entries: &[Entry],
) -> Result<(), Fault>
    requires { (version : ℕ) × (before : List AnyEntry)
        × IsKnowledge version point.now.task.now before point.now.knowledge.now }
{
    for entry in entries {
        add_entry(alloc, out, point, bounds, entry)?;
    }
    Ok(())
}

/// Judges each of the entries that the lines show, as if it came first, and adds what is found.
pub(crate) fn add_judged(
    alloc: Global,
    out: &mut String,
    task: &Task,
    tried: &Tried,
    bounds: Bounds,
    lines: &[u8],
) -> Result<(), Fault>
    requires { IsFit task.now }
{
    let report = report_of(alloc, lines)?;
    let knowledge = Knowledge::new(alloc, task)?;
    let point = Point {
        task,
        knowledge: &knowledge,
        tried,
        depth: bounds.depth,
    };
    add_entries(alloc, out, &point, bounds, report.entries.as_slice())
}
