//! What reports say, and what is written of them.
ghost use Rattle.std.specs.Prelude.{◌≡◌, ◌<◌, All, IfOk};

use crate::out::Out;
use crate::refusals::write_refusal;
use crate::shown::write_name;
use crate::tasks::bare_task;
use report_reader::read_report;
use report_text::{ReportFault, entry_text, head_text, migrated, outcome_text};
use std::alloc::{AllocError, Global};
use task_model::{Name, Seq, Task};
use transcript_model::{Call, DreamUse, Entry, Head, Origin, Outcome, Pool, Report};

/// The longest report of a row.
const LONGEST: usize = 16_000_000;

/// The first line of a text that is faulty, or 0 for a report.
fn faulty(alloc: Global, out: &mut Out, text: &[u8]) -> u32 {
    if text.len() > LONGEST {
        out.lose();
        return 0;
    }
    match read_report(alloc, text) {
        Ok(_) => 0,
        Err(ReportFault::At { line, .. }) => line,
        Err(ReportFault::Memory) => {
            out.lose();
            0
        }
    }
}

/// Writes the first faulty line of a text, or that it is a report.
pub(crate) fn write_faulty(alloc: Global, out: &mut Out, text: &[u8]) {
    match faulty(alloc, out, text) {
        0 => out.put("a report"),
        line => {
            out.put("line ");
            out.print(line);
        }
    }
}

/// Writes how many fronts of a text lack just their next line, and which line comes after the last.
pub(crate) fn write_fronts(alloc: Global, out: &mut Out, text: &[u8]) {
    let mut count: usize = 0;
    let mut line: u32 = 1;
    for (end, byte) in text.iter().enumerate() {
        if faulty(alloc, out, &text[..end]) == line {
            count = count.saturating_add(1);
        }
        if *byte == b'\n' {
            line = line.saturating_add(1);
        }
    }
    out.print(count);
    out.put(" of ");
    out.print(text.len());
    out.put(" fronts lack their next line; behind them all comes line ");
    out.print(line);
}

fn write_names(out: &mut Out, names: &[Name]) {
    for name in names {
        write_name(out, name);
    }
}

/// Writes a stream or an action and its objects.
fn write_call(out: &mut Out, call: &Call) {
    write_name(out, &call.name);
    out.put(":");
    write_names(out, call.args.as_slice());
}

/// Writes the uses of a dream.
fn write_uses(out: &mut Out, uses: &[DreamUse]) {
    for entry in uses {
        out.put(" [use ");
        out.print(entry.number);
        write_call(out, &entry.call);
        out.put("]");
    }
}

/// Writes steps.
fn write_steps(out: &mut Out, steps: &[Call]) {
    for step in steps {
        out.put(" [step");
        write_call(out, step);
        out.put("]");
    }
}

/// Writes the origins of a plan: the object, the request and the tuple.
fn write_origins(out: &mut Out, from: &[Origin]) {
    for origin in from {
        out.put(" [from");
        write_name(out, &origin.object);
        out.put(" ");
        out.print(origin.number);
        out.put(" ");
        out.print(origin.tuple);
        out.put("]");
    }
}

/// Writes a word and a number.
fn write_numbered(out: &mut Out, word: &str, number: u32) {
    out.put(word);
    out.print(number);
}

/// Writes what an entry is.
fn write_entry(out: &mut Out, entry: &Entry) {
    match entry {
        Entry::Level => out.put("Level"),
        Entry::Ask { number, turn, call } => {
            write_numbered(out, "Ask ", *number);
            write_numbered(out, " ", *turn);
            write_call(out, call);
        }
        Entry::Got {
            number,
            tuples,
            values,
        } => {
            write_numbered(out, "Got ", *number);
            write_numbered(out, " ", u32::from(*tuples));
            out.put(":");
            write_names(out, values.as_slice());
        }
        Entry::Value { number, value } => {
            write_numbered(out, "Value ", *number);
            write_numbered(out, " ", *value);
        }
        Entry::End { number } => write_numbered(out, "End ", *number),
        Entry::Dream { uses, steps } => {
            out.put("Dream");
            write_uses(out, uses.as_slice());
            write_steps(out, steps.as_slice());
        }
        Entry::Nothing => out.put("Nothing"),
        Entry::Reset => out.put("Reset"),
        Entry::Pick(number) => write_numbered(out, "Pick ", *number),
        Entry::Retire(number) => write_numbered(out, "Retire ", *number),
    }
}

/// Writes what an outcome is.
fn write_outcome(out: &mut Out, outcome: &Outcome) {
    match outcome {
        Outcome::Plan { steps, cost, from } => {
            out.put("Plan");
            write_steps(out, steps.as_slice());
            out.put(" cost ");
            out.print(*cost);
            write_origins(out, from.as_slice());
        }
        Outcome::NoPlan => out.put("NoPlan"),
        Outcome::Limit(kind) => {
            out.put("Limit ");
            out.show(*kind);
        }
    }
}

/// Writes the head, the entries and the outcome of a report, each on a line.
fn write_values(out: &mut Out, report: &Report) {
    write_numbered(out, "Head ", u32::from(report.version));
    out.put(" ");
    out.show(report.mode);
    write_numbered(out, " ", report.calls);
    write_numbered(out, " ", report.states);
    write_numbered(out, " ", u32::from(report.depth));
    for entry in report.entries.as_slice() {
        out.put("\n");
        write_entry(out, entry);
    }
    out.put("\n");
    write_outcome(out, &report.outcome);
}

/// Writes a text, if there was memory for it.
fn write_text(out: &mut Out, text: Result<Vec<u8>, AllocError>) {
    match text {
        Ok(text) => out.put_bytes(text.as_slice()),
        Err(_) => out.lose(),
    }
}

/// The first places, at most four.
fn first_places(count: usize) -> &'static [u32]
    ensures { All (λ place. place < count) result.now }
{
    match count {
        1 => &[0],
        2 => &[0, 1],
        3 => &[0, 1, 2],
        4 => &[0, 1, 2, 3],
        _ => &[],
    }
}

/// The head of a report with one pool of the streams at these places.
fn head(alloc: Global, report: &Report, places: &[u32]) -> Result<Head, AllocError>
    ensures { IfOk result (λ head. All (λ pool. pool.streams ≡ places.now) head.pools) }
{
    let pool = Pool {
        first: 0,
        workers: 1,
        streams: Seq::from_vec(Vec::from_slice(alloc, places)?),
        argv: Seq::from_vec(Vec::new(alloc)),
    };
    Ok(Head {
        version: report.version,
        mode: report.mode,
        calls: report.calls,
        states: report.states,
        depth: report.depth,
        optimal: false,
        pools: Seq::from_vec(vec![in alloc; pool]?),
    })
}

/// The first lines of a report whose one pool serves all streams of a task, at most four.
fn head_lines(alloc: Global, task: &Task, report: &Report) -> Result<Vec<u8>, AllocError> {
    let head = head(alloc, report, first_places(task.streams.len()))?;
    head_text(alloc, task, &head)
}

/// Writes what a report says, and the lines that are written of that: of the head with all streams
/// of a task, of each entry and of the outcome.
fn write_both(alloc: Global, out: &mut Out, task: &Task, report: &Report) {
    write_values(out, report);
    out.put("\n");
    write_text(out, head_lines(alloc, task, report));
    for entry in report.entries.as_slice() {
        write_text(out, entry_text(alloc, entry));
    }
    write_text(out, outcome_text(alloc, &report.outcome, report.version));
    out.put("done");
}

/// Writes that of a report, or its first faulty line.
fn write_report(alloc: Global, out: &mut Out, task: &Task, text: &[u8]) {
    if text.len() > LONGEST {
        return out.lose();
    }
    match read_report(alloc, text) {
        Ok(report) => write_both(alloc, out, task, &report),
        Err(_) => write_faulty(alloc, out, text),
    }
}

/// Writes that of a report over these streams.
pub(crate) fn write_again(alloc: Global, out: &mut Out, streams: &[u8], text: &[u8]) {
    match bare_task(alloc, streams) {
        Ok(task) => write_report(alloc, out, &task, text),
        Err(refusal) => write_refusal(out, refusal),
    }
}

/// Writes a report in the latest version without its last line feed, or a text's first faulty line.
pub(crate) fn write_migrated(alloc: Global, out: &mut Out, text: &[u8]) {
    if text.len() > LONGEST {
        return out.lose();
    }
    match read_report(alloc, text) {
        Ok(report) => match migrated(alloc, &report) {
            Ok(text) => out.put_bytes(text.strip_suffix(b"\n").unwrap_or(&text)),
            Err(_) => out.lose(),
        },
        Err(_) => write_faulty(alloc, out, text),
    }
}
