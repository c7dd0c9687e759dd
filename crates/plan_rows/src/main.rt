//! Planning, sessions and dreams as rows: each says a task, or none, and what is done and asked, and
//! the program prints its name and the answers.
#![tactic(auto)]

mod cheapest;
mod dreams;
mod fault;
mod fitness;
mod given;
mod judged;
mod planning;
mod plans;
mod print;
mod queue;
mod searches;
mod session;
mod states;
mod store;
mod story;
mod turns;
mod values;
mod words;

use fault::Fault;
use fitness::tell_fitness;
use given::Given;
use planning::tell_planning;
use std::alloc::{AllocError, Global};
use std::io;
use std::process::ExitCode;
use story::tell_session;
use test_rows::{Part, Row, rows_in};
use values::tell_values;

/// What the rows of a file are about.
#[derive(Clone, Copy)]
enum Subject {
    /// Values and stores of states, without a task.
    Values,
    /// Whether a task is fit.
    Fitness,
    /// What is known and noted of a task, and what follows of it.
    Planning,
    /// Sessions and dreams.
    Sessions,
}

/// The files of rows, in the order in which they are read.
const FILES: [(&str, Subject); 15] = [
    ("grid.rows", Subject::Sessions),
    ("answers.rows", Subject::Sessions),
    ("values.rows", Subject::Sessions),
    ("limits.rows", Subject::Sessions),
    ("sessions.rows", Subject::Sessions),
    ("levels.rows", Subject::Planning),
    ("states.rows", Subject::Values),
    ("facts.rows", Subject::Planning),
    ("plans.rows", Subject::Planning),
    ("orders.rows", Subject::Planning),
    ("fitness.rows", Subject::Fitness),
    ("joins.rows", Subject::Planning),
    ("searches.rows", Subject::Planning),
    ("reach.rows", Subject::Planning),
    ("cheapest.rows", Subject::Planning),
];

/// Adds what comes of the parts of a row.
fn tell(
    alloc: Global,
    subject: Subject,
    given: &Given<'_>,
    parts: &[Part],
    out: &mut String,
) -> Result<(), Fault> {
    match subject {
        Subject::Values => tell_values(alloc, parts, out),
        Subject::Fitness => tell_fitness(alloc, &mut *given.task(alloc)?, parts, out),
        Subject::Planning => tell_planning(alloc, &*given.fit_task(alloc)?, parts, out),
        Subject::Sessions => tell_session(alloc, &*given.fit_task(alloc)?, parts, out),
    }
}

/// What comes of the parts of a row, and why it isn't told to its end, if it isn't.
fn answers(
    alloc: Global,
    subject: Subject,
    given: &Given<'_>,
    parts: &[Part],
) -> Result<String, AllocError> {
    let mut out = String::new(alloc);
    match tell(alloc, subject, given, parts, &mut out) {
        Ok(()) => {}
        Err(Fault::Memory) => return Err(AllocError),
        Err(Fault::NoTask) => out.push_str("no task\n")?,
        Err(Fault::Unplayed) => out.push_str("unplayed\n")?,
        Err(Fault::Unfit | Fault::Core(_) | Fault::Queue(_)) => out.push_str("not told\n")?,
    }
    Ok(out)
}

/// Prints the name of a row, and what its questions are answered.
fn print_row(rt: &HostRuntime, subject: Subject, common: Given<'_>, row: &Row) -> io::Result<()> {
    let parts = row.parts.as_slice();
    let given = common.with(parts);
    let name = row.name.as_str();
    println!(rt; "== {name}")?;
    let answer = answers(rt.alloc(), subject, &given, parts)?;
    println!(rt; "{answer}")
}

/// Prints the rows of a file, the first of which says what holds for the others.
fn print_rows(rt: &HostRuntime, file: &str, subject: Subject) -> io::Result<()> {
    let rows = rows_in(rt, file)?;
    let Some((first, rest)) = rows.as_slice().split_first() else {
        return Ok(());
    };
    let common = Given::new().with(first.parts.as_slice());
    for row in rest {
        print_row(rt, subject, common, row)?;
    }
    Ok(())
}

fn print_all(rt: &HostRuntime) -> io::Result<()> {
    for (file, subject) in FILES {
        print_rows(rt, file, subject)?;
    }
    Ok(())
}

fn main(rt: HostRuntime) -> ExitCode {
    match print_all(&rt) {
        Ok(()) => ExitCode::SUCCESS,
        Err(_) => ExitCode::FAILURE,
    }
}
