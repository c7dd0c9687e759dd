//! Runs that are written as rows of text: each row says a command, its files, what its children say
//! and which calls fail. Of each the program prints the name, what the run wrote, and how it ended.
//! Started as `serve FILE` it answers as the generator of that grid: rows with real children start it.
#![tactic(auto)]

mod draft;
mod either_host;
mod hosts;
mod noting_host;
mod play;
mod ran;
mod replies;
mod row;
mod talk;
mod texts;
mod unit;
mod word;

use grid_world::serve;
use io_world::{Files, RealFiles, RealSink, RealSource};
use std::process::ExitCode;
use std::{env, io};

/// The files of rows, in the order in which they are run.
const SUBJECTS: [&str; 35] = [
    "outcomes.rows",
    "limits.rows",
    "faults.rows",
    "refusals.rows",
    "lengths.rows",
    "workers.rows",
    "joins.rows",
    "plain.rows",
    "maps.rows",
    "replays.rows",
    "made.rows",
    "walks.rows",
    "searches.rows",
    "focused.rows",
    "binding.rows",
    "adaptive.rows",
    "picks.rows",
    "starts.rows",
    "tables.rows",
    "reports.rows",
    "dreams.rows",
    "blocks.rows",
    "real.rows",
    "values.rows",
    "supposing.rows",
    "edges.rows",
    "hostile.rows",
    "sure.rows",
    "orders.rows",
    "plays.rows",
    "costs.rows",
    "cheapest.rows",
    "tuples.rows",
    "migrations.rows",
    "restarts.rows",
];

/// The most bytes of a file of rows.
const ROWS_BYTES: usize = 1 << 20;

/// Plays the rows of each file.
fn play_all(rt: &HostRuntime) -> io::Result<()> {
    let mut files = RealFiles::new(rt.alloc(), rt);
    for subject in SUBJECTS {
        match files.read(subject, ROWS_BYTES) {
            Ok(text) => play::play_rows(rt, text.as_slice())?,
            Err(_) => println!(rt; "{subject} isn't there")?,
        }
    }
    Ok(())
}

/// The words behind the program's name.
fn words(rt: &HostRuntime) -> io::Result<Vec<String>> {
    let mut words = Vec::new(rt.alloc());
    for word in env::args(rt)?.skip(1) {
        words.push(word)?;
    }
    Ok(words)
}

/// Answers as the generator of the grid, from standard input to standard output.
fn serve_grid(rt: &HostRuntime, words: &[String]) -> ExitCode {
    let mut files = RealFiles::new(rt.alloc(), rt);
    let mut source = RealSource::new(rt);
    let mut sink = RealSink::new(rt);
    let status = serve(rt.alloc(), words, &mut files, &mut source, &mut sink);
    ExitCode::from(status.code())
}

/// Answers as the generator of the grid where the first word says so, or plays the rows.
fn program(rt: &HostRuntime) -> io::Result<ExitCode> {
    let words = words(rt)?;
    match words.split_first() {
        Some((first, rest)) if first.as_str() == "serve" => Ok(serve_grid(rt, rest)),
        _ => {
            play_all(rt)?;
            Ok(ExitCode::SUCCESS)
        }
    }
}

fn main(rt: HostRuntime) -> ExitCode {
    match program(&rt) {
        Ok(code) => code,
        Err(_) => ExitCode::FAILURE,
    }
}
