//! Rows over the parts of the product: texts of tasks, reports, words, maps and grids. A row says
//! what a part is given; the program prints the row's name and what the part answers.
#![tactic(auto)]

mod commands;
mod domains;
mod draft;
mod due;
mod grids;
mod lines;
mod maps;
mod members;
mod out;
mod play;
mod problems;
mod refusals;
mod reports;
mod service;
mod shown;
mod tasks;
mod trees;
mod word;

use io_world::{Files, RealFiles};
use std::io;
use std::process::ExitCode;

/// The files of rows, in the order in which they are read.
const SUBJECTS: [&str; 11] = [
    "trees.rows",
    "domains.rows",
    "problems.rows",
    "streams.rows",
    "tasks.rows",
    "lines.rows",
    "reports.rows",
    "commands.rows",
    "maps.rows",
    "grids.rows",
    "generators.rows",
];

/// The most bytes of a file of rows.
const ROWS_BYTES: usize = 1 << 20;

/// Plays the rows of each file.
fn play_all(rt: &HostRuntime) -> io::Result<()> {
    let mut files = RealFiles::new(rt.alloc(), rt);
    for subject in SUBJECTS {
        match files.read(subject, ROWS_BYTES) {
            Ok(text) => play::play_rows(rt, text.as_slice())?,
            Err(_) => println!(rt; "{subject} isn't there")?,
        }
    }
    Ok(())
}

fn main(rt: HostRuntime) -> ExitCode {
    match play_all(&rt) {
        Ok(()) => ExitCode::SUCCESS,
        Err(_) => ExitCode::FAILURE,
    }
}
