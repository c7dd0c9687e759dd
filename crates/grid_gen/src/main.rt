//! A generator for blocks on a grid: it reads the grid at the path that is its one word, and
//! answers each line of standard input by one line.
#![tactic(auto)]

use grid_world::{GridStatus, serve};
use io_world::{RealFiles, RealSink, RealSource};
use std::process::ExitCode;
use std::{env, io};

/// The words behind the program's name.
fn words(rt: &HostRuntime) -> io::Result<Vec<String>> {
    let mut words = Vec::new(rt.alloc());
    for word in env::args(rt)?.skip(1) {
        words.push(word)?;
    }
    Ok(words)
}

/// Does what the words behind the program's name ask for.
fn program(rt: &HostRuntime) -> io::Result<GridStatus> {
    let alloc = rt.alloc();
    let words = words(rt)?;
    let mut files = RealFiles::new(alloc, rt);
    let mut source = RealSource::new(rt);
    let mut sink = RealSink::new(rt);
    Ok(serve(alloc, words.as_slice(), &mut files, &mut source, &mut sink))
}

/// Words that aren't UTF-8 are no path, so they end as wrong words do.
fn status_of(error: &io::Error) -> GridStatus {
    if error.kind() == io::ErrorKind::OutOfMemory {
        GridStatus::Memory
    } else {
        GridStatus::Usage
    }
}

fn main(rt: HostRuntime) -> ExitCode {
    match program(&rt) {
        Ok(status) => ExitCode::from(status.code()),
        Err(error) => ExitCode::from(status_of(&error).code()),
    }
}
