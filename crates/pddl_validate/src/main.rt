//! The plan validator as a program: it reads a domain, a problem and a plan, and prints whether the
//! plan is valid.
#![tactic(auto)]

use io_world::{RealFiles, RealSink};
use std::process::ExitCode;
use std::{env, io};
use validate_app::{Status, run};

/// The program's name and the words behind it; none where one of them isn't UTF-8, so that they are
/// none of the program's. Fails only where memory is wanting.
fn words(rt: &HostRuntime) -> io::Result<Vec<String>> {
    let mut words = Vec::new(rt.alloc());
    let given = match env::args(rt) {
        Ok(given) => given,
        Err(error) if error.kind() == io::ErrorKind::InvalidData => return Ok(words),
        Err(error) => return Err(error),
    };
    for word in given {
        words.push(word)?;
    }
    Ok(words)
}

/// Does what the words ask for. Fails only where memory is wanting.
fn program(rt: &HostRuntime) -> io::Result<Status> {
    let alloc = rt.alloc();
    let words = words(rt)?;
    let mut files = RealFiles::new(alloc, rt);
    let mut sink = RealSink::new(rt);
    Ok(run(alloc, words.as_slice(), &mut files, &mut sink))
}

fn main(rt: HostRuntime) -> ExitCode {
    match program(&rt) {
        Ok(status) => ExitCode::from(status.code()),
        Err(_) => ExitCode::from(Status::Memory.code()),
    }
}
