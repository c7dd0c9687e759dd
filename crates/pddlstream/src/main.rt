//! The task planner as a program: it reads files, starts generator programs, and prints its report.
#![tactic(auto)]

use gen_host::{BoxHost, ChildGen, Generator, add_idle};
use grid_world::GridGen;
use io_world::{RealFiles, RealSink};
use pddlstream_app::{Status, run};
use std::process::ExitCode;
use std::{env, io};

/// How many programs a host has. Behind them stands the generator of the grid, child 16.
const PROGRAMS: usize = 16;

/// The words behind the program's name; none where one of them isn't UTF-8, so that they are no
/// command. Fails only where memory is wanting.
fn words(rt: &HostRuntime) -> io::Result<Vec<String>> {
    let mut words = Vec::new(rt.alloc());
    let given = match env::args(rt) {
        Ok(given) => given,
        Err(error) if error.kind() == io::ErrorKind::InvalidData => return Ok(words),
        Err(error) => return Err(error),
    };
    for word in given.skip(1) {
        words.push(word)?;
    }
    Ok(words)
}

/// Does what the words behind the program's name ask for. Fails only where memory is wanting.
fn program(rt: &HostRuntime) -> io::Result<Status> {
    let alloc = rt.alloc();
    let words = words(rt)?;
    let mut files = RealFiles::new(alloc, rt);
    let mut sink = RealSink::new(rt);
    let mut members: Vec<Box<dyn Generator>> = Vec::new(alloc);
    for _ in 0..PROGRAMS {
        let member = ChildGen::new(alloc, rt.clone()?);
        add_idle(&mut members, Box::new(alloc, member)?)?;
    }
    add_idle(&mut members, Box::new(alloc, GridGen::new(alloc))?)?;
    let mut host = BoxHost::new(members);
    Ok(run(alloc, words.as_slice(), &mut files, &mut host, &mut sink))
}

fn main(rt: HostRuntime) -> ExitCode {
    match program(&rt) {
        Ok(status) => ExitCode::from(status.code()),
        Err(_) => ExitCode::from(Status::Memory.code()),
    }
}
