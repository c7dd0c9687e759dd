//! Plans as rows of text: of each domain there is a text, a problem, and rows of plans. Of each row
//! the program prints the name, what the validator wrote, and how it ended.
#![tactic(auto)]

mod rows;

use io_world::{Files, RealFiles};
use rows::{Subject, judge_rows};
use std::io;
use std::process::ExitCode;

/// The domains, each with its files `SUBJECT.domain`, `SUBJECT.problem` and `SUBJECT.rows`.
const SUBJECTS: [&str; 5] = ["blocks", "gripper", "miconic", "transport", "cups"];

/// The most bytes of a file.
const FILE_BYTES: usize = 1 << 16;

/// The file of a subject; no bytes where it isn't there.
fn file_of(rt: &HostRuntime, subject: &str, kind: &str) -> io::Result<Vec<u8>> {
    let alloc = rt.alloc();
    let mut files = RealFiles::new(alloc, rt);
    let path = format!(in alloc; "{subject}.{kind}")?;
    match files.read(path.as_str(), FILE_BYTES) {
        Ok(bytes) => Ok(bytes),
        Err(_) => {
            println!(rt; "{path} isn't there")?;
            Ok(Vec::new(alloc))
        }
    }
}

/// The streams of the one subject that has some.
const STREAMS: &str = "cups";

/// Judges the plans of each subject.
fn judge_all(rt: &HostRuntime) -> io::Result<()> {
    let streams = file_of(rt, STREAMS, "streams")?;
    for subject in SUBJECTS {
        let domain = file_of(rt, subject, "domain")?;
        let problem = file_of(rt, subject, "problem")?;
        let rows = file_of(rt, subject, "rows")?;
        println!(rt; "# {subject}")?;
        let subject = Subject {
            domain: domain.as_slice(),
            problem: problem.as_slice(),
            streams: streams.as_slice(),
        };
        judge_rows(rt, &subject, rows.as_slice())?;
    }
    Ok(())
}

fn main(rt: HostRuntime) -> ExitCode {
    match judge_all(&rt) {
        Ok(()) => ExitCode::SUCCESS,
        Err(_) => ExitCode::FAILURE,
    }
}
