//! Rows of plans, one after another.
use io_world::{MemFiles, MemSink};
use std::alloc::{AllocError, Global};
use std::io;
use validate_app::{Status, run};

/// How many bytes the sink takes in a call, and in all.
const SINK_PIECE: usize = 7;

const SINK_BYTES: usize = 10_000;

/// The program's name and the paths that words may name, in their order.
const WORDS: [&str; 6] = [
    "pddl_validate",
    "domain",
    "problem",
    "plan",
    "report",
    "streams",
];

/// The texts of a domain that all rows share.
#[derive(Clone, Copy)]
pub(crate) struct Subject<'a> {
    pub(crate) domain: &'a [u8],
    pub(crate) problem: &'a [u8],
    pub(crate) streams: &'a [u8],
}

/// A row: its plan, and behind it the report and the streams, if its words name them.
#[derive(Drop)]
struct Row {
    texts: Vec<Vec<u8>>,
}

impl Row {
    /// A row with a plan without a line.
    fn new(alloc: Global) -> Result<Row, AllocError> {
        let texts = vec![in alloc; Vec::new(alloc)]?;
        Ok(Row { texts })
    }

    /// Takes a line. `@report` and `@streams`, in this order, begin these texts, and a line that ends
    /// with `\` has no line feed.
    fn take(&mut self, alloc: Global, line: &[u8]) -> Result<(), AllocError> {
        match line {
            b"@report" | b"@streams" => {
                self.texts.push(Vec::new(alloc))?;
                Ok(())
            }
            [front @ .., b'\\'] => self.put(front, b""),
            _ => self.put(line, b"\n"),
        }
    }

    /// Puts bytes behind the last text.
    fn put(&mut self, bytes: &[u8], end: &[u8]) -> Result<(), AllocError> {
        match self.texts.last_mut() {
            Some(text) => {
                text.extend_from_slice(bytes)?;
                text.extend_from_slice(end)
            }
            None => Ok(()),
        }
    }

    /// The text at this place, without a byte where there is none.
    fn text(&self, place: usize) -> &[u8] {
        match self.texts.get(place) {
            Some(text) => text.as_slice(),
            None => &[],
        }
    }
}

/// A file of this path.
fn file(alloc: Global, path: &str, bytes: &[u8]) -> Result<(String, Vec<u8>), AllocError> {
    Ok((
        String::from_str(alloc, path)?,
        Vec::from_slice(alloc, bytes)?,
    ))
}

/// What the validator writes of a row, and how it ends.
fn judged(alloc: Global, subject: &Subject<'_>, row: &Row) -> Result<(String, Status), AllocError> {
    let streams = match row.text(2) {
        [] | [b'\n'] => subject.streams,
        own => own,
    };
    let mut texts = Vec::new(alloc);
    texts.push(file(alloc, "domain", subject.domain)?)?;
    texts.push(file(alloc, "problem", subject.problem)?)?;
    texts.push(file(alloc, "plan", row.text(0))?)?;
    texts.push(file(alloc, "report", row.text(1))?)?;
    texts.push(file(alloc, "streams", streams)?)?;
    let mut words = Vec::new(alloc);
    for word in WORDS.iter().take(3 + row.texts.len()) {
        words.push(String::from_str(alloc, word)?)?;
    }
    let mut files = MemFiles::new(alloc, texts, Vec::new(alloc));
    let mut sink = MemSink::new(alloc, SINK_PIECE, SINK_BYTES, Vec::new(alloc))?;
    let status = run(alloc, words.as_slice(), &mut files, &mut sink);
    let text = String::from_utf8_lossy(alloc, sink.taken())?;
    Ok((text, status))
}

/// Judges the plans of a text. A row begins with `== ` and its name; the lines behind it are its
/// plan, and those behind `@report` and `@streams` these texts. The subject's streams stand for
/// streams without a line, or with an empty one.
pub(crate) fn judge_rows(rt: &HostRuntime, subject: &Subject<'_>, rows: &[u8]) -> io::Result<()> {
    let alloc = rt.alloc();
    let mut row = Row::new(alloc)?;
    let mut begun = false;
    for line in rows.split(|byte| *byte == b'\n') {
        match line {
            [b'=', b'=', b' ', name @ ..] => {
                if begun {
                    print_row(rt, subject, &row)?;
                }
                let name = String::from_utf8_lossy(alloc, name)?;
                println!(rt; "== {name}")?;
                row = Row::new(alloc)?;
                begun = true;
            }
            _ => row.take(alloc, line)?,
        }
    }
    if begun {
        print_row(rt, subject, &row)?;
    }
    Ok(())
}

/// Prints what is said of a row.
fn print_row(rt: &HostRuntime, subject: &Subject<'_>, row: &Row) -> io::Result<()> {
    let (text, status) = judged(rt.alloc(), subject, row)?;
    let code = status.code();
    println!(rt; "{text}-- {code}")
}
