//! The grid as a generator, and as a child of hosts.
ghost use Rattle.std.specs.Prelude.{◌≡◌, ◌<◌, true, false};
ghost use Rattle.io_world.specs.declared.host.TheConstants.{CHILDREN};

use crate::grids::{LONGEST, write_fault};
use crate::out::Out;
use crate::word::{first_word, number, unescaped};
use gen_host::{BoxHost, Generator, add_idle};
use grid_world::{GridGen, GridReplies, read_grid};
use io_world::{CHILDREN, Host, HostFault, SureHost, hear_line, send_all};
use std::alloc::{AllocError, Global};

/// The words of a start: the first alone, or it and a second, where `_` stands for an empty one.
fn start_words(alloc: Global, first: &[u8], second: &[u8]) -> Result<Vec<String>, AllocError> {
    let first = String::from_utf8_lossy(alloc, first)?;
    let mut words = vec![in alloc; first]?;
    match second {
        [] => {}
        b"_" => words.push(String::new(alloc))?,
        text => words.push(String::from_utf8_lossy(alloc, text)?)?,
    }
    Ok(words)
}

/// Writes what came of a call.
fn write_done(out: &mut Out, answer: Result<(), HostFault>) {
    match answer {
        Ok(()) => out.put("done; "),
        Err(HostFault::Failed) => out.put("failed; "),
        Err(HostFault::Memory) => out.lose(),
    }
}

/// Writes the bytes that came, which are the first of the room.
fn write_heard(out: &mut Out, answer: Result<usize, HostFault>, room: &[u8]) {
    match answer {
        Ok(count) => {
            out.quote(room.get(..count).unwrap_or(&[]));
            out.put("; ");
        }
        Err(fault) => write_done(out, Err(fault)),
    }
}

/// Starts a generator by the words of a line, and answers whether it runs.
fn start<G: Generator>(alloc: Global, out: &mut Out, generator: &mut G, line: &[u8]) -> bool
    requires idle { G.running generator.old ≡ false }
    ensures { G.running generator.new ≡ result }
{
    let (first, second) = first_word(line);
    let words = match start_words(alloc, first, second) {
        Ok(words) if !words.is_empty() => words,
        _ => {
            out.lose();
            return false;
        }
    };
    let answer = generator.start(words.as_slice());
    write_done(out, answer);
    answer.is_ok()
}

/// Writes bytes to a generator, and writes how many it took.
fn tell<G: Generator>(out: &mut Out, generator: &mut G, bytes: &[u8])
    requires runs { G.running generator.old ≡ true }
    ensures { G.running generator.new ≡ true }
{
    if bytes.is_empty() {
        return;
    }
    match generator.send(bytes) {
        Ok(count) => {
            out.print(count);
            out.put(" taken; ");
        }
        Err(fault) => write_done(out, Err(fault)),
    }
}

/// Receives into a room of so many bytes, at most 64, and writes what came.
fn hear<G: Generator>(out: &mut Out, generator: &mut G, count: usize)
    requires runs { G.running generator.old ≡ true }
    ensures { G.running generator.new ≡ true }
{
    if count == 0 || count > 64 {
        return;
    }
    let mut room = [0; 64];
    let answer = generator.receive(&mut room[..count]);
    write_heard(out, answer, &room);
}

/// Calls a generator as a line says: `start` by words, `send` bytes, `receive` so many, or `stop`.
/// Answers whether it runs.
fn act<G: Generator>(
    alloc: Global,
    out: &mut Out,
    generator: &mut G,
    runs: bool,
    line: &[u8],
) -> bool
    requires { G.running generator.old ≡ runs }
    ensures { G.running generator.new ≡ result }
{
    let (word, rest) = first_word(line);
    if !runs {
        return start(alloc, out, generator, rest);
    }
    match word {
        b"send" => tell(out, generator, rest),
        b"receive" => hear(out, generator, number(rest)),
        _ => {
            let answer = generator.stop();
            write_done(out, answer);
            return false;
        }
    }
    true
}

/// Calls a generator as the lines say, and then writes its count of faults.
fn act_all<G: Generator>(alloc: Global, out: &mut Out, generator: &mut G, lines: &[Vec<u8>])
    requires { G.running generator.old ≡ false }
{
    let mut runs = false;
    for line in lines {
        runs = act(alloc, out, generator, runs, line);
    }
    out.print(generator.faults());
    out.put(" faults");
}

/// The lines of a text, each as the bytes that it stands for.
fn lines_of(alloc: Global, text: &[u8]) -> Result<Vec<Vec<u8>>, AllocError> {
    let mut lines = Vec::new(alloc);
    for line in text.split(|byte| *byte == b'\n') {
        if !line.is_empty() {
            lines.push(unescaped(alloc, line)?)?;
        }
    }
    Ok(lines)
}

/// Writes a request to a child of a host, and writes the answer.
fn converse<H: Host>(out: &mut Out, host: &mut H, child: u8, request: &[u8])
    requires number { child < CHILDREN }
    requires runs { H.running host.old child ≡ true }
    ensures { H.running host.new child ≡ true }
{
    let mut room = [0; 64];
    match send_all(host, child, request) {
        Ok(()) => {
            let answer = hear_line(host, child, &mut room, 0);
            write_heard(out, answer, &room);
        }
        Err(fault) => write_done(out, Err(fault)),
    }
}

/// Writes requests to a child of a host, one after another, and writes the answers and the count of
/// faults.
fn converse_all<H: Host>(out: &mut Out, host: &mut H, child: u8, lines: &[Vec<u8>])
    requires number { child < CHILDREN }
    requires runs { H.running host.old child ≡ true }
{
    for line in lines {
        converse(out, host, child, line);
    }
    out.print(host.faults());
    out.put(" faults");
}

/// Starts a child of a host by words, and writes what it answers to requests.
fn serve_as<H: Host>(out: &mut Out, host: &mut H, child: u8, words: &[String], lines: &[Vec<u8>])
    requires number { child < CHILDREN }
    requires idle { H.running host.old child ≡ false }
{
    if words.is_empty() {
        return out.lose();
    }
    match host.start(child, words) {
        Ok(()) => converse_all(out, host, child, lines),
        Err(fault) => write_done(out, Err(fault)),
    }
}

/// Writes what the grid answers as the last child of a host.
fn write_last(
    alloc: Global,
    out: &mut Out,
    words: &[String],
    lines: &[Vec<u8>],
) -> Result<(), AllocError> {
    let mut members = Vec::new(alloc);
    for _ in 0..CHILDREN {
        add_idle(&mut members, Box::new(alloc, GridGen::new(alloc))?)?;
    }
    if members.len() != CHILDREN {
        return Err(AllocError);
    }
    let mut host = BoxHost::new(members);
    serve_as(out, &mut host, 16, words, lines);
    Ok(())
}

/// Writes what a host answers whose children answer by a grid.
fn write_sure(alloc: Global, out: &mut Out, grid: &[u8], words: &[String], lines: &[Vec<u8>]) {
    if grid.len() > LONGEST {
        return out.lose();
    }
    match read_grid(alloc, grid) {
        Ok(found) => {
            let mut host = SureHost::new(alloc, GridReplies::new(&found));
            serve_as(out, &mut host, 3, words, lines);
        }
        Err(fault) => write_fault(out, fault),
    }
}

/// Writes what the grid of a text answers to the lines of another: as the last child of a host, or
/// by a host of its own that is started by any words, as the row's kind says.
fn write_served(
    alloc: Global,
    out: &mut Out,
    kind: &[u8],
    grid: &[u8],
    text: &[u8],
) -> Result<(), AllocError> {
    let lines = lines_of(alloc, text)?;
    if kind == b"last-child".as_slice() {
        let words = start_words(alloc, b"@grid", grid)?;
        return write_last(alloc, out, words.as_slice(), lines.as_slice());
    }
    let words = start_words(alloc, b"any", b"words")?;
    write_sure(alloc, out, grid, words.as_slice(), lines.as_slice());
    Ok(())
}

/// Writes that, if memory suffices.
pub(crate) fn write_child(alloc: Global, out: &mut Out, kind: &[u8], grid: &[u8], text: &[u8]) {
    if write_served(alloc, out, kind, grid, text).is_err() {
        out.lose();
    }
}

/// Writes what calls of the grid as a generator come to, as the lines of a text say.
pub(crate) fn write_calls(alloc: Global, out: &mut Out, text: &[u8]) {
    let Ok(lines) = lines_of(alloc, text) else {
        return out.lose();
    };
    let mut generator = GridGen::new(alloc);
    act_all(alloc, out, &mut generator, lines.as_slice());
}
