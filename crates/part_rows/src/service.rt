//! What the program of the grid does over files, a source and a sink in memory.
use crate::out::Out;
use crate::word::{first_word, number, words_of};
use grid_world::{GridStatus, serve};
use io_world::{MemFiles, MemSink, MemSource};
use std::alloc::{AllocError, Global};

/// How many bytes come one by one at first.
const SINGLE: usize = 60;

/// How many bytes the sink takes at once.
const PIECE: usize = 5;

/// The most bytes of an answer that are shown.
const SHOWN: usize = 1000;

/// Files that are the file `g` with these bytes.
fn files(alloc: Global, bytes: &[u8]) -> Result<Box<MemFiles>, AllocError> {
    let bytes = Vec::from_slice(alloc, bytes)?;
    let file = (String::from_str(alloc, "g")?, bytes);
    let files = vec![in alloc; file]?;
    Ok(Box::new(alloc, MemFiles::new(alloc, files, Vec::new(alloc)))?)
}

/// A source of these bytes. The call with the number that is written fails, or for `none` no call.
fn source(alloc: Global, bytes: &[u8], fails: &[u8]) -> Result<Box<MemSource>, AllocError> {
    let bytes = Vec::from_slice(alloc, bytes)?;
    let cuts = vec![in alloc; 1; SINGLE]?;
    let mut calls = Vec::new(alloc);
    if fails != b"none".as_slice() {
        calls.push(number(fails) as u64)?;
    }
    Ok(Box::new(alloc, MemSource::new(bytes, cuts, calls))?)
}

/// A sink with this room.
fn sink(alloc: Global, room: usize) -> Result<Box<MemSink>, AllocError> {
    let sink = MemSink::new(alloc, PIECE, room, Vec::new(alloc))?;
    Ok(Box::new(alloc, sink)?)
}

/// Writes how the program ended, and what it answered, if that isn't long.
fn write_status(out: &mut Out, status: GridStatus, taken: &[u8]) {
    if status == GridStatus::Memory {
        return out.lose();
    }
    out.show(status);
    out.put(", ");
    out.print(taken.len());
    out.put(" bytes");
    if taken.len() <= SHOWN {
        out.put(" ");
        out.quote(taken);
    }
}

/// Writes that of a run, where the settings are the room of the sink, the number of the read that
/// fails, and the words.
fn write_run(
    alloc: Global,
    out: &mut Out,
    settings: &[u8],
    grid: &[u8],
    input: &[u8],
) -> Result<(), AllocError> {
    let (room, rest) = first_word(settings);
    let (fails, rest) = first_word(rest);
    let words = words_of(alloc, rest)?;
    let mut files = files(alloc, grid)?;
    let mut source = source(alloc, input, fails)?;
    let mut sink = sink(alloc, number(room))?;
    let status = serve(
        alloc,
        words.as_slice(),
        &mut *files,
        &mut *source,
        &mut *sink,
    );
    write_status(out, status, sink.taken());
    Ok(())
}

/// Writes that of a run, if memory suffices.
pub(crate) fn write_service(
    alloc: Global,
    out: &mut Out,
    settings: &[u8],
    grid: &[u8],
    input: &[u8],
) {
    if write_run(alloc, out, settings, grid, input).is_err() {
        out.lose();
    }
}
