//! Maps of generators, and words in their place.
ghost use Rattle.task_model.specs.Fit.{IsFit};

use crate::commands::write_words;
use crate::out::Out;
use crate::refusals::write_refusal;
use crate::shown::write_name;
use crate::tasks::bare_task;
use crate::word::{first_word, number, words_of};
use fit_check::is_fit;
use std::alloc::Global;
use stream_map::{MapFault, grid_path, one_pool, read_map, with_grid};
use task_model::{Seq, Task};
use transcript_model::Pool;

/// Writes a pool: the first child, the workers, the streams, and behind a colon the words.
fn write_pool(out: &mut Out, task: &Task, pool: &Pool) {
    out.put(" [");
    out.print(pool.first);
    out.put(" ");
    out.print(pool.workers);
    for place in pool.streams.as_slice() {
        if let Some(stream) = task.streams.as_slice().get(*place as usize) {
            write_name(out, &stream.name);
        }
    }
    out.put(":");
    write_words(out, pool.argv.as_slice());
    out.put("]");
}

/// Writes how many pools there are, and each of them.
fn write_pools(out: &mut Out, task: &Task, pools: &[Pool]) {
    out.print(pools.len());
    out.put(" pools");
    for pool in pools {
        write_pool(out, task, pool);
    }
}

/// Writes the name of a fault.
fn write_fault(out: &mut Out, fault: MapFault) {
    match fault {
        MapFault::Memory => out.lose(),
        fault => out.show(fault),
    }
}

/// Writes pools, or the first fault.
fn write_found(out: &mut Out, task: &Task, pools: Result<Seq<Pool>, MapFault>) {
    match pools {
        Ok(pools) => write_pools(out, task, pools.as_slice()),
        Err(fault) => write_fault(out, fault),
    }
}

/// Writes what words give for a task, behind the number of workers.
fn write_one(alloc: Global, out: &mut Out, task: &Task, line: &[u8])
    requires { IsFit task.now }
{
    let (workers, line) = first_word(line);
    match (words_of(alloc, line), u8::try_from(number(workers))) {
        (Ok(words), Ok(workers)) => {
            write_found(out, task, one_pool(alloc, task, words.as_slice(), workers));
        }
        _ => out.lose(),
    }
}

/// Writes the path of the grid's file, and what pools become with this text in its place.
fn write_filled(out: &mut Out, task: &Task, pools: Seq<Pool>, grid: String) {
    out.put(grid_path(pools.as_slice()).unwrap_or("no path"));
    out.put("; ");
    write_pools(out, task, with_grid(pools, grid).as_slice());
}

/// Writes that of the pools of a map.
fn write_with(alloc: Global, out: &mut Out, task: &Task, map: &[u8], grid: &[u8])
    requires { IsFit task.now }
{
    match (
        read_map(alloc, map, task),
        String::from_utf8_lossy(alloc, grid),
    ) {
        (Ok(pools), Ok(grid)) => write_filled(out, task, pools, grid),
        _ => out.lose(),
    }
}

/// Writes what a map, words behind the number of workers, or a map with the text of a grid give for
/// a task, as the row's kind says.
fn write_for(alloc: Global, out: &mut Out, kind: &[u8], task: &Task, text: &[u8], grid: &[u8])
    requires { IsFit task.now }
{
    match kind {
        b"map" => write_found(out, task, read_map(alloc, text, task)),
        b"words" => write_one(alloc, out, task, text),
        _ => write_with(alloc, out, task, text, grid),
    }
}

/// Writes that for a task, if it is fit.
fn write_if_fit(alloc: Global, out: &mut Out, kind: &[u8], task: &Task, text: &[u8], grid: &[u8]) {
    match is_fit(alloc, task) {
        Ok(true) => write_for(alloc, out, kind, task, text, grid),
        Ok(false) => out.put("unfit"),
        Err(_) => out.lose(),
    }
}

/// Writes that for a task of these streams.
pub(crate) fn write_given(
    alloc: Global,
    out: &mut Out,
    kind: &[u8],
    streams: &[u8],
    text: &[u8],
    grid: &[u8],
) {
    match bare_task(alloc, streams) {
        Ok(task) => write_if_fit(alloc, out, kind, &task, text, grid),
        Err(refusal) => write_refusal(out, refusal),
    }
}
