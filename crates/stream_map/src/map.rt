//! The calls that give the pools of a run.
ghost use Rattle.std.specs.Prelude.{◌≡◌, map, string_bytes, IfOk, IfErr};
ghost use Rattle.stream_map.specs.Accepted.{Accepted, AcceptedMap, RefusesMap};
ghost use Rattle.stream_map.specs.Faults.{Refused};
ghost use Rattle.stream_map.specs.Form.{all_stream_names, words_form};
ghost use Rattle.stream_map.specs.Spelled.{shown_pool_text};
ghost use Rattle.task_model.specs.Fit.{IsFit};

use crate::fault::MapFault;
use crate::form::map_of;
use crate::pool_text::{PoolText, is_program};
use crate::pools::pools_of;
use serde_json::Value;
use std::alloc::{AllocError, Global};
use task_model::{Seq, Task};
use transcript_model::Pool;

/// The pools that a map's text spells, in the map's order, or its first fault in the order of
/// `MapFault`. Names of streams are read in lower case, a number of workers that isn't given is 1,
/// and of a key that stands twice the last value counts. The pool of the words `["@grid", FILE]`
/// has the child [`GRID_CHILD`](crate::GRID_CHILD); the others have those from 0 on.
pub fn read_map(alloc: Global, bytes: &[u8], task: &Task) -> Result<Seq<Pool>, MapFault>
    requires fit { IsFit task.now }
    ensures pools { IfOk result (λ pools. AcceptedMap task.now bytes.now pools) }
    ensures refused { IfErr result (RefusesMap task.now bytes.now) }
{
    let value = match Value::from_slice(alloc, bytes) {
        Ok(value) => value,
        Err(error) if error.is_memory() => return Err(MapFault::Memory),
        Err(_) => return Err(MapFault::Json),
    };
    let texts = map_of(alloc, &value)?;
    pools_of(alloc, task, texts)
}

/// A pool of all streams of the task.
fn pool_of_all(
    alloc: Global,
    task: &Task,
    argv: &[String],
    workers: u8,
) -> Result<PoolText, AllocError>
    ensures { IfOk result (λ pool. shown_pool_text pool
        ≡ record {
          run = map string_bytes argv.now;
          workers = workers;
          streams = all_stream_names
              task.now;
        }) }
{
    let mut run = Vec::with_capacity(alloc, argv.len())?;
    for word in argv {
        run.push(String::from_str(alloc, word.as_str())?)?;
    }
    let mut streams = Vec::with_capacity(alloc, task.streams.len())?;
    for stream in task.streams.as_slice() {
        streams.push(stream.name.copy(alloc)?)?;
    }
    Ok(PoolText {
        run: Seq::from_vec(run),
        workers: workers as u64,
        streams: Seq::from_vec(streams),
    })
}

/// The pools where a program's words stand for a map: none for a task without streams, and then
/// nothing is tested; none without words; and else one pool of all streams, in the task's order, by
/// the tests of `read_map`.
pub fn one_pool(
    alloc: Global,
    task: &Task,
    argv: &[String],
    workers: u8,
) -> Result<Seq<Pool>, MapFault>
    requires fit { IsFit task.now }
    ensures pools { IfOk result
        (Accepted task.now (words_form task.now (map string_bytes argv.now) workers)) }
    ensures refused { IfErr result (Refused (all_stream_names task.now)
        (words_form task.now (map string_bytes argv.now) workers)) }
{
    let mut texts = Vec::new(alloc);
    if !task.streams.is_empty() && !argv.is_empty() {
        if !is_program(argv) {
            return Err(MapFault::Shape);
        }
        texts.push(pool_of_all(alloc, task, argv, workers)?)?;
    }
    pools_of(alloc, task, texts)
}
