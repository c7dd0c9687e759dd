//! The form of a map, from a JSON value.
ghost use Rattle.std.specs.Prelude.{◌≡◌, Some, None, codes, map, string_bytes, IfOk, IfErr};
ghost use Rattle.std.specs.BTreeMap.{keys};
ghost use Rattle.std.specs.List.{list_all};
ghost use Rattle.serde_json.specs.Find.{as_str, get};
ghost use Rattle.serde_json.specs.View.{view};
ghost use Rattle.stream_map.specs.Form.{has_only, is_map_key, is_pool_key, listed, program_of, name_in_data, names_in_data, count_in_data, workers_in_data, pool_of, map_in_data};
ghost use Rattle.stream_map.specs.Faults.{Only};
ghost use Rattle.stream_map.specs.Spelled.{shown_pool_text};
ghost use Rattle.stream_map.specs.declared.fault.MapFault.TheVariants.{Shape};

use crate::fault::MapFault;
use crate::pool_text::{PoolText, is_program};
use serde_json::{Map, Value};
use std::alloc::Global;
use task_model::{Name, Seq};

/// Whether the key is that of a map.
#[tactic(auto, unfolding(crate::specs::Form::is_map_key))]
fn is_map_key(key: &str) -> bool
    ensures { result ≡ is_map_key key.now }
{
    key == "pools"
}

/// Whether the key is one of a pool.
#[tactic(auto, unfolding(crate::specs::Form::is_pool_key))]
fn is_pool_key(key: &str) -> bool
    ensures { result ≡ is_pool_key key.now }
{
    key == "run" || key == "workers" || key == "streams"
}

/// Whether each member's key is that of a map.
fn has_map_keys(members: &Map<String, Value>) -> bool
    ensures { result ≡ list_all (λ key. is_map_key (string_bytes key)) (keys members.now) }
{
    for key in members.keys() {
        if !is_map_key(key.as_str()) {
            return false;
        }
    }
    true
}

/// Whether each member's key is one of a pool.
fn has_pool_keys(members: &Map<String, Value>) -> bool
    ensures { result ≡ list_all (λ key. is_pool_key (string_bytes key)) (keys members.now) }
{
    for key in members.keys() {
        if !is_pool_key(key.as_str()) {
            return false;
        }
    }
    true
}

/// Whether the value is an object with no other key than `pools`.
fn is_map_object(value: &Value) -> bool
    ensures { result ≡ has_only is_map_key (view value.now) }
{
    match value.as_object() {
        Some(members) => has_map_keys(members),
        None => false,
    }
}

/// Whether the value is an object with no other keys than a pool's.
fn is_pool_object(value: &Value) -> bool
    ensures { result ≡ has_only is_pool_key (view value.now) }
{
    match value.as_object() {
        Some(members) => has_pool_keys(members),
        None => false,
    }
}

/// A text.
fn text_of(alloc: Global, value: &Value) -> Result<String, MapFault>
    ensures text { IfOk result (λ text. as_str (view value.now) ≡ Some (string_bytes text)) }
    ensures other { IfErr result (Only Shape (as_str (view value.now) ≡ None)) }
{
    let text = value.as_str().ok_or(MapFault::Shape)?;
    Ok(String::from_str(alloc, text)?)
}

/// The texts of a list.
fn texts_of(alloc: Global, value: &Value) -> Result<Vec<String>, MapFault>
    ensures texts { IfOk result
        (λ texts. listed as_str (view value.now) ≡ Some (map string_bytes texts.items)) }
    ensures other { IfErr result (Only Shape (listed as_str (view value.now) ≡ None)) }
{
    let items = value.as_array().ok_or(MapFault::Shape)?;
    let mut texts = Vec::new(alloc);
    for item in items {
        texts.push(text_of(alloc, item)?)?;
    }
    Ok(texts)
}

/// The words of a program.
fn program_of(alloc: Global, value: &Value) -> Result<Seq<String>, MapFault>
    ensures words { IfOk result
        (λ words. program_of (view value.now) ≡ Some (map string_bytes words)) }
    ensures other { IfErr result (Only Shape (program_of (view value.now) ≡ None)) }
{
    let words = texts_of(alloc, value)?;
    if !is_program(words.as_slice()) {
        return Err(MapFault::Shape);
    }
    Ok(Seq::from_vec(words))
}

/// A name in lower case.
fn name_of(alloc: Global, value: &Value) -> Result<Name, MapFault>
    ensures name { IfOk result (λ name. name_in_data (view value.now) ≡ Some name) }
    ensures other { IfErr result (Only Shape (name_in_data (view value.now) ≡ None)) }
{
    let text = value.as_str().ok_or(MapFault::Shape)?;
    Ok(Name::new(text.as_bytes().to_ascii_lowercase(alloc)?))
}

/// The names of streams, one at least.
fn names_of(alloc: Global, value: &Value) -> Result<Seq<Name>, MapFault>
    ensures names { IfOk result (λ names. names_in_data (view value.now) ≡ Some names) }
    ensures other { IfErr result (Only Shape (names_in_data (view value.now) ≡ None)) }
{
    let items = value.as_array().ok_or(MapFault::Shape)?;
    let mut names = Vec::new(alloc);
    for item in items {
        names.push(name_of(alloc, item)?)?;
    }
    if names.is_empty() {
        return Err(MapFault::Shape);
    }
    Ok(Seq::from_vec(names))
}

/// An integer of 64 bits, where a negative one counts as 0; None where the value is none.
fn count_of(value: &Value) -> Option<u64>
    ensures { result ≡ count_in_data (view value.now) }
{
    match value.as_u64() {
        Some(count) => Some(count),
        None => value.as_i64().map(|_| 0),
    }
}

/// The number of workers: 1 where none is given.
fn workers_of(value: &Value) -> Option<u64>
    ensures { result ≡ workers_in_data (get (codes "workers") (view value.now)) }
{
    match value.get("workers") {
        Some(number) => count_of(number),
        None => Some(1),
    }
}

/// A pool.
fn pool_of(alloc: Global, value: &Value) -> Result<PoolText, MapFault>
    ensures pool { IfOk result (λ pool. pool_of (view value.now) ≡ Some (shown_pool_text pool)) }
    ensures other { IfErr result (Only Shape (pool_of (view value.now) ≡ None)) }
{
    if !is_pool_object(value) {
        return Err(MapFault::Shape);
    }
    let run = value.get("run").ok_or(MapFault::Shape)?;
    let streams = value.get("streams").ok_or(MapFault::Shape)?;
    let workers = workers_of(value).ok_or(MapFault::Shape)?;
    Ok(PoolText {
        run: program_of(alloc, run)?,
        workers,
        streams: names_of(alloc, streams)?,
    })
}

/// The pools of a map.
pub(crate) fn map_of(alloc: Global, value: &Value) -> Result<Vec<PoolText>, MapFault>
    ensures pools { IfOk result
        (λ pools. map_in_data (view value.now) ≡ Some (map shown_pool_text pools.items)) }
    ensures other { IfErr result (Only Shape (map_in_data (view value.now) ≡ None)) }
{
    if !is_map_object(value) {
        return Err(MapFault::Shape);
    }
    let list = value.get("pools").ok_or(MapFault::Shape)?;
    let items = list.as_array().ok_or(MapFault::Shape)?;
    let mut pools = Vec::new(alloc);
    for item in items {
        pools.push(pool_of(alloc, item)?)?;
    }
    Ok(pools)
}
