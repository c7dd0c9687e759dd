//! Pools with the places of their streams and the numbers of their children.
ghost use Rattle.std.specs.Prelude.{◌≡◌, ◌≤◌, ◌+◌, Some, None, map, length, IfOk, IfErr, OnOk, false, true};
ghost use Rattle.std.specs.List.{list_any};
ghost use Rattle.stream_map.specs.Children.{plain, numbered_pools};
ghost use Rattle.stream_map.specs.Faults.{Only, Refused, map_fault, have_wrong_workers, is_grid, names_unknown, stream_place};
ghost use Rattle.stream_map.specs.Form.{each_of, all_stream_names};
ghost use Rattle.stream_map.specs.Spelled.{shown_pool_text};
ghost use Rattle.stream_map.specs.declared.fault.MapFault.TheVariants.{Unknown};
ghost use Rattle.task_model.specs.Fit.{IsFit};

use crate::fault::MapFault;
use crate::names::StreamNames;
use crate::pool_text::PoolText;
use crate::served::served_fault;
use crate::workers::{have_wrong_workers, is_grid};
use std::alloc::Global;
use task_model::{Name, Seq, Task};
use transcript_model::Pool;

/// The child that is the generator in the process.
pub const GRID_CHILD: u8 = 16;

/// The places of streams with these names.
fn places_of(alloc: Global, names: &StreamNames, wanted: &[Name]) -> Result<Seq<u32>, MapFault>
    requires { length names.now ≤ 8388608 }
    ensures places { IfOk result
        (λ places. each_of (stream_place names.now) wanted.now ≡ Some places) }
    ensures unknown { IfErr result
        (Only Unknown (each_of (stream_place names.now) wanted.now ≡ None)) }
{
    let mut places = Vec::new(alloc);
    for name in wanted {
        let place = names.place_of(name.bytes()).ok_or(MapFault::Unknown)?;
        places.push(place as u32)?;
    }
    Ok(Seq::from_vec(places))
}

/// The pools, whose streams are looked up among these names; the first child that isn't the grid
/// has the number 0.
fn placed_pools(
    alloc: Global,
    names: &StreamNames,
    texts: Vec<PoolText>,
) -> Result<Vec<Pool>, MapFault>
    requires few { length names.now ≤ 8388608 }
    requires workers { have_wrong_workers (map shown_pool_text texts.items) ≡ false }
    ensures known { OnOk result (list_any (names_unknown names.now) (map shown_pool_text texts.items)
        ≡ false) }
    ensures pools { IfOk result
        (λ pools. map plain pools.items ≡ numbered_pools names.now 0 (map shown_pool_text texts.items)) }
    ensures unknown { IfErr result
        (Only Unknown (list_any (names_unknown names.now) (map shown_pool_text texts.items) ≡ true)) }
{
    let mut pools = Vec::new(alloc);
    let mut next = 0;
    for text in texts {
        let grid = is_grid(&text);
        let PoolText {
            run,
            workers,
            streams,
        } = text;
        let workers = workers as u8;
        let streams = places_of(alloc, names, streams.as_slice())?;
        let first = if grid { GRID_CHILD } else { next };
        pools.push(Pool {
            first,
            workers,
            streams,
            argv: run,
        })?;
        if !grid {
            next += workers;
        }
    }
    Ok(pools)
}

/// The pools that a map spells, or their first fault.
pub(crate) fn pools_of(
    alloc: Global,
    task: &Task,
    texts: Vec<PoolText>,
) -> Result<Seq<Pool>, MapFault>
    requires fit { IsFit task.now }
    ensures right { OnOk result
        (map_fault (all_stream_names task.now) (map shown_pool_text texts.items) ≡ None) }
    ensures pools { IfOk result
        (λ pools. map plain pools
        ≡ numbered_pools (all_stream_names task.now) 0 (map shown_pool_text texts.items)) }
    ensures refused { IfErr result (Refused (all_stream_names task.now)
        (Some (map shown_pool_text texts.items))) }
{
    if have_wrong_workers(texts.as_slice()) {
        return Err(MapFault::Workers);
    }
    let names = StreamNames::of(alloc, task)?;
    let pools = placed_pools(alloc, &names, texts)?;
    match served_fault(alloc, names.len(), pools.as_slice())? {
        Some(fault) => Err(fault),
        None => Ok(Seq::from_vec(pools)),
    }
}
