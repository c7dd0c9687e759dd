//! The head of a report.
ghost use Rattle.std.specs.Prelude.{◌≡◌, ◌+◌, ◌<◌, ◌≤◌, List, ◌++◌, length, map, take, slice_get, IfErr, IfOk, IfSome, IfNone, false, true};
ghost use Rattle.std.specs.List.{filter_map, list_any};
ghost use Rattle.pools.specs.Pools.{shares_of};
ghost use Rattle.replay_check.specs.Headed.{IsAfter, IsHeaded};
ghost use Rattle.replay_check.specs.Heads.{AreFitPoolLines, are_fit_limits as limits_fit, are_new, are_served as all_served, is_fit_pool, share_in};
ghost use Rattle.task_model.specs.Fit.{IsFit};
ghost use Rattle.task_model.specs.Known.{same_numbers};
ghost use Rattle.transcript_model.specs.Names.{stream_named as stream_at};
ghost use Rattle.transcript_model.specs.declared.head.PoolLine.{PoolLine as AnyPool};
ghost use Rattle.io_world.specs.declared.host.TheConstants.{CHILDREN};

use io_world::CHILDREN;
use pools::Workers;
use shown_steps::stream_named;
use std::alloc::{AllocError, Global};
use task_model::{MOST_STATES, Name, Seq, Task};
use transcript_model::{MOST_CALLS, MOST_DEPTH, PoolLine, Report, WORKERS};

/// What is said of a head.
#[derive(Drop)]
pub(crate) enum Headed {
    /// It fits the task, and has these pools; the children of each have the numbers behind those of
    /// the pools before it.
    Fits(Vec<Workers>),
    /// It breaks a rule first in this line.
    Breaks(usize),
}

/// Whether the limits are in their ranges.
fn are_fit_limits(report: &Report) -> bool
    ensures { result ≡ limits_fit report.now }
{
    1 <= report.calls
        && report.calls <= MOST_CALLS
        && 1 <= report.states
        && report.states <= MOST_STATES
        && 1 <= report.depth
        && report.depth <= MOST_DEPTH
}

/// The streams of a pool, behind those that were served before; None where one isn't the task's or
/// was served before.
fn streams_of(
    alloc: Global,
    task: &Task,
    served: &mut Vec<u32>,
    names: &[Name],
) -> Result<Option<Vec<u32>>, AllocError>
    requires { IsFit task.now }
    ensures some { IfOk result (λ found. IfSome found
        (λ streams. (are_new task.now served.old.items names.now ≡ true)
        × (streams.items ≡ filter_map (stream_at task.now) names.now)
        × (served.new.items ≡ served.old.items ++ streams.items))) }
    ensures none { IfOk result (λ found. IfNone found
        (are_new task.now served.old.items names.now ≡ false)) }
{
    let mut streams = Vec::new(alloc);
    for name in names {
        let Some(stream) = stream_named(task, name.bytes()) else {
            return Ok(None);
        };
        if served.iter().any(|s| *s == stream) {
            return Ok(None);
        }
        served.push(stream)?;
        streams.push(stream)?;
    }
    Ok(Some(streams))
}

/// What the pools before have.
#[derive(Drop)]
pub(crate) struct Before {
    pub(crate) pools: Vec<Workers>,
    pub(crate) served: Vec<u32>,
    pub(crate) workers: u32,
}

impl Before {
    ghost use Rattle.replay_check.specs.Headed.{IsPassed};

    /// Adds the next pool, and answers whether it fits.
    fn add(&mut self, alloc: Global, task: &Task, pool: &PoolLine) -> Result<bool, AllocError>
        requires fit { IsFit task.now }
        requires few { self.old.workers ≤ CHILDREN }
        ensures { (before : List AnyPool) → IsAfter task.now before self.old
            → IfOk result (IsPassed task.now before pool.now self.new) }
    {
        let first = self.workers as u8;
        let workers = pool.workers;
        self.workers += workers as u32;
        if workers < 1 || workers > WORKERS || self.workers > CHILDREN as u32 {
            return Ok(false);
        }
        let names = pool.streams.as_slice();
        let Some(streams) = streams_of(alloc, task, &mut self.served, names)? else {
            return Ok(false);
        };
        let streams = Seq::from_vec(streams);
        let pool = Workers::new(alloc, first, workers, streams, task.streams.len())?;
        self.pools.push(pool)?;
        Ok(true)
    }
}

/// Whether the name is one of these.
fn has_name(names: &[Name], name: &[u8]) -> bool
    ensures { result ≡ list_any (same_numbers name.now) names.now }
{
    names.iter().any(|n| name == n.bytes())
}

/// Whether a pool has the stream of this name.
fn is_served(pools: &[PoolLine], name: &[u8]) -> bool
    ensures { result ≡ list_any (λ p. list_any (same_numbers name.now) p.streams) pools.now }
{
    pools.iter().any(|p| has_name(p.streams.as_slice(), name))
}

/// Whether a pool has each stream of the task.
fn are_served(task: &Task, pools: &[PoolLine]) -> bool
    ensures { result ≡ all_served task.now pools.now }
{
    task.streams
        .as_slice()
        .iter()
        .all(|s| is_served(pools, s.name.bytes()))
}

/// The pools, if each fits behind those before it; else the place of the first that doesn't.
fn judge_pools(
    alloc: Global,
    task: &Task,
    pools: &[PoolLine],
) -> Result<Result<Vec<Workers>, usize>, AllocError>
    requires { IsFit task.now }
    ensures fit { IfOk result (λ judged. IfOk judged
        (λ all. AreFitPoolLines task.now pools.now
        × (shares_of all.items ≡ map (share_in task.now) pools.now))) }
    ensures wrong { IfOk result (λ judged. IfErr judged
        (λ place. AreFitPoolLines task.now (take place pools.now)
        × IfSome (slice_get pools.now place)
        (λ pool. is_fit_pool task.now (take place pools.now) pool ≡ false))) }
    ensures there { IfOk result (λ judged. IfErr judged (λ place. place < length pools.now)) }
{
    let mut before = Before {
        pools: Vec::new(alloc),
        served: Vec::new(alloc),
        workers: 0,
    };
    for (place, pool) in pools.iter().enumerate() {
        if !before.add(alloc, task, pool)? {
            return Ok(Err(place));
        }
    }
    Ok(Ok(before.pools))
}

/// Whether the head fits the task, and if not, its first line that breaks a rule.
pub(crate) fn judge_head(alloc: Global, task: &Task, report: &Report) -> Result<Headed, AllocError>
    requires { IsFit task.now }
    ensures { IfOk result (IsHeaded task.now report.now) }
{
    if !are_fit_limits(report) {
        return Ok(Headed::Breaks(2));
    }
    let pools = report.pools.as_slice();
    let workers = match judge_pools(alloc, task, pools)? {
        Ok(workers) => workers,
        Err(place) => return Ok(Headed::Breaks(place + 3)),
    };
    if !are_served(task, pools) {
        return Ok(Headed::Breaks(pools.len() + 3));
    }
    Ok(Headed::Fits(workers))
}
