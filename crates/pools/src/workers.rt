//! The workers of pools, and which of their children is asked.
ghost use Rattle.std.specs.Prelude.{◌≡◌, ◌≤◌, ◌==◌, ℕ, List, [], ◌∷◌, ◌++◌, IfOk, length, option_copied, count_by, map};
ghost use Rattle.std.specs.List.{list_any};
ghost use Rattle.instance_queue.specs.Level.{due_instances};
ghost use Rattle.pools.specs.Served.{AreStreamsMarked};
ghost use Rattle.pools.specs.Pools.{IsChild, workers_of, server as server_of, child_for, asked_streams};

use instance_queue::Due;
use std::alloc::{AllocError, Global};
use std::marker::Model;
use task_model::Seq;
use transcript_model::Pool;

/// What is kept of a pool: its children, and the streams that they answer for, each of which is
/// found without going through the others.
#[derive(Drop)]
pub struct Workers {
    first: u8,
    workers: u8,
    streams: Seq<u32>,
    served: Vec<bool>,
}

impl Model for Workers {
    ghost use Rattle.pools.specs.Pools.{Workers};
    ghost use Rattle.pools.specs.Served.{AreStreamsMarked};

    ghost Value = { Workers };

    ghost view = { λ w. record { first = w.first; workers = w.workers; streams = w.streams } };

    ghost invariant = { λ w. AreStreamsMarked w.streams w.served.items };
}

impl Workers {
    ghost use Rattle.pools.specs.Pools.{has_stream, share_of_workers};
    ghost use Rattle.transcript_model.specs.Rounds.{serves as serves_instance};

    /// A pool: the number of its first child, how many workers it has, 1 to 16, which have the
    /// numbers from that on, and its streams, by their places among so many of the task. Fails only
    /// where memory is wanting.
    pub fn new(
        alloc: Global,
        first: u8,
        workers: u8,
        streams: Seq<u32>,
        count: usize,
    ) -> Result<Workers, AllocError>
        ensures { IfOk result (λ pool. pool
            ≡ record { first = first; workers = workers; streams = streams }) }
    {
        let served = marked(alloc, streams.as_slice(), count)?;
        Ok(Workers {
            first,
            workers,
            streams,
            served,
        })
    }

    /// How many workers it has.
    pub(crate) fn count(&self) -> u8
        ensures { result ≡ self.now.workers }
    {
        self.workers
    }

    /// Whether the pool answers for the stream.
    pub(crate) fn serves(&self, stream: u32) -> bool
        ensures { result ≡ has_stream self.now stream }
    {
        if (stream as usize) < self.served.len() {
            return self.served[stream as usize];
        }
        is_among(self.streams.as_slice(), stream)
    }

    /// How many of these asks the pool answers.
    pub(crate) fn served(&self, dues: &[Due]) -> usize
        ensures count { result ≡ count_by (serves_instance (share_of_workers self.now))
            (due_instances dues.now) }
        ensures few { result ≤ length dues.now }
    {
        dues.iter()
            .filter(|due| self.serves(due.instance.stream))
            .count()
    }
}

/// Whether the stream is one of these.
fn is_among(streams: &[u32], stream: u32) -> bool
    ensures { result ≡ list_any (λ s. s == stream) streams.now }
{
    streams.iter().any(|s| *s == stream)
}

/// Marks a stream, if there is a mark for it.
fn mark(marks: &mut Vec<bool>, stream: u32)
    ensures { (before : List ℕ) → AreStreamsMarked before marks.old.items
        → AreStreamsMarked (before ++ stream ∷ []) marks.new.items }
{
    if (stream as usize) < marks.len() {
        marks[stream as usize] = true;
    }
}

/// Which of so many streams are among these. Fails only where memory is wanting.
fn marked(alloc: Global, streams: &[u32], count: usize) -> Result<Vec<bool>, AllocError>
    ensures { IfOk result (λ marks. AreStreamsMarked streams.now marks.items) }
{
    let mut marks = vec![in alloc; false; count]?;
    for stream in streams {
        mark(&mut marks, *stream);
    }
    Ok(marks)
}

/// The workers of a head's pools, in their order, where the task has so many streams. Fails only
/// where memory is wanting.
pub fn workers_in(alloc: Global, pools: &[Pool], count: usize) -> Result<Vec<Workers>, AllocError>
    ensures { IfOk result (λ all. all.items ≡ map workers_of pools.now) }
{
    let mut all = Vec::new(alloc);
    for pool in pools {
        let streams = Seq::from_vec(Vec::from_slice(alloc, pool.streams.as_slice())?);
        let pool = Workers::new(alloc, pool.first, pool.workers, streams, count)?;
        all.push(pool)?;
    }
    Ok(all)
}

/// The first pool that answers for the stream.
fn server(pools: &[Workers], stream: u32) -> Option<&Workers>
    ensures { option_copied result ≡ server_of pools.now stream }
{
    for pool in pools {
        if pool.serves(stream) {
            return Some(pool);
        }
    }
    None
}

/// The number of the child for an ask of this stream, after these asks of the same round: of the
/// pool that answers for the stream, the first child that has none of them. It is 0 where no pool
/// does.
pub fn child_of(pools: &[Workers], before: &[Due], stream: u32) -> u8
    requires { IsChild (child_for pools.now (asked_streams before.now) stream) }
    ensures { result ≡ child_for pools.now (asked_streams before.now) stream }
{
    match server(pools, stream) {
        Some(pool) => pool.first + pool.served(before) as u8,
        None => 0,
    }
}
