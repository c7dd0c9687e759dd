//! Sessions with one pool, and rounds that are played from the events of a line.
ghost use Rattle.std.specs.Prelude.{◌≡◌, ◌≤◌, ◌∷◌, [], length, drop, true, false, IfOk, OnOk};
ghost use Rattle.lemmas.specs.Lists.{numbers_from};
ghost use Rattle.session_core.specs.Ready.{AreReady};
ghost use Rattle.session_core.specs.Session.{IsFitHead};
ghost use Rattle.session_core.specs.Slots.{all_answered};
ghost use Rattle.task_model.specs.Fit.{IsFit};
ghost use Rattle.plan_rows.specs.Played.{IsWorkingSession, IsRoundKept};
ghost use Rattle.transcript_model.specs.declared.limits.TheConstants.{MOST_CALLS, WORKERS};

use crate::fault::Fault;
use gen_lines::LINE_LENGTH;
use instance_queue::Due;
use session_core::Session;
use std::alloc::{AllocError, Global};
use task_model::{Seq, Task};
use test_rows::{first_word, number};
use transcript_model::{Head, MOST_CALLS, Mode, Pool, WORKERS};

/// The streams of the task.
fn streams(alloc: Global, task: &Task) -> Result<Seq<u32>, AllocError>
    requires { length task.now.streams ≤ 99 }
    ensures { IfOk result (λ all. all ≡ numbers_from 0 (length task.now.streams)) }
{
    let mut all = Vec::new(alloc);
    for place in 0..task.streams.len() {
        all.push(place as u32)?;
    }
    Ok(Seq::from_vec(all))
}

/// One pool of so many workers, which serves all streams.
fn pools(alloc: Global, task: &Task, workers: u8) -> Result<Seq<Pool>, AllocError>
    requires { length task.now.streams ≤ 99 }
    ensures { IfOk result (λ pools. pools
        ≡ record {
          first = 0;
          workers = workers;
          streams = numbers_from 0 (length task.now.streams);
          argv = [];
        } ∷ []) }
{
    let streams = streams(alloc, task)?;
    let pool = Pool {
        first: 0,
        workers,
        streams,
        argv: Seq::from_vec(Vec::new(alloc)),
    };
    Ok(Seq::from_vec(vec![in alloc; pool]?))
}

/// The head of a run with one pool of so many workers, and at most so many calls. Fails only where
/// memory is wanting.
fn head(
    alloc: Global,
    task: &Task,
    version: u8,
    calls: u32,
    workers: u8,
) -> Result<Head, AllocError>
    requires streams { length task.now.streams ≤ 99 }
    requires some_version { 1 ≤ version }
    requires version { version ≤ 2 }
    requires some_calls { 1 ≤ calls }
    requires calls { calls ≤ MOST_CALLS }
    requires some_workers { 1 ≤ workers }
    requires workers { workers ≤ WORKERS }
    ensures { IfOk result (IsFitHead task.now) }
{
    let pools = pools(alloc, task, workers)?;
    Ok(Head {
        version,
        mode: Mode::Incremental,
        calls,
        states: 1,
        depth: 1,
        optimal: false,
        pools,
    })
}

/// A session of the task, with one pool of so many workers.
pub(crate) fn begin(
    alloc: Global,
    task: &Task,
    version: u8,
    calls: u32,
    workers: u8,
) -> Result<Box<Session>, Fault>
    requires { IsFit task.now }
    ensures { IfOk result (λ session. IsWorkingSession task.now session.value) }
{
    if version < 1
        || version > 2
        || calls < 1
        || calls > MOST_CALLS
        || workers < 1
        || workers > WORKERS
    {
        return Err(Fault::Unfit);
    }
    if task.streams.len() > 99 {
        return Err(Fault::Unfit);
    }
    let head = Box::new(alloc, head(alloc, task, version, calls, workers)?)?;
    Ok(Box::new(alloc, Session::new(alloc, task, &head)?)?)
}

/// Lets an event come, if it may: `send CHILD`, that the child's request is written, or
/// `say CHILD LINE`, that the child says this line. Answers whether it might, and the session works
/// still.
fn happen(session: &mut Session, event: &[u8]) -> bool
    requires works { session.old.failed ≡ false }
    ensures { result ≡ true → IsRoundKept session.old session.new }
{
    let (verb, rest) = first_word(event);
    let (child, line) = first_word(rest);
    let child = u8::try_from(number(child)).unwrap_or(u8::MAX);
    if verb == b"say".as_slice() {
        if !session.is_awaited(child) || line.len() > LINE_LENGTH {
            return false;
        }
        session.line(child, line);
    } else {
        if !session.is_unsent(child) {
            return false;
        }
        session.sent(child);
    }
    !session.failed()
}

/// Lets the events of a round come, which semicolons part, and answers whether they all might, and
/// the session works still.
pub(crate) fn happen_all(session: &mut Session, events: &[u8]) -> bool
    requires works { session.old.failed ≡ false }
    ensures { result ≡ true → IsRoundKept session.old session.new }
{
    for event in events.split(|byte| *byte == b';') {
        let event = match event {
            [b' ', rest @ ..] => rest,
            _ => event,
        };
        if !happen(session, event) {
            return false;
        }
    }
    true
}

/// Lets the events of a round come, and answers whether they all might and each request is
/// answered.
fn play(session: &mut Session, events: &[u8]) -> bool
    requires works { session.old.failed ≡ false }
    ensures same { result ≡ true → IsRoundKept session.old session.new }
    ensures answered { result ≡ true → all_answered session.new.slots ≡ true }
{
    happen_all(session, events) && session.is_answered()
}

/// Plays a round of the first of these asks. Answers how many they were.
fn round(task: &Task, session: &mut Session, dues: &[Due], events: &[u8]) -> Result<usize, Fault>
    requires stands { IsWorkingSession task.now session.old }
    requires ready { AreReady task.now session.old.entries dues.now }
    ensures within { IfOk result (λ count. count ≤ length dues.now) }
    ensures stands { IfOk result (λ count. IsWorkingSession task.now session.new) }
    ensures rest { IfOk result (λ count. AreReady task.now session.new.entries
        (drop count dues.now)) }
{
    let count = session.next_round(dues);
    session.begin_round(task, &dues[..count])?;
    if !play(session, events) {
        return Err(Fault::Unplayed);
    }
    session.close_round();
    session.learn(task)?;
    Ok(count)
}

/// Plays a level in rounds: the events of each are a line.
pub(crate) fn level(task: &Task, session: &mut Session, rounds: &[u8]) -> Result<(), Fault>
    requires stands { IsWorkingSession task.now session.old }
    ensures stands { OnOk result (IsWorkingSession task.now session.new) }
{
    let dues = session.due(task)?;
    let mut rest = dues.as_slice();
    for events in rounds.split(|byte| *byte == b'\n') {
        if events.is_empty() {
            continue;
        }
        let count = round(task, session, rest, events)?;
        rest = rest.split_at(count).1;
    }
    if rest.is_empty() {
        Ok(())
    } else {
        Err(Fault::Unplayed)
    }
}

/// The events of a round in which each child says one of these lines, in order.
fn replies(alloc: Global, lines: &[u8]) -> Result<Vec<u8>, AllocError> {
    let mut events = Vec::new(alloc);
    let mut child: u8 = 0;
    for line in lines.split(|byte| *byte == b'\n') {
        if !line.is_empty() {
            let verbs = format!(in alloc; "send {child}; say {child} ")?;
            if child > 0 {
                events.extend_from_slice(b"; ")?;
            }
            events.extend_from_slice(verbs.as_bytes())?;
            events.extend_from_slice(line)?;
            child = child.saturating_add(1);
        }
    }
    Ok(events)
}

/// Plays a level in one round, in which each child says one of these lines.
pub(crate) fn answered_level(
    alloc: Global,
    task: &Task,
    session: &mut Session,
    lines: &[u8],
) -> Result<(), Fault>
    requires { IsWorkingSession task.now session.old }
    ensures { OnOk result (IsWorkingSession task.now session.new) }
{
    let events = replies(alloc, lines)?;
    level(task, session, events.as_slice())
}
