//! What happens in a session before the questions of a row, and their answers.
ghost use Rattle.std.specs.Prelude.{IfOk, OnOk};
ghost use Rattle.plan_rows.specs.Played.{IsWorkingSession};
ghost use Rattle.task_model.specs.Fit.{IsFit};

use crate::dreams::{push_dream, push_list};
use crate::fault::Fault;
use crate::judged::add_judged;
use crate::print::push_bytes;
use crate::session::{answered_level, begin, level};
use crate::store::add_value_of;
use crate::turns::{add_awaited, add_misled, add_too_long};
use dreaming::dream;
use optimistic_set::{OptimisticFault, Tried, are_real, optimistic};
use report_text::entry_text;
use session_core::Session;
use std::alloc::{AllocError, Global};
use std::fmt::Write;
use task_model::Task;
use test_rows::{Part, first_word, number};
use transcript_model::Entry;

/// How deep entries are supposed, and how many states are searched: by a run, and by a judge.
#[derive(Clone, Copy)]
pub(crate) struct Bounds {
    pub(crate) depth: u8,
    pub(crate) states: u32,
    pub(crate) limit: u32,
}

/// The instance that is due at this place, from 1, was tried.
fn add_tried(task: &Task, session: &Session, tried: &mut Tried, place: usize) -> Result<(), Fault>
    requires { IsWorkingSession task.now session.now }
{
    let dues = session.due(task)?;
    match dues.get(place.saturating_sub(1)) {
        Some(due) => Ok(tried.add(&due.instance)?),
        None => Err(Fault::Unfit),
    }
}

/// Adds the list, or how many entries it has.
fn add_list(
    alloc: Global,
    task: &Task,
    session: &Session,
    tried: &Tried,
    depth: u8,
    counts: bool,
    out: &mut String,
) -> Result<(), Fault>
    requires { IsFit task.now }
{
    let facts = session.facts();
    if !are_real(facts.names()) || task.problem.objects.len() > facts.names().len() {
        return Err(Fault::Unfit);
    }
    let depth = u32::from(depth);
    match optimistic(alloc, task, facts, session.queue(), tried, depth) {
        Ok(supposed) => {
            let supposed = Box::new(alloc, supposed)?;
            if counts {
                let count = supposed.len();
                return Ok(write!(out, "{count} entries\n")?);
            }
            Ok(push_list(out, task, &supposed)?)
        }
        Err(OptimisticFault::TooManyEntries) => Ok(out.push_str("too many\n")?),
        Err(OptimisticFault::Memory) => Err(Fault::Memory),
    }
}

/// Adds the dream.
fn add_dream(
    alloc: Global,
    task: &Task,
    session: &Session,
    tried: &Tried,
    bounds: Bounds,
    out: &mut String,
) -> Result<(), Fault>
    requires { IsWorkingSession task.now session.now }
{
    let states = bounds.states.clamp(1, 200_000);
    let dreamt = dream(alloc, task, session, tried, bounds.depth, states)?;
    let dreamt = Box::new(alloc, dreamt)?;
    Ok(push_dream(out, &dreamt)?)
}

/// Adds the lines of the transcript.
fn add_transcript(alloc: Global, session: &Session, out: &mut String) -> Result<(), AllocError> {
    for entry in session.entries() {
        let line = entry_text(alloc, entry)?;
        push_bytes(out, line.as_slice())?;
    }
    Ok(())
}

/// A level begins, which is marked and learnt.
fn mark(task: &Task, session: &mut Session) -> Result<(), Fault>
    requires { IsWorkingSession task.now session.old }
    ensures { OnOk result (IsWorkingSession task.now session.new) }
{
    session.mark(Entry::Level)?;
    Ok(session.learn(task)?)
}

/// Adds how many asks the next round has.
fn add_next(task: &Task, session: &Session, out: &mut String) -> Result<(), Fault>
    requires { IsWorkingSession task.now session.now }
{
    let dues = session.due(task)?;
    let count = session.next_round(dues.as_slice());
    Ok(write!(out, "next {count}\n")?)
}

/// What one part of a row asks is answered.
fn answer_part(
    alloc: Global,
    task: &Task,
    part: &Part,
    session: &Session,
    tried: &Tried,
    bounds: Bounds,
    out: &mut String,
) -> Result<(), Fault>
    requires fit { IsFit task.now }
    requires session { IsWorkingSession task.now session.now }
{
    match part.key.as_str() {
        "list" => add_list(alloc, task, session, tried, bounds.depth, false, out),
        "count" => add_list(alloc, task, session, tried, bounds.depth, true, out),
        "dream" => add_dream(alloc, task, session, tried, bounds, out),
        "judge" => add_judged(alloc, out, task, tried, bounds, part.text.as_slice()),
        "transcript" => Ok(add_transcript(alloc, session, out)?),
        "value" => add_value_of(session.facts(), part.rest.as_slice(), out),
        "asks" => {
            let count = session.asks();
            Ok(write!(out, "asks {count}\n")?)
        }
        "next" => add_next(task, session, out),
        "awaited" => add_awaited(alloc, task, part.rest.as_slice(), out),
        "misled" => add_misled(alloc, task, part.rest.as_slice(), out),
        "too_long" => add_too_long(alloc, task, out),
        _ => Err(Fault::Unfit),
    }
}

/// What one part of a row says is done, or answered.
fn tell_part(
    alloc: Global,
    task: &Task,
    part: &Part,
    session: &mut Session,
    tried: &mut Tried,
    bounds: &mut Bounds,
    out: &mut String,
) -> Result<(), Fault>
    requires fit { IsFit task.now }
    requires session { IsWorkingSession task.now session.old }
    ensures { OnOk result (IsWorkingSession task.now session.new) }
{
    let count = number(part.rest.as_slice());
    match part.key.as_str() {
        "domain" | "problem" | "streams" | "begin" => Ok(()),
        "depth" => {
            bounds.depth = u8::try_from(count).unwrap_or(0);
            Ok(())
        }
        "states" => {
            bounds.states = count;
            Ok(())
        }
        "limit" => {
            bounds.limit = count;
            Ok(())
        }
        "level" => answered_level(alloc, task, session, part.text.as_slice()),
        "rounds" => level(task, session, part.text.as_slice()),
        "mark" => mark(task, session),
        "tried" => add_tried(task, session, tried, count as usize),
        _ => answer_part(alloc, task, part, session, tried, *bounds, out),
    }
}

/// The session that a row begins with: `begin VERSION CALLS WORKERS`, or one of version 1 with 1000
/// calls and 16 workers.
fn session_of(alloc: Global, task: &Task, parts: &[Part]) -> Result<Box<Session>, Fault>
    requires { IsFit task.now }
    ensures { IfOk result (λ session. IsWorkingSession task.now session.value) }
{
    let mut line = b"1 1000 16".as_slice();
    for part in parts {
        if part.key.as_str() == "begin" {
            line = part.rest.as_slice();
        }
    }
    let (version, rest) = first_word(line);
    let (calls, workers) = first_word(rest);
    let version = u8::try_from(number(version)).unwrap_or(0);
    let workers = u8::try_from(number(workers)).unwrap_or(0);
    begin(alloc, task, version, number(calls), workers)
}

/// Adds what comes of the parts of a row, one after another.
pub(crate) fn tell_session(
    alloc: Global,
    task: &Task,
    parts: &[Part],
    out: &mut String,
) -> Result<(), Fault>
    requires { IsFit task.now }
{
    let mut session = session_of(alloc, task, parts)?;
    let mut tried = Box::new(alloc, Tried::new(alloc))?;
    let mut bounds = Bounds {
        depth: 3,
        states: 100_000,
        limit: 100_000,
    };
    for part in parts {
        tell_part(
            alloc,
            task,
            part,
            &mut session,
            &mut tried,
            &mut bounds,
            out,
        )?;
    }
    Ok(())
}
