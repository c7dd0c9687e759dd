//! Children that say something before it is their turn, and sessions that fail: each in the first
//! round of two children.
ghost use Rattle.std.specs.Prelude.{◌≡◌, true, false, IfOk};
ghost use Rattle.session_core.specs.Session.{IsSession};
ghost use Rattle.task_model.specs.Fit.{IsFit};

use crate::fault::Fault;
use crate::session::{begin, happen_all};
use gen_lines::LINE_LENGTH;
use session_core::{Heard, Session};
use std::alloc::{AllocError, Global};
use std::fmt::Write;
use task_model::Task;

/// A session whose first round of two children is open.
fn opened(alloc: Global, task: &Task) -> Result<Box<Session>, Fault>
    requires { IsFit task.now }
    ensures session { IfOk result (λ session. IsSession task.now session.value) }
    ensures works { IfOk result (λ session. session.value.failed ≡ false) }
{
    let mut session = begin(alloc, task, 1, 100_000, 2)?;
    let dues = session.due(task)?;
    let count = session.next_round(dues.as_slice());
    session.begin_round(task, &dues.as_slice()[..count])?;
    Ok(session)
}

/// A session whose first round of two children is open, after these events.
fn played(alloc: Global, task: &Task, events: &[u8]) -> Result<Box<Session>, Fault>
    requires { IsFit task.now }
    ensures session { IfOk result (λ session. IsSession task.now session.value) }
    ensures works { IfOk result (λ session. session.value.failed ≡ false) }
{
    let mut session = opened(alloc, task)?;
    if happen_all(&mut session, events) {
        Ok(session)
    } else {
        Err(Fault::Unplayed)
    }
}

/// Adds whether children 0 and 1 are awaited after these events.
pub(crate) fn add_awaited(
    alloc: Global,
    task: &Task,
    events: &[u8],
    out: &mut String,
) -> Result<(), Fault>
    requires { IsFit task.now }
{
    let session = played(alloc, task, events)?;
    let (first, second) = (session.is_awaited(0), session.is_awaited(1));
    Ok(write!(out, "awaited {first} {second}\n")?)
}

/// Adds what a session answers that has failed.
fn add_failed(task: &Task, session: &mut Session, out: &mut String) -> Result<(), AllocError>
    requires session { IsSession task.now session.old }
    requires failed { session.old.failed ≡ true }
{
    let begun = session.begin_round(task, &[]).err();
    let learnt = session.learn(task).err();
    let (failed, entries) = (session.failed(), session.entries().len());
    write!(
        out,
        "begun {begun:?} learnt {learnt:?} failed {failed} entries {entries}\n"
    )
}

/// Adds what this line of child 1 is taken as, and what the session answers then. It fails by the
/// line.
fn mislead(task: &Task, session: &mut Session, line: &[u8], out: &mut String) -> Result<(), Fault>
    requires session { IsSession task.now session.old }
    requires works { session.old.failed ≡ false }
{
    if !session.is_awaited(1) || line.len() > LINE_LENGTH {
        return Err(Fault::Unfit);
    }
    let heard = session.line(1, line);
    if !session.failed() {
        return Err(Fault::Unplayed);
    }
    match heard {
        Heard::Bad { number, why } => write!(out, "bad {number} {why:?}\n")?,
        Heard::Taken { number } => write!(out, "taken {number}\n")?,
    }
    Ok(add_failed(task, session, out)?)
}

/// The same in the first round of two children.
pub(crate) fn add_misled(
    alloc: Global,
    task: &Task,
    line: &[u8],
    out: &mut String,
) -> Result<(), Fault>
    requires { IsFit task.now }
{
    let mut session = played(alloc, task, b"send 0; send 1")?;
    mislead(task, &mut session, line, out)
}

/// Adds the number of the ask whose answer of child 0 is too long, and what the session answers
/// then.
pub(crate) fn add_too_long(alloc: Global, task: &Task, out: &mut String) -> Result<(), Fault>
    requires { IsFit task.now }
{
    let mut session = played(alloc, task, b"send 0")?;
    if !session.is_awaited(0) {
        return Err(Fault::Unfit);
    }
    let number = session.too_long(0);
    write!(out, "too long {number}\n")?;
    Ok(add_failed(task, &mut session, out)?)
}
