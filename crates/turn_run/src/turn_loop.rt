//! Turns of a mode, one after another.
ghost use Rattle.std.specs.Prelude.{◌≡◌, ℕ, false, length, OnOk};
ghost use Rattle.turn_run.specs.Advancing.{IsFreshMode, OnTurns};
ghost use Rattle.turn_run.specs.Deciding.{IsHeadFor};
ghost use Rattle.round_run.specs.Desk.{RestsAt};
ghost use Rattle.round_run.specs.Told.{stretch, host_told};
ghost use Rattle.session_core.specs.Session.{IsNew};

use crate::decide::{Decision, decide};
use crate::turns::{Turned, Turns};
use io_world::{Host, Sink};
use round_run::{Desk, RunFault};
use transcript_model::{LimitKind, Outcome};

/// Goes on, turn by turn, until the run has an outcome.
pub(crate) fn run_turns<M: Turns, H: Host, O: Sink>(
    desk: &mut Desk<'_>,
    mode: &mut M,
    host: &mut H,
    out: &mut O,
) -> Result<Outcome, RunFault>
    requires mode { IsHeadFor M.mode M.cheapest desk.old.head }
    requires fresh { IsFreshMode (M.kept mode.old) (M.idle mode.old) (M.holds mode.old) }
    requires first { IsNew desk.old.task desk.old.state }
    requires rests { RestsAt desk.old (host_told H.Host host.old) }
    ensures goes { OnTurns desk.old desk.new (stretch H.Host O.Sink host.old host.new out.old
        out.new) result }
    ensures idle { OnOk result
        (length desk.new.state.asked ≡ 0 → (k : ℕ) → H.running host.new k ≡ false) }
{
    'turns: loop {
        let decision = decide(desk, mode)?;
        let dues = match decision {
            Decision::Ends(outcome) => return Ok(outcome),
            Decision::Asks(dues) => dues,
        };
        match mode.turn(desk, host, out, dues.as_slice())? {
            Turned::Done => {}
            Turned::Spent => return Ok(Outcome::Limit(LimitKind::Calls)),
            Turned::Known(outcome) => return Ok(outcome),
        }
    }
}
