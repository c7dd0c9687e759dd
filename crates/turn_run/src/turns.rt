//! What a mode does in a turn.
ghost use Rattle.std.specs.Prelude.{ℕ};
ghost use Rattle.turn_run.specs.Advancing.{StandsBetween, OnModeTurn};
ghost use Rattle.turn_run.specs.Deciding.{IsHeadFor};
ghost use Rattle.round_run.specs.Desk.{RestsAt};
ghost use Rattle.round_run.specs.Told.{stretch, host_told};
ghost use Rattle.turn_run.specs.Turns.{IsTurnAt};
ghost use Rattle.transcript_model.specs.Turns.{Kept};
ghost use Rattle.transcript_model.specs.declared.head.Mode.{Mode};

use crate::search::PlanSearch;
use instance_queue::Due;
use io_world::{Host, Sink};
use round_run::{Desk, RunFault};
use transcript_model::Outcome;

/// How a turn ends.
#[derive(Drop)]
pub enum Turned {
    /// It is whole, and the run goes on.
    Done,
    /// The calls are spent, and an ask is left.
    Spent,
    /// Nothing was asked, and the run ends with this outcome.
    Known(Outcome),
}

/// What a mode does in a turn: where a turn is needed, something is due and a call is left.
pub trait Turns: PlanSearch {
    ghost mode: { Mode };
    // What is carried from turn to turn.
    ghost kept: { Self → Kept };
    // How many turns may still ask nothing.
    ghost idle: { Self → ℕ };
    // What holds between turns besides, where so much was asked.
    ghost holds: { Self → ℕ → Type 0 };

    /// Does a turn, where these instances are due.
    ///
    /// # Errors
    /// `Answer` where the line that answers a request is no answer; `Generator` and `Write` only
    /// where the host's or the sink's count of faults rose in this call; `Memory`. Afterwards the
    /// desk may only be looked at.
    fn turn<H: Host, O: Sink>(
        &mut self,
        desk: &mut Desk<'_>,
        host: &mut H,
        out: &mut O,
        dues: &[Due],
    ) -> Result<Turned, RunFault>
        requires mode { IsHeadFor mode Self.cheapest desk.old.head }
        requires rests { RestsAt desk.old (host_told H.Host host.old) }
        requires turn { IsTurnAt desk.old dues.now }
        requires fits { StandsBetween (holds self.old) (idle self.old) desk.old.state }
        ensures goes { OnModeTurn desk.old desk.new (stretch H.Host O.Sink host.old host.new out.old
            out.new) (kept self.old) (kept self.new) (idle self.old) (idle self.new) (holds
            self.new) result };
}
