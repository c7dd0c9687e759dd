//! Turns that begin with a dream.
ghost use Rattle.solve_run.specs.OnDesk.{IsDreamAt, OnFocused};
ghost use Rattle.std.specs.Prelude.{◌≡◌, ⊤, [], false};
ghost use Rattle.solve_run.specs.Focusing.{HasCallLeft, MayFallBack, carried, idle_of};
ghost use Rattle.round_run.specs.Desk.{RestsAt};
ghost use Rattle.round_run.specs.Told.{stretch, host_told};
ghost use Rattle.transcript_model.specs.declared.head.Mode.{Mode};

use crate::dreamless::without_dream;
use crate::dreamt::{LinedDream, NextDream, next_dream};
use crate::finders::ByEstimate;
use best_first::Found;
use instance_queue::Due;
use io_world::{Host, Sink};
use optimistic_set::Tried;
use std::alloc::AllocError;
use turn_run::{Desk, PlanSearch, RunFault, Situation, Turned, Turns};

/// What a mode asks of a dream, which keeps no dreams.
pub(crate) trait DreamBatches {
    ghost mode: { Mode };

    /// Says what was dreamt, and asks what the mode asks of it, as long as calls are left. What is
    /// asked was tried then.
    ///
    /// # Errors
    /// `Answer` where the line that answers a request is no answer; `Generator` and `Write` only
    /// where the host's or the sink's count of faults rose in this call; `Memory`. Afterwards the
    /// desk may only be looked at.
    fn ask<H: Host, O: Sink>(
        &self,
        desk: &mut Desk<'_>,
        host: &mut H,
        out: &mut O,
        tried: &mut Tried,
        dream: LinedDream,
    ) -> Result<Turned, RunFault>
        requires mode { desk.old.head.mode ≡ mode }
        requires rests { RestsAt desk.old (host_told H.Host host.old) }
        requires room { HasCallLeft desk.old.head desk.old.state }
        requires dream { IsDreamAt desk.old tried.old dream }
        ensures goes { OnFocused desk.old desk.new (stretch H.Host O.Sink host.old host.new out.old
            out.new) tried.old tried.new result };

    // A turn of the mode falls back where there is no dream.
    ghost falls_back: { MayFallBack mode [] };
}

/// A mode that keeps no dreams: a turn begins with a dream, of which batches are asked, or falls
/// back where there is none. What was asked in dreams is carried on until it is forgotten.
#[derive(Drop)]
pub(crate) struct DreamTurns<B: DreamBatches> {
    pub(crate) tried: Tried,
    pub(crate) batches: B,
}

impl<B: DreamBatches> PlanSearch for DreamTurns<B> {
    ghost cheapest = { false };

    fn find(&self, situation: &Situation<'_>) -> Result<Option<Found>, AllocError> {
        ByEstimate.find(situation)
    }
}

impl<B: DreamBatches> Turns for DreamTurns<B> {
    ghost mode = { B.mode };

    ghost kept = { λ m. carried m.tried };

    ghost idle = { λ m. idle_of m.tried };

    ghost holds = { λ m asked. ⊤ };

    fn turn<H: Host, O: Sink>(
        &mut self,
        desk: &mut Desk<'_>,
        host: &mut H,
        out: &mut O,
        dues: &[Due],
    ) -> Result<Turned, RunFault> {
        let tried = &mut self.tried;
        let dreamt = next_dream(desk, tried)?;
        match dreamt {
            NextDream::Known(outcome) => Ok(Turned::Known(outcome)),
            NextDream::Lined(dream) => self.batches.ask(desk, host, out, tried, dream),
            NextDream::Empty => without_dream(desk, host, out, tried, dues),
        }
    }
}
