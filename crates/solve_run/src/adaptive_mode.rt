//! Adaptive mode.
ghost use Rattle.solve_run.specs.OnDesk.{HasNoDreamAt, IsDreamAt, KeepsAt, OnAdaptive, carried_by};
ghost use Rattle.std.specs.Prelude.{false};
ghost use Rattle.solve_run.specs.Skeletons.{AreFewKept, idle_with};
ghost use Rattle.solve_run.specs.Focusing.{BeginsFocusedTurn, HasCallLeft};
ghost use Rattle.turn_run.specs.Reporting.{EndsRun, MayRun};
ghost use Rattle.round_run.specs.Desk.{RestsAt};
ghost use Rattle.round_run.specs.Told.{stretch, host_told};
ghost use Rattle.skeletons.specs.Skeletons.{skeletons_in};
ghost use Rattle.transcript_model.specs.declared.head.Mode.TheVariants.{Adaptive};

use crate::dreamless::without_dream;
use crate::dreamt::{LinedDream, NextDream, next_dream};
use crate::finders::ByEstimate;
use best_first::Found;
use instance_queue::Due;
use io_world::{Host, Sink};
use optimistic_set::Tried;
use skeletons::{Skeleton, keep, pick_of};
use std::alloc::{AllocError, Global};
use task_model::Task;
use transcript_model::{Entry, Head};
use turn_run::{Desk, PlanSearch, Ran, RunFault, Situation, Turned, Turns, run_mode};

/// Adaptive mode: each dream is kept, and turns go by how often each was picked. What was asked is
/// carried on until it is forgotten.
#[derive(Drop)]
pub(crate) struct AdaptiveTurns {
    pub(crate) tried: Tried,
    pub(crate) skeletons: Vec<Skeleton>,
}

impl AdaptiveTurns {
    /// Keeps the dream as the last skeleton, says what was dreamt, and takes it up.
    fn with_new<H: Host, O: Sink>(
        &mut self,
        desk: &mut Desk<'_>,
        host: &mut H,
        out: &mut O,
        dream: LinedDream,
    ) -> Result<Turned, RunFault>
        requires keeps { KeepsAt desk.old self.old }
        requires rests { RestsAt desk.old (host_told H.Host host.old) }
        requires room { HasCallLeft desk.old.head desk.old.state }
        requires dream { IsDreamAt desk.old self.old.tried dream }
        ensures goes { OnAdaptive desk.old desk.new (stretch H.Host O.Sink host.old host.new out.old
            out.new) self.old self.new result }
    {
        let real = desk.session().facts().name_count();
        let place = self.skeletons.len();
        keep(&mut self.skeletons, dream.entries, real)?;
        self.pick_behind(desk, host, out, dream.line, place)
    }

    /// Says that nothing was dreamt, and takes up a skeleton; where all are given up it falls back.
    fn without_new<H: Host, O: Sink>(
        &mut self,
        desk: &mut Desk<'_>,
        host: &mut H,
        out: &mut O,
        dues: &[Due],
    ) -> Result<Turned, RunFault>
        requires keeps { KeepsAt desk.old self.old }
        requires rests { RestsAt desk.old (host_told H.Host host.old) }
        requires begins { BeginsFocusedTurn desk.old.task desk.old.head desk.old.state dues.now }
        requires none { HasNoDreamAt desk.old self.old.tried }
        ensures goes { OnAdaptive desk.old desk.new (stretch H.Host O.Sink host.old host.new out.old
            out.new) self.old self.new result }
    {
        match pick_of(self.skeletons.as_slice()) {
            Some(place) => self.pick_behind(desk, host, out, Entry::Nothing, place),
            None => without_dream(desk, host, out, &mut self.tried, dues),
        }
    }
}

impl PlanSearch for AdaptiveTurns {
    ghost cheapest = { false };

    fn find(&self, situation: &Situation<'_>) -> Result<Option<Found>, AllocError> {
        ByEstimate.find(situation)
    }
}

impl Turns for AdaptiveTurns {
    ghost mode = { Adaptive };

    ghost kept = { carried_by };

    ghost idle = { λ m. idle_with (skeletons_in m.skeletons.items) m.tried };

    ghost holds = { λ m asked. AreFewKept (skeletons_in m.skeletons.items) asked };

    fn turn<H: Host, O: Sink>(
        &mut self,
        desk: &mut Desk<'_>,
        host: &mut H,
        out: &mut O,
        dues: &[Due],
    ) -> Result<Turned, RunFault> {
        let dreamt = next_dream(desk, &self.tried)?;
        match dreamt {
            NextDream::Known(outcome) => Ok(Turned::Known(outcome)),
            NextDream::Lined(dream) => self.with_new(desk, host, out, dream),
            NextDream::Empty => self.without_new(desk, host, out, dues),
        }
    }
}

/// Solves a task in adaptive mode and writes the report (PDDLStream 2020; which skeleton is picked,
/// and when one is given up, is this project's). While no plan exists over what is known, a plan is
/// dreamt over all that may be supposed and kept as a skeleton, or none is found; then the skeleton
/// that was picked least is taken up from its beginning: what it needs is asked, batch by batch. It
/// is given up where nothing of it is left to ask. Where there is no dream and all skeletons are
/// given up, what was tried is forgotten, and where nothing was, all that is due is asked. No child
/// runs before, and none afterwards; that a child fails to stop changes nothing.
///
/// # Errors
/// `Answer` where the line that answers a request is no answer, with the request's number;
/// `Generator` and `Write` only where the host's or the sink's count of faults rose in this call;
/// `Memory`. The lines that were written stay.
pub fn adaptive<H: Host, O: Sink>(
    alloc: Global,
    task: &Task,
    head: &Head,
    host: &mut H,
    out: &mut O,
) -> Result<Ran, RunFault>
    requires may { MayRun Adaptive task.now head.now (H.running host.old) }
    ensures ran { EndsRun task.now head.now (stretch H.Host O.Sink host.old host.new out.old
        out.new) result }
{
    let mut mode = AdaptiveTurns {
        tried: Tried::new(alloc),
        skeletons: Vec::new(alloc),
    };
    run_mode(alloc, task, head, &mut mode, host, out)
}
