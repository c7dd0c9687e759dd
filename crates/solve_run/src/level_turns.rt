//! Turns each of which is a whole level.
ghost use Rattle.std.specs.Prelude.{⊤};
ghost use Rattle.turn_laws.specs.Modes.{nothing_kept};
ghost use Rattle.transcript_model.specs.declared.head.Mode.TheVariants.{Incremental};

use best_first::Found;
use instance_queue::Due;
use io_world::{Host, Sink};
use std::alloc::AllocError;
use transcript_model::Entry;
use turn_run::{Batch, Desk, PlanSearch, RunFault, Situation, Turned, Turns, ask_behind};

/// Incremental mode: each turn is a whole level, all that is due, as long as calls are left, and
/// nothing is carried on.
#[derive(Drop)]
pub(crate) struct LevelTurns<S: PlanSearch> {
    /// How plans are looked for.
    pub(crate) search: S,
}

impl<S: PlanSearch> PlanSearch for LevelTurns<S> {
    ghost cheapest = { S.cheapest };

    fn find(&self, situation: &Situation<'_>) -> Result<Option<Found>, AllocError> {
        self.search.find(situation)
    }
}

impl<S: PlanSearch> Turns for LevelTurns<S> {
    ghost mode = { Incremental };

    ghost kept = { λ mode. nothing_kept };

    ghost idle = { λ mode. 0 };

    ghost holds = { λ mode asked. ⊤ };

    fn turn<H: Host, O: Sink>(
        &mut self,
        desk: &mut Desk<'_>,
        host: &mut H,
        out: &mut O,
        dues: &[Due],
    ) -> Result<Turned, RunFault> {
        match ask_behind(desk, host, out, Entry::Level, dues)? {
            Batch::Done => Ok(Turned::Done),
            Batch::CallsSpent => Ok(Turned::Spent),
        }
    }
}
