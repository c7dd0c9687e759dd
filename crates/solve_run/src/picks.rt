//! Picks of skeletons.
ghost use Rattle.solve_run.specs.OnDesk.{MayPickAt, OnBehindPick, OnPick, carried_by};
ghost use Rattle.std.specs.Prelude.{◌≡◌};
ghost use Rattle.solve_run.specs.Skeletons.{IsPickLine};
ghost use Rattle.round_run.specs.Desk.{RestsAt};
ghost use Rattle.round_run.specs.Told.{stretch, host_told};
ghost use Rattle.transcript_model.specs.declared.head.Mode.TheVariants.{Adaptive};

use crate::adaptive_mode::AdaptiveTurns;
use crate::batches::Needs;
use crate::behind::run_behind;
use crate::dreamless::turned;
use io_world::{Host, Sink};
use skeletons::count;
use transcript_model::Entry;
use turn_run::{Desk, RunFault, Turned};

impl AdaptiveTurns {
    /// Takes up the skeleton at this place, and runs its batches from the beginning, as far as
    /// calls are left. It is counted; and where nothing of it was left to ask it is given up.
    fn pick<H: Host, O: Sink>(
        &mut self,
        desk: &mut Desk<'_>,
        host: &mut H,
        out: &mut O,
        place: usize,
    ) -> Result<Turned, RunFault>
        requires mode { desk.old.head.mode ≡ Adaptive }
        requires rests { RestsAt desk.old (host_told H.Host host.old) }
        requires may { MayPickAt desk.old self.old place }
        ensures goes { OnPick desk.old desk.new (stretch H.Host O.Sink host.old host.new out.old
            out.new) (carried_by self.old) (carried_by self.new) result }
    {
        let number = place as u32 + 1;
        let made = desk.session().asks();
        let list = self.skeletons.as_slice();
        let skeleton = &list[place];
        let entries = skeleton.entries.as_slice();
        let real = skeleton.real;
        let needs = Needs { entries, real };
        let line = Entry::Pick(number);
        let ended = run_behind(desk, host, out, &mut self.tried, line, &needs)?;
        let now = desk.session().asks();
        if now != made {
            count(&mut self.skeletons, place, false);
            return Ok(turned(ended));
        }
        desk.mark(out, Entry::Retire(number))?;
        count(&mut self.skeletons, place, true);
        Ok(Turned::Done)
    }

    /// Says what was dreamt, or that nothing was, and takes up the skeleton at this place.
    pub(crate) fn pick_behind<H: Host, O: Sink>(
        &mut self,
        desk: &mut Desk<'_>,
        host: &mut H,
        out: &mut O,
        line: Entry,
        place: usize,
    ) -> Result<Turned, RunFault>
        requires mode { desk.old.head.mode ≡ Adaptive }
        requires rests { RestsAt desk.old (host_told H.Host host.old) }
        requires line { IsPickLine line }
        requires may { MayPickAt desk.old self.old place }
        ensures goes { OnBehindPick desk.old desk.new (stretch H.Host O.Sink host.old host.new
            out.old out.new) (carried_by self.old) (carried_by self.new) line result }
    {
        desk.mark(out, line)?;
        self.pick(desk, host, out, place)
    }
}
