//! The lines by which skeletons are picked and given up.
ghost use Rattle.std.specs.Prelude.{◌≡◌, ◌+◌, ◌<◌, ◌↔◌, Some, length, slice_get, IfOk, IsTrue, OnOk};
ghost use Rattle.replay_check.specs.Standings.{AreBounds};
ghost use Rattle.replay_check.specs.Turns.{RunsPick};
ghost use Rattle.replay_check.specs.Walks.{CanTake, IsEntryTaken};
ghost use Rattle.task_model.specs.declared.limits.TheConstants.{LARGEST_COUNT};
ghost use Rattle.transcript_model.specs.Turns.{Skeleton};
ghost use Rattle.transcript_model.specs.declared.entry.Entry.TheVariants as entry;

use crate::bounds::Bounds;
use crate::finding::Finding;
use crate::standing::Standing;
use crate::verdict::BreachKind;
use std::alloc::AllocError;
use transcript_model::Entry;

/// Whether this is the number of the skeleton at this place: they are counted from 1.
fn is_number_of(number: u32, skeleton: usize) -> bool
    ensures { IsTrue result ↔ (number ≡ skeleton + 1) }
{
    0 < number && number as usize - 1 == skeleton
}

impl Standing {
    /// Begins the batches of the skeleton at this place, the line of whose pick is the last of so
    /// many entries.
    fn run_pick(
        &mut self,
        bounds: &Bounds<'_>,
        skeleton: usize,
        from: usize,
    ) -> Result<(), AllocError>
        requires bounds { AreBounds bounds.now }
        requires place { (s : Skeleton)
            × (slice_get self.old.course.kept.skeletons skeleton ≡ Some s)
            × (s.picks < LARGEST_COUNT) }
        requires left { length self.old.knowledge.asked.items < bounds.now.calls }
        ensures { (s : Skeleton) → slice_get self.old.course.kept.skeletons skeleton ≡ Some s
            → OnOk result (RunsPick bounds.now from skeleton s self.old self.new) }
    {
        let before = self.knowledge.asked.len() as u32;
        let point = bounds.point(&self.knowledge);
        self.course.pick(&point, skeleton, from, before)
    }

    /// Takes the line at this place by which the skeleton of this number is picked.
    pub(crate) fn take_pick(
        &mut self,
        bounds: &Bounds<'_>,
        number: u32,
        entries: &[Entry],
        place: usize,
    ) -> Result<Finding, AllocError>
        requires can { CanTake bounds.now entries.now place self.old }
        requires here { slice_get entries.now place ≡ Some (entry.Pick number) }
        ensures { IfOk result (IsEntryTaken bounds.now entries.now place self.new) }
    {
        match self.next_pick(bounds) {
            Some(skeleton) if is_number_of(number, skeleton) => {
                self.run_pick(bounds, skeleton, place + 1)?;
                Ok(Finding::Holds)
            }
            _ => Ok(Finding::Breaks(0, BreachKind::Order)),
        }
    }

    /// Takes the line at this place by which the skeleton of this number is given up.
    pub(crate) fn take_retire(
        &mut self,
        bounds: &Bounds<'_>,
        number: u32,
        entries: &[Entry],
        place: usize,
    ) -> Finding
        requires can { CanTake bounds.now entries.now place self.old }
        requires here { slice_get entries.now place ≡ Some (entry.Retire number) }
        ensures { IsEntryTaken bounds.now entries.now place self.new result }
    {
        match self.course.next_retired() {
            Some(given_up) if is_number_of(number, given_up) => {
                self.course.retire();
                Finding::Holds
            }
            _ => Finding::Breaks(0, BreachKind::Order),
        }
    }
}
