//! The lines of levels, of the want of a dream, and by which what was tried is forgotten.
ghost use Rattle.std.specs.Prelude.{◌≡◌, Some, slice_get, IfOk};
ghost use Rattle.replay_check.specs.Walks.{CanTake, IsEntryTaken};
ghost use Rattle.transcript_model.specs.declared.entry.Entry.TheVariants as entry;

use crate::bounds::Bounds;
use crate::finding::Finding;
use crate::standing::Standing;
use crate::verdict::BreachKind;
use dream_check::{Point, judge_none};
use std::alloc::AllocError;
use transcript_model::Entry;

impl Standing {
    /// Takes the line of a level at this place: a turn of incremental mode begins with it, or there
    /// is no dream, no skeleton to pick, and nothing was tried.
    pub(crate) fn take_level(
        &mut self,
        bounds: &Bounds<'_>,
        entries: &[Entry],
        place: usize,
    ) -> Result<Finding, AllocError>
        requires can { CanTake bounds.now entries.now place self.old }
        requires here { slice_get entries.now place ≡ Some entry.Level }
        ensures { IfOk result (IsEntryTaken bounds.now entries.now place self.new) }
    {
        if !self.asks_level(bounds) {
            return Ok(Finding::Breaks(0, BreachKind::Order));
        }
        let Some(dues) = self.turn_dues(bounds)? else {
            return Ok(Finding::Breaks(0, BreachKind::Order));
        };
        let before = self.knowledge.asked.len() as u32;
        self.course
            .begin_level(bounds.pools, dues, before, bounds.calls);
        Ok(Finding::Holds)
    }

    /// Takes the want of a dream at this place.
    pub(crate) fn take_none(
        &mut self,
        bounds: &Bounds<'_>,
        entries: &[Entry],
        place: usize,
    ) -> Result<Finding, AllocError>
        requires can { CanTake bounds.now entries.now place self.old }
        requires here { slice_get entries.now place ≡ Some entry.Nothing }
        ensures { IfOk result (IsEntryTaken bounds.now entries.now place self.new) }
    {
        if !self.may_dream(bounds)? {
            return Ok(Finding::Breaks(0, BreachKind::Order));
        }
        let tried = self.course.tried();
        let point = Point {
            task: bounds.task,
            knowledge: &self.knowledge,
            tried,
            depth: bounds.depth,
        };
        let is_true = judge_none(bounds.alloc, &point, bounds.states, bounds.limit)?;
        match is_true {
            Some(true) => {
                self.course.say_none();
                Ok(Finding::Holds)
            }
            Some(false) => Ok(Finding::Breaks(0, BreachKind::Outcome)),
            None => Ok(Finding::Open),
        }
    }

    /// Takes the line at this place by which what was tried is forgotten.
    pub(crate) fn take_reset(
        &mut self,
        bounds: &Bounds<'_>,
        entries: &[Entry],
        place: usize,
    ) -> Finding
        requires can { CanTake bounds.now entries.now place self.old }
        requires here { slice_get entries.now place ≡ Some entry.Reset }
        ensures { IsEntryTaken bounds.now entries.now place self.new result }
    {
        if !self.has_nothing(bounds) || self.course.tried().is_empty() {
            return Finding::Breaks(0, BreachKind::Order);
        }
        self.course.reset();
        Finding::Holds
    }
}
