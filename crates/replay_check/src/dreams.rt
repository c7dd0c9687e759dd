//! The lines of dreams.
ghost use Rattle.std.specs.Prelude.{◌≡◌, ◌<◌, Some, length, slice_get, IfOk, OnOk};
ghost use Rattle.replay_check.specs.Standings.{AreBounds};
ghost use Rattle.replay_check.specs.Turns.{AsksOnce, GoesOnBehind, RunsDream};
ghost use Rattle.replay_check.specs.Walks.{CanTake, IsEntryTaken};
ghost use Rattle.transcript_model.specs.declared.entry.Entry.TheVariants as entry;

use crate::bounds::Bounds;
use crate::finding::Finding;
use crate::standing::Standing;
use crate::verdict::BreachKind;
use dream_asks::first_asks;
use dream_check::{Dreamed, Point, judge_dream};
use optimistic_set::OptEntry;
use std::alloc::AllocError;
use transcript_model::{Call, DreamUse, Entry, Mode};

impl Standing {
    /// Begins the one batch of a dream with these entries.
    fn ask_once(&mut self, bounds: &Bounds<'_>, dream: &[OptEntry]) -> Result<(), AllocError>
        requires bounds { AreBounds bounds.now }
        requires left { length self.old.knowledge.asked.items < bounds.now.calls }
        ensures { OnOk result (AsksOnce bounds.now dream.now self.old self.new) }
    {
        let knowledge = &self.knowledge;
        let real = knowledge.facts.name_count();
        let asks = first_asks(
            bounds.alloc,
            bounds.task,
            &knowledge.facts,
            &knowledge.queue,
            dream,
            real,
        )?;
        let before = knowledge.asked.len() as u32;
        self.course
            .begin_dream(bounds.pools, asks, before, bounds.calls)
    }

    /// Begins the first of the batches of a dream with these entries, whose line is the last of so
    /// many entries.
    fn run_dream(
        &mut self,
        bounds: &Bounds<'_>,
        dream: Vec<OptEntry>,
        from: usize,
    ) -> Result<(), AllocError>
        requires bounds { AreBounds bounds.now }
        requires left { length self.old.knowledge.asked.items < bounds.now.calls }
        ensures { OnOk result (RunsDream bounds.now from dream.items self.old self.new) }
    {
        let real = self.knowledge.facts.name_count();
        let before = self.knowledge.asked.len() as u32;
        let point = bounds.point(&self.knowledge);
        self.course.follow_dream(&point, dream, real, from, before)
    }

    /// Goes on behind a dream with these entries, whose line is the last of so many entries: with
    /// its one batch, with the first of several, or it is kept.
    fn go_on(
        &mut self,
        bounds: &Bounds<'_>,
        dream: Vec<OptEntry>,
        from: usize,
    ) -> Result<(), AllocError>
        requires bounds { AreBounds bounds.now }
        requires left { length self.old.knowledge.asked.items < bounds.now.calls }
        ensures { OnOk result (GoesOnBehind bounds.now.mode bounds.now from dream.items self.old
            self.new) }
    {
        match bounds.mode {
            Mode::Incremental | Mode::Focused => self.ask_once(bounds, dream.as_slice()),
            Mode::Binding => self.run_dream(bounds, dream, from),
            Mode::Adaptive => {
                let real = self.knowledge.facts.name_count();
                self.course.keep_dream(dream, real)
            }
        }
    }

    /// Takes the dream at this place.
    pub(crate) fn take_dream(
        &mut self,
        bounds: &Bounds<'_>,
        uses: &[DreamUse],
        steps: &[Call],
        entries: &[Entry],
        place: usize,
    ) -> Result<Finding, AllocError>
        requires can { CanTake bounds.now entries.now place self.old }
        requires here { slice_get entries.now place ≡ Some (entry.Dream uses.now steps.now) }
        ensures { IfOk result (IsEntryTaken bounds.now entries.now place self.new) }
    {
        if uses.is_empty() || !self.may_dream(bounds)? {
            return Ok(Finding::Breaks(0, BreachKind::Order));
        }
        let tried = self.course.tried();
        let point = Point {
            task: bounds.task,
            knowledge: &self.knowledge,
            tried,
            depth: bounds.depth,
        };
        let dreamed = judge_dream(bounds.alloc, &point, uses, steps)?;
        let line = match dreamed {
            Dreamed::Right(dream) => {
                self.go_on(bounds, dream, place + 1)?;
                return Ok(Finding::Holds);
            }
            Dreamed::Use(used) => used + 1,
            Dreamed::Step(step) => uses.len() + step + 1,
            Dreamed::Last => uses.len() + steps.len(),
        };
        Ok(Finding::Breaks(line, BreachKind::Dream))
    }
}
