//! Where in a turn a transcript stands.
ghost use Rattle.task_model.specs.declared.limits.TheConstants.{LARGEST_COUNT};
ghost use Rattle.transcript_model.specs.declared.limits.TheConstants.{MOST_CALLS};

use crate::batch::BatchCourse;
use crate::copied::copies;
use crate::point::BatchPoint;
use crate::running::Running;
use dream_asks::dues_of;
use instance_queue::Due;
use optimistic_set::{OptEntry, Tried};
use pools::Workers;
use skeletons::{Skeleton, count, keep, pick_of};
use std::alloc::{AllocError, Global};
use std::marker::Model;
use task_model::Instance;
use transcript_model::Entry;

/// What comes where nothing of the batch is open any more.
#[derive(Clone, Copy)]
enum Phase {
    /// The next turn.
    Resting,
    /// What follows where there is no dream: what was tried is forgotten, a level is asked, or a
    /// skeleton is picked.
    Undreamt,
    /// What follows where a dream was kept: a skeleton is picked.
    Dreamt,
    /// The next batch of the dream that is run, or the next turn.
    Repeated,
    /// The skeleton at this place is given up.
    Unasked(usize),
}

/// What the open turn has still to do, and what is carried from turn to turn: a batch of asks, cut
/// into rounds, what comes behind it, the instances that were tried and the dreams that are kept
/// (PDDLStream 2020; which turns there are is this project's). The instances that a batch of a
/// dream asks count as tried from where it begins.
#[derive(Drop)]
pub struct ModeCourse {
    batch: BatchCourse,
    phase: Phase,
    tried: Tried,
    skeletons: Vec<Skeleton>,
    /// The dream whose batches were run last.
    run: Running,
    alloc: Global,
}

impl Model for ModeCourse {
    ghost use Rattle.course_check.specs.Agendas.{ModeAgenda, shown_mode};

    ghost Value = { ModeAgenda };

    ghost view = { shown_mode };
}

impl ModeCourse {
    ghost use Rattle.std.specs.Prelude.{◌≡◌, ℕ, ◌+◌, ◌-◌, ◌<◌, ◌≤◌, ◌&&◌, [], true, length, take, slice_get, option_copied, Some, IfSome, IfNone, OnOk};
    ghost use Rattle.std.specs.List.{list_all};
    ghost use Rattle.instance_queue.specs.Level.{due_instances};
    ghost use Rattle.course_check.specs.BatchAgendas.{IsAnswered, is_over, with_asked};
    ghost use Rattle.course_check.specs.Agendas.{BeginsBatch, going_on, is_dreamt, is_resting, is_to_settle, is_undreamt, nothing_begun, phase_of, with_agenda, with_run};
    ghost use Rattle.course_check.specs.Moves.{MovesAt, PicksAt, SettlesAt};
    ghost use Rattle.course_check.specs.Places.{awaits_line, dreamt, forgetting, joining, keeping, resting, unasked, undreamt};
    ghost use Rattle.course_check.specs.Running.{made_by};
    ghost use Rattle.pools.specs.Pools.{shares_of};
    ghost use Rattle.transcript_model.specs.Turns.{IsPicked, Skeleton as Kept};

    /// Before the first turn.
    pub fn new(alloc: Global) -> ModeCourse
        ensures { result ≡ nothing_begun }
    {
        ModeCourse {
            batch: BatchCourse::new(alloc),
            phase: Phase::Resting,
            tried: Tried::new(alloc),
            skeletons: Vec::new(alloc),
            run: Running::none(alloc),
            alloc,
        }
    }

    /// Whether a turn may begin, or any outcome may stand: no turn is open, and calls weren't
    /// wanting.
    pub fn is_between(&self) -> bool
        ensures { result ≡ (is_over self.now.batch && is_resting self.now.phase) }
    {
        self.batch.is_between() && matches!(self.phase, Phase::Resting)
    }

    /// Whether the want of a dream was the last entry: what was tried is to be forgotten, a level
    /// to be asked, or a skeleton to be picked.
    pub fn is_undreamt(&self) -> bool
        ensures { result ≡ (is_over self.now.batch && is_undreamt self.now.phase) }
    {
        self.batch.is_between() && matches!(self.phase, Phase::Undreamt)
    }

    /// Whether a dream that is kept was the last entry: a skeleton is to be picked.
    pub fn is_dreamt(&self) -> bool
        ensures { result ≡ (is_over self.now.batch && is_dreamt self.now.phase) }
    {
        self.batch.is_between() && matches!(self.phase, Phase::Dreamt)
    }

    /// Whether a line of the open turn comes, which is neither a request nor an answer.
    pub fn awaits_line(&self) -> bool
        ensures { result ≡ (is_over self.now.batch && awaits_line self.now.phase) }
    {
        let awaits = match self.phase {
            Phase::Resting | Phase::Repeated => false,
            Phase::Undreamt | Phase::Dreamt | Phase::Unasked(_) => true,
        };
        self.batch.is_between() && awaits
    }

    /// The place of the skeleton that is to be given up, if one is.
    pub fn next_retired(&self) -> Option<usize>
        ensures some { IfSome result (λ place. (self.now.phase ≡ unasked place)
            × (is_over self.now.batch ≡ true)) }
        ensures none { IfNone result ((place : ℕ) → is_over self.now.batch ≡ true
            → ¬ (self.now.phase ≡ unasked place)) }
    {
        match self.phase {
            Phase::Unasked(place) if self.batch.is_between() => Some(place),
            _ => None,
        }
    }

    /// The place of the skeleton that is picked next, or None where all are given up.
    pub fn next_pick(&self) -> Option<usize>
        ensures some { IfSome result
            (λ place. (s : Kept) × IsPicked self.now.kept.skeletons place s) }
        ensures none { IfNone result
            (list_all (λ (s : Kept). s.retired) self.now.kept.skeletons ≡ true) }
    {
        pick_of(self.skeletons.as_slice())
    }

    /// The instances that were tried.
    pub fn tried(&self) -> &Tried
        ensures { result.now ≡ self.now.kept.tried }
    {
        &self.tried
    }

    /// The instance that is asked next, if a request follows.
    pub fn next_asked(&self) -> Option<&Instance>
        ensures { option_copied result ≡ slice_get self.now.batch.to_ask 0 }
    {
        self.batch.next_asked()
    }

    /// The number of the request that is answered next, if an answer follows.
    pub fn next_answered(&self) -> Option<u32>
        ensures some { IfSome result (λ n. (n ≡ self.now.batch.next) × (self.now.batch.to_ask ≡ [])
            × (0 < self.now.batch.answers)) }
        ensures none { IfNone result
            (¬ ((self.now.batch.to_ask ≡ []) × (0 < self.now.batch.answers))) }
    {
        self.batch.next_answered()
    }

    /// Begins a level over all that is due, after so many requests of so many.
    pub fn begin_level(&mut self, pools: &[Workers], dues: Vec<Due>, before: u32, calls: u32)
        requires left { before ≤ calls }
        requires few { calls ≤ MOST_CALLS }
        ensures { BeginsBatch (shares_of pools.now) dues.items before calls self.old.kept self.new }
    {
        self.batch.begin(pools, dues, before, calls);
        self.phase = Phase::Resting;
    }

    /// Begins a batch of a dream over all that may be asked of it now, after so many requests of so
    /// many. What is asked then was tried. In focused mode it is the dream's only one.
    ///
    /// # Errors
    /// Only where memory is wanting; then the course may only be dropped.
    pub fn begin_dream(
        &mut self,
        pools: &[Workers],
        asks: Vec<Due>,
        before: u32,
        calls: u32,
    ) -> Result<(), AllocError>
        requires left { before ≤ calls }
        requires few { calls ≤ MOST_CALLS }
        ensures begins { OnOk result (BeginsBatch (shares_of pools.now) asks.items before calls
            (joining self.old.kept (take (calls - before) (due_instances asks.items))) self.new) }
        ensures run { self.new.run ≡ self.old.run }
    {
        let count = ((calls - before) as usize).min(asks.len());
        let (asked, _) = asks.as_slice().split_at(count);
        self.tried.join(asked)?;
        self.batch.begin(pools, asks, before, calls);
        self.phase = Phase::Resting;
        Ok(())
    }

    /// Begins the next batch of the dream that is run, behind these entries of its run; where
    /// nothing is left to ask, `over` comes.
    fn begin_next(
        &mut self,
        point: &BatchPoint<'_>,
        behind: &[Entry],
        over: Phase,
    ) -> Result<(), AllocError>
        requires left { made_by self.old.run ≤ point.now.calls }
        ensures { OnOk result (MovesAt point.now behind.now (phase_of over self.old.run) self.old
            self.new) }
    {
        let mut asks = self
            .run
            .next_asks(self.alloc, point.task, point.facts, point.queue, behind)?;
        let dues = dues_of(self.alloc, point.queue, asks.as_slice())?;
        let before = self.run.before + self.run.asks.len() as u32;
        let left = (point.calls - before) as usize;
        self.begin_dream(point.pools, dues, before, point.calls)?;
        if asks.is_empty() {
            self.phase = over;
        } else if asks.len() <= left {
            self.phase = Phase::Repeated;
        }
        self.run.asks.append(&mut asks)?;
        Ok(())
    }

    /// Begins the first batch of a dream that needs these entries, before which so many objects
    /// were real. Its line is the last of `from` entries, among which are `before` requests.
    /// Further batches come by themselves (`settle`). What a batch asks was tried.
    ///
    /// # Errors
    /// Only where memory is wanting; then the course may only be dropped.
    pub fn follow_dream(
        &mut self,
        point: &BatchPoint<'_>,
        entries: Vec<OptEntry>,
        real: u32,
        from: usize,
        before: u32,
    ) -> Result<(), AllocError>
        requires left { before < point.now.calls }
        ensures { OnOk result (MovesAt point.now [] resting
            (with_run self.old entries.items real from before) self.new) }
    {
        self.run = Running::new(self.alloc, entries, real, from, before);
        self.begin_next(point, &[], Phase::Resting)
    }

    /// Goes on behind a dream that is kept as the last skeleton, before which so many objects were
    /// real.
    ///
    /// # Errors
    /// Only where memory is wanting; then the course may only be dropped.
    pub fn keep_dream(&mut self, entries: Vec<OptEntry>, real: u32) -> Result<(), AllocError>
        ensures batch { self.new.batch ≡ self.old.batch }
        ensures phase { OnOk result (self.new.phase ≡ dreamt) }
        ensures kept { OnOk result (self.new.kept ≡ keeping self.old.kept entries.items real) }
    {
        keep(&mut self.skeletons, entries, real)?;
        self.phase = Phase::Dreamt;
        Ok(())
    }

    /// Picks the skeleton at this place and begins its first batch. The line of the pick is the
    /// last of `from` entries, among which are `before` requests. Further batches come by
    /// themselves (`settle`). Where nothing of it may be asked it is to be given up.
    ///
    /// # Errors
    /// Only where memory is wanting; then the course may only be dropped.
    pub fn pick(
        &mut self,
        point: &BatchPoint<'_>,
        place: usize,
        from: usize,
        before: u32,
    ) -> Result<(), AllocError>
        requires place { (s : Kept) × (slice_get self.old.kept.skeletons place ≡ Some s)
            × (s.picks < LARGEST_COUNT) }
        requires left { before < point.now.calls }
        ensures { (s : Kept) → slice_get self.old.kept.skeletons place ≡ Some s
            → OnOk result (PicksAt point.now place s from before self.old self.new) }
    {
        let skeleton = &self.skeletons[place];
        let real = skeleton.real;
        let entries = copies(self.alloc, skeleton.entries.as_slice())?;
        self.run = Running::new(self.alloc, entries, real, from, before);
        let over = Phase::Unasked(place);
        self.begin_next(point, &[], over)?;
        let retired = self.run.asks.is_empty();
        count(&mut self.skeletons, place, retired);
        Ok(())
    }

    /// Goes on behind the line by which a skeleton is given up, and ends the turn.
    pub fn retire(&mut self)
        ensures { self.new ≡ going_on self.old resting self.old.kept }
    {
        self.phase = Phase::Resting;
    }

    /// Moves on by itself where the last answer of a dream's batch was given: to the dream's next
    /// batch, or to the end of the turn. `entries` are all of the transcript so far.
    ///
    /// # Errors
    /// Only where memory is wanting; then the course may only be dropped.
    pub fn settle(&mut self, point: &BatchPoint<'_>, entries: &[Entry]) -> Result<(), AllocError>
        requires from { is_to_settle self.old ≡ true → self.old.run.from ≤ length entries.now }
        requires left { is_to_settle self.old ≡ true → made_by self.old.run ≤ point.now.calls }
        ensures { OnOk result (SettlesAt point.now entries.now self.old self.new) }
    {
        if !matches!(self.phase, Phase::Repeated) || !self.batch.is_between() {
            return Ok(());
        }
        let behind = &entries[self.run.from..];
        self.begin_next(point, behind, Phase::Resting)
    }

    /// Goes on behind `none`: there is no dream.
    pub fn say_none(&mut self)
        ensures { self.new ≡ going_on self.old undreamt self.old.kept }
    {
        self.phase = Phase::Undreamt;
    }

    /// Forgets what was tried, and ends the turn.
    pub fn reset(&mut self)
        ensures { self.new ≡ going_on self.old resting (forgetting self.old.kept) }
    {
        self.tried.clear();
        self.phase = Phase::Resting;
    }

    /// Goes on behind the next request.
    pub fn ask(&mut self)
        requires { 0 < length self.old.batch.to_ask }
        ensures { self.new ≡ with_agenda self.old (with_asked self.old.batch) }
    {
        self.batch.ask();
    }

    /// Goes on behind the next answer, and to the next round where that was the last of this one.
    /// `settle` follows, in the modes whose dreams have several batches.
    pub fn answer(&mut self, pools: &[Workers])
        requires asked { self.old.batch.to_ask ≡ [] }
        requires some { 0 < self.old.batch.answers }
        ensures batch { IsAnswered (shares_of pools.now) self.old.batch self.new.batch }
        ensures rest { self.new ≡ with_agenda self.old self.new.batch }
    {
        self.batch.answer(pools);
    }
}
