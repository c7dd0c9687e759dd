//! Where the judge of a transcript stands.
ghost use Rattle.std.specs.Prelude.{◌≡◌, ◌↔◌, [], List, IfOk, IfSome, IfNone, IsTrue, true};
ghost use Rattle.std.specs.List.{list_all};
ghost use Rattle.replay_check.specs.Breaches.{BeginsTurn};
ghost use Rattle.replay_check.specs.Standings.{AreBounds, IsStanding, StandsBehind, limits_by};
ghost use Rattle.replay_check.specs.Turns.{AreDueFor, AsksLevel, HasNothing, PicksNext};
ghost use Rattle.transcript_model.specs.Turns.{IsPicked, MayBegin, Skeleton};
ghost use Rattle.transcript_model.specs.declared.entry.Entry.{Entry as AnyEntry};

use crate::bounds::Bounds;
use course_check::ModeCourse;
use instance_queue::Due;
use learning::{Knowledge, dues_of};
use std::alloc::AllocError;
use transcript_model::Mode;

/// What the entries so far come to: what is kept of them, and what may come next.
#[derive(Drop)]
pub(crate) struct Standing {
    pub(crate) knowledge: Knowledge,
    pub(crate) course: ModeCourse,
}

impl Standing {
    /// Where the judge stands before the first entry. Fails only where memory is wanting.
    pub(crate) fn new(bounds: &Bounds<'_>) -> Result<Standing, AllocError>
        requires { AreBounds bounds.now }
        ensures { IfOk result (IsStanding bounds.now []) }
    {
        let knowledge = Knowledge::new(bounds.alloc, bounds.task)?;
        let course = ModeCourse::new(bounds.alloc);
        Ok(Standing { knowledge, course })
    }

    /// What is due, where a turn may begin as far as that and the calls go: something is due, but
    /// not too much, and a call is left. Else None.
    pub(crate) fn turn_dues(&self, bounds: &Bounds<'_>) -> Result<Option<Vec<Due>>, AllocError>
        requires bounds { AreBounds bounds.now }
        requires standing { (entries : List AnyEntry) × StandsBehind (limits_by bounds.now)
            bounds.now.task.now entries self.now.knowledge self.now.course }
        ensures some { (entries : List AnyEntry) → StandsBehind (limits_by bounds.now)
            bounds.now.task.now entries self.now.knowledge self.now.course → IfOk result
            (λ found. IfSome found (λ dues. AreDueFor (limits_by bounds.now) bounds.now.task.now
            entries dues.items)) }
        ensures none { (entries : List AnyEntry) → StandsBehind (limits_by bounds.now)
            bounds.now.task.now entries self.now.knowledge self.now.course → IfOk result
            (λ found. IfNone found
            (¬ (MayBegin (limits_by bounds.now) bounds.now.task.now entries))) }
    {
        if self.knowledge.asked.len() >= bounds.calls as usize {
            return Ok(None);
        }
        match dues_of(bounds.task, &self.knowledge)? {
            Some(dues) if !dues.as_slice().is_empty() => Ok(Some(dues)),
            _ => Ok(None),
        }
    }

    /// Whether a turn of a mode that dreams may begin.
    pub(crate) fn may_dream(&self, bounds: &Bounds<'_>) -> Result<bool, AllocError>
        requires bounds { AreBounds bounds.now }
        requires standing { (entries : List AnyEntry) × StandsBehind (limits_by bounds.now)
            bounds.now.task.now entries self.now.knowledge self.now.course }
        ensures { (entries : List AnyEntry) → StandsBehind (limits_by bounds.now)
            bounds.now.task.now entries self.now.knowledge self.now.course → IfOk result
            (λ yes. IsTrue yes ↔ BeginsTurn (limits_by bounds.now) bounds.now.task.now entries) }
    {
        if bounds.mode == Mode::Incremental || !self.course.is_between() {
            return Ok(false);
        }
        let dues = self.turn_dues(bounds)?;
        Ok(dues.is_some())
    }

    /// Whether there is no dream, and in adaptive mode no skeleton to pick either.
    pub(crate) fn has_nothing(&self, bounds: &Bounds<'_>) -> bool
        ensures { IsTrue result ↔ HasNothing bounds.now.mode self.now.course }
    {
        self.course.is_undreamt()
            && (bounds.mode != Mode::Adaptive || self.course.next_pick().is_none())
    }

    /// Whether a level may be asked, as far as the course goes.
    pub(crate) fn asks_level(&self, bounds: &Bounds<'_>) -> bool
        ensures { IsTrue result ↔ AsksLevel bounds.now.mode self.now.course }
    {
        (bounds.mode == Mode::Incremental && self.course.is_between())
            || (self.has_nothing(bounds) && self.course.tried().is_empty())
    }

    /// Whether a skeleton comes to be picked, if there is one.
    fn awaits_pick(&self, bounds: &Bounds<'_>) -> bool
        ensures { IsTrue result ↔ PicksNext bounds.now.mode self.now.course }
    {
        bounds.mode == Mode::Adaptive && (self.course.is_dreamt() || self.course.is_undreamt())
    }

    /// The place of the skeleton that is picked next, if one comes to be picked.
    pub(crate) fn next_pick(&self, bounds: &Bounds<'_>) -> Option<usize>
        ensures some { IfSome result (λ place. PicksNext bounds.now.mode self.now.course
            × ((s : Skeleton) × IsPicked self.now.course.kept.skeletons place s)) }
        ensures none { IfNone result (PicksNext bounds.now.mode self.now.course
            → list_all (λ (s : Skeleton). s.retired) self.now.course.kept.skeletons ≡ true) }
    {
        if self.awaits_pick(bounds) {
            self.course.next_pick()
        } else {
            None
        }
    }
}
