//! Whether an outcome may stand, and whether what it says is true.
ghost use Rattle.std.specs.Prelude.{◌≡◌, ◌<◌, ◌^◌, ◌↔◌, ℕ, List, IfOk, IsTrue, length};
ghost use Rattle.replay_check.specs.Claims.{IsJudged};
ghost use Rattle.replay_check.specs.Findings.{IsClaim, IsRightFinding, IsEndPlaced, MayEndAt};
ghost use Rattle.replay_check.specs.Plans.{IsNear, IsPlanned};
ghost use Rattle.replay_check.specs.Standings.{AreBounds, IsStanding, limits_by};
ghost use Rattle.task_model.specs.declared.task.Task.{Task as AnyTask};
ghost use Rattle.transcript_model.specs.Legal.{HasNoneOpen, IsLegal};
ghost use Rattle.transcript_model.specs.Rounds.{Limits};
ghost use Rattle.transcript_model.specs.declared.entry.Call.{Call as AnyCall};
ghost use Rattle.transcript_model.specs.declared.entry.Entry.{Entry as AnyEntry};
ghost use Rattle.transcript_model.specs.declared.outcome.LimitKind.TheVariants.{Calls};
ghost use Rattle.transcript_model.specs.declared.outcome.Origin.{Origin as AnyOrigin};
ghost use Rattle.transcript_model.specs.declared.outcome.Outcome.{Outcome as AnyOutcome};
ghost use Rattle.transcript_model.specs.declared.outcome.Outcome.TheVariants as said;

use crate::bounds::Bounds;
use crate::claims::{Claim, judge_calls, judge_instances, judge_no_plan, judge_states};
use crate::finding::Finding;
use crate::plan::{Planned, ShownPlan, judge_plan};
use crate::standing::Standing;
use crate::verdict::BreachKind;
use std::alloc::AllocError;
use transcript_model::{Entry, LimitKind, Outcome};

/// What is found of a claim in a place where it may stand.
fn claimed(claim: Claim) -> Finding
    ensures { (limits : Limits) (limit : ℕ) (task : AnyTask) (entries : List AnyEntry)
        (o : AnyOutcome) → IsClaim o → IsEndPlaced limits limit task entries o
        → IsJudged limits limit task entries o claim
        → IsRightFinding limits limit task entries o result }
{
    match claim {
        Claim::True => Finding::Holds,
        Claim::False => Finding::Breaks(0, BreachKind::Outcome),
        Claim::Open => Finding::Open,
    }
}

/// What is found of a plan of so many steps.
fn planned(steps: usize, planned: Planned) -> Finding
    requires few { steps < 2 ^ 62 }
    requires near { IsNear planned }
    ensures { (limits : Limits) (limit : ℕ) (task : AnyTask) (entries : List AnyEntry)
        (calls : List AnyCall) (cost : ℕ) (from : List AnyOrigin) → length calls ≡ steps
        → IsLegal limits.version task entries
        → IsEndPlaced limits limit task entries (said.Plan calls cost from)
        → IsPlanned limits.version task entries calls cost from planned
        → IsRightFinding limits limit task entries (said.Plan calls cost from) result }
{
    match planned {
        Planned::Right => Finding::Holds,
        Planned::Stuck(place) => Finding::Breaks(place + 1, BreachKind::Plan),
        Planned::NoGoal => Finding::Breaks(steps + 1, BreachKind::Plan),
        Planned::WrongCost => Finding::Breaks(steps + 1, BreachKind::Cost),
        Planned::WrongOrigin(place) => Finding::Breaks(steps + 2 + place, BreachKind::From),
    }
}

/// Whether the outcome is that the calls are spent.
fn is_limit_of_calls(outcome: &Outcome) -> bool
    ensures yes { IsTrue result → outcome.now ≡ said.Limit Calls }
    ensures no { outcome.now ≡ said.Limit Calls → IsTrue result }
{
    match outcome {
        Outcome::Limit(LimitKind::Calls) => true,
        Outcome::Limit(LimitKind::States | LimitKind::Instances) => false,
        Outcome::Plan { .. } | Outcome::NoPlan => false,
    }
}

impl Standing {
    /// Judges an outcome that is in its place.
    fn judge_said(
        &self,
        bounds: &Bounds<'_>,
        entries: &[Entry],
        outcome: &Outcome,
    ) -> Result<Finding, AllocError>
        requires bounds { AreBounds bounds.now }
        requires standing { IsStanding bounds.now entries.now self.now }
        requires placed { IsEndPlaced (limits_by bounds.now) bounds.now.limit bounds.now.task.now
            entries.now outcome.now }
        requires resting { ¬ (outcome.now ≡ said.Limit Calls) → HasNoneOpen entries.now }
        ensures { IfOk result (IsRightFinding (limits_by bounds.now) bounds.now.limit
            bounds.now.task.now entries.now outcome.now) }
    {
        let claim = match outcome {
            Outcome::Plan { steps, cost, from } => {
                let plan = ShownPlan {
                    entries,
                    calls: steps.as_slice(),
                    cost: *cost,
                    from: from.as_slice(),
                };
                let found = judge_plan(bounds, &self.knowledge, &plan)?;
                return Ok(planned(steps.len(), found));
            }
            Outcome::NoPlan => judge_no_plan(bounds, &self.knowledge)?,
            Outcome::Limit(LimitKind::Calls) => judge_calls(bounds, &self.knowledge)?,
            Outcome::Limit(LimitKind::States) => judge_states(bounds, &self.knowledge)?,
            Outcome::Limit(LimitKind::Instances) => judge_instances(bounds, &self.knowledge)?,
        };
        Ok(claimed(claim))
    }

    /// Whether the outcome may stand here, or is the limit of calls inside a batch, where that is
    /// false. Where another line of the turn comes none may stand.
    fn has_place(&self, outcome: &Outcome) -> bool
        ensures { IsTrue result ↔ MayEndAt self.now.course outcome.now }
    {
        self.course.is_between() || (is_limit_of_calls(outcome) && !self.course.awaits_line())
    }

    /// Judges the outcome behind these entries.
    pub(crate) fn judge_outcome(
        &self,
        bounds: &Bounds<'_>,
        entries: &[Entry],
        outcome: &Outcome,
    ) -> Result<Finding, AllocError>
        requires bounds { AreBounds bounds.now }
        requires standing { IsStanding bounds.now entries.now self.now }
        ensures { IfOk result (IsRightFinding (limits_by bounds.now) bounds.now.limit
            bounds.now.task.now entries.now outcome.now) }
    {
        if !self.has_place(outcome) {
            return Ok(Finding::Breaks(0, BreachKind::Order));
        }
        self.judge_said(bounds, entries, outcome)
    }
}
