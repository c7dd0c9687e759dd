//! What guides a search for a plan.
ghost use Rattle.std.specs.Prelude.{IfOk, OnOk};
ghost use Rattle.grounder.specs.Candidates.{AreCandidates};
ghost use Rattle.task_model.specs.Fit.{IsFit};
ghost use Rattle.relaxed_task.specs.Room.{HasRoom};

use crate::lists::number;
use crate::plan::RelaxedSteps;
use crate::reached::copies;
use crate::seen::Seen;
use crate::task::{Ahead, RelaxedTask};
use grounder::Candidates;
use std::alloc::{AllocError, Global};
use task_model::{Atom, GroundAction, Look, State, Task, Wide};

/// What is said of a state.
#[derive(Clone, Copy, PartialEq, Eq, Debug)]
pub enum Sight {
    /// Nothing can be said.
    Unknown,
    /// The goal is out of reach.
    Hopeless,
    /// So many steps are left, and whether the state is new.
    Left { steps: u32, is_new: bool },
}

/// Relaxed plans of a task, and which states are new. It takes all its room when it is made.
#[derive(Drop)]
pub struct Guide {
    relaxed: RelaxedTask,
    /// Which place among all steps the first of each action has.
    firsts: Vec<u32>,
    plan: RelaxedSteps,
    seen: Seen,
    /// Whether a relaxed plan stands.
    has_plan: bool,
    /// Where the arguments stand that come behind those of the step that was asked for last.
    next: usize,
}

impl Guide {
    /// The guide for the task over what is known and its candidates, with the room of a `RelaxedTask`.
    /// Fails only where memory is wanting.
    pub fn new<L: Look>(
        alloc: Global,
        task: &Task,
        look: &L,
        candidates: &Candidates,
    ) -> Result<Guide, AllocError>
        requires fit { IsFit task.now }
        requires candidates { AreCandidates task.now (L.known look.now) candidates.now }
        ensures { IfOk result (λ guide. HasRoom guide.relaxed) }
    {
        let mut guide = Guide::empty(alloc);
        match guide.fill(alloc, task, look, candidates) {
            Ok(()) => Ok(guide),
            Err(error) => Err(error),
        }
    }

    /// The guide of a task in which nothing is left to do, which takes no memory.
    fn empty(alloc: Global) -> Guide {
        Guide {
            relaxed: RelaxedTask::empty(alloc),
            firsts: Vec::new(alloc),
            plan: RelaxedSteps::none(alloc),
            seen: Seen::none(alloc),
            has_plan: false,
            next: 0,
        }
    }

    /// Takes the task, and all its room. Fails only where memory is wanting.
    fn fill<L: Look>(
        &mut self,
        alloc: Global,
        task: &Task,
        look: &L,
        candidates: &Candidates,
    ) -> Result<(), AllocError>
        requires fit { IsFit task.now }
        requires candidates { AreCandidates task.now (L.known look.now) candidates.now }
        ensures { OnOk result (HasRoom self.new.relaxed) }
    {
        self.relaxed.fill(alloc, task, look, candidates)?;
        self.firsts = firsts_of(alloc, candidates)?;
        let rules = self.relaxed.costs().rule_count();
        let facts = self.relaxed.costs().fact_count();
        self.plan.make_room(rules, facts)?;
        self.seen.make_room(self.relaxed.atom_count(), rules)
    }

    /// Looks from the state for a relaxed plan, which stands until the next look, and says how many
    /// steps it has.
    pub fn look(&mut self, state: &State) -> Sight {
        self.plan.clear();
        self.has_plan = false;
        match self.relaxed.look_from(state) {
            Ahead::Here => Sight::Unknown,
            Ahead::Never => Sight::Hopeless,
            Ahead::Goal { goal, .. } => {
                let steps = self.plan.find(self.relaxed.costs(), goal);
                let is_new = self.seen.put(steps, self.relaxed.held());
                self.has_plan = true;
                Sight::Left { steps, is_new }
            }
        }
    }

    /// The fluent atoms that are reached where deletes are ignored and of conditions the atoms at the
    /// top count alone, or None where there was no room to find them. Fails only where memory is
    /// wanting.
    pub fn reached(&self, alloc: Global) -> Result<Option<Vec<Atom>>, AllocError> {
        match self.relaxed.all_reached() {
            Some(atoms) => Ok(Some(copies(alloc, atoms)?)),
            None => Ok(None),
        }
    }

    /// Whether a step is worth taking early from the state that was looked at last: one of its
    /// relaxed plan that can be taken at once, or any where there is no such plan. The candidates are
    /// those with which it was made, and steps are found soonest in their order.
    pub fn wants(&mut self, candidates: &Candidates, step: &GroundAction) -> bool {
        if !self.has_plan {
            return true;
        }
        match self.rule_of(candidates, step) {
            Some(rule) => self.plan.wants(rule),
            None => false,
        }
    }

    /// The rule of the step, if it has one.
    fn rule_of(&mut self, candidates: &Candidates, step: &GroundAction) -> Option<u32> {
        let action = step.action as usize;
        let first = self.firsts.get(action).copied()?;
        let rows = candidates.actions.as_slice().get(action)?.as_ref()?;
        let row = place_of(rows.as_slice(), &step.args, self.next)?;
        self.next = row.saturating_add(1);
        self.relaxed.rule((first as usize).saturating_add(row))
    }
}

/// Where the arguments stand among these, which are in their order. They are looked for at this place
/// first.
fn place_of(rows: &[Wide], args: &Wide, likely: usize) -> Option<usize> {
    if rows.get(likely).is_some_and(|row| row == args) {
        return Some(likely);
    }
    rows.binary_search(args).ok()
}

/// Which place among all steps the first of each action has. Fails only where memory is wanting.
fn firsts_of(alloc: Global, candidates: &Candidates) -> Result<Vec<u32>, AllocError> {
    let mut firsts = Vec::new(alloc);
    let mut steps: usize = 0;
    for rows in candidates.actions.as_slice() {
        firsts.push(number(steps))?;
        if let Some(rows) = rows {
            steps = steps.saturating_add(rows.len());
        }
    }
    Ok(firsts)
}
