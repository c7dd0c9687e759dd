//! What is left to the goal.
ghost use Rattle.std.specs.Prelude.{IfOk, OnOk};
ghost use Rattle.task_model.specs.Fit.{IsFit};
ghost use Rattle.grounder.specs.Candidates.{AreCandidates};
ghost use Rattle.relaxed_task.specs.Room.{HasRoom};

use crate::conditions::{Scene, settle};
use crate::costs::{Costs, UNREACHED};
use crate::facts::AtomFacts;
use crate::net::{Joint, Literal, Net};
use crate::reached::{Reached, copies};
use crate::steps::{add_steps, put_needs};
use crate::tuples::filled;
use grounder::Candidates;
use plan_check::initial;
use std::alloc::{AllocError, Global};
use std::mem;
use task_model::{Atom, Look, State, Task};

/// The most arguments of actions for which there is room.
const MOST_ROWS: usize = 200_000;

/// How far the goal is from a state.
#[derive(Clone, Copy, Debug)]
pub(crate) enum Ahead {
    /// It is true in each state that is reached.
    Here,
    /// It isn't reached.
    Never,
    /// It is this fact, which costs so much.
    Goal { goal: u32, cost: u32 },
}

/// A task whose deletes are ignored but for what conditions need false: what is left to the goal
/// from a state, as a number of steps.
#[derive(Drop)]
pub struct RelaxedTask {
    /// The facts of fluent atoms.
    atoms: AtomFacts,
    /// The facts that atoms are false which a rule or the goal needs.
    lacks: Vec<u32>,
    /// For each step its rule, if it has one.
    steps: Vec<Option<u32>>,
    /// The fluent atoms that are reached, if there was room to find them.
    reached: Option<Vec<Atom>>,
    /// The numbers of the atoms of the state that was looked at last, `held_count` of them.
    held: Vec<u32>,
    held_count: usize,
    costs: Costs,
    goal: Literal,
    /// What a step costs, on the average and rounded up, and at least 1.
    step_cost: u64,
}

impl RelaxedTask {
    /// The one in which nothing is left to do, which takes no memory.
    pub(crate) fn empty(alloc: Global) -> RelaxedTask
        ensures { HasRoom result }
    {
        RelaxedTask {
            atoms: AtomFacts::new(alloc),
            lacks: Vec::new(alloc),
            steps: Vec::new(alloc),
            reached: None,
            held: Vec::new(alloc),
            held_count: 0,
            costs: Costs::none(alloc),
            goal: Literal::Always,
            step_cost: 1,
        }
    }

    /// The task over what is known. It takes all its room here: where there is none for all parts of
    /// conditions, of these the fluent atoms at their top alone count, and where there is none for
    /// these, nothing is ever left. Fails only where memory is wanting.
    pub fn new<L: Look>(alloc: Global, task: &Task, look: &L) -> Result<RelaxedTask, AllocError>
        requires { IsFit task.now }
        ensures { IfOk result HasRoom }
    {
        let candidates = Candidates::new(alloc, task, look, MOST_ROWS)?;
        let mut relaxed = RelaxedTask::empty(alloc);
        match relaxed.fill(alloc, task, look, &candidates) {
            Ok(()) => Ok(relaxed),
            Err(error) => Err(error),
        }
    }

    /// Takes the task over these steps in place of what it has, with the room that `new` tells. Fails only where memory is wanting.
    pub(crate) fn fill<L: Look>(
        &mut self,
        alloc: Global,
        task: &Task,
        look: &L,
        candidates: &Candidates,
    ) -> Result<(), AllocError>
        requires fit { IsFit task.now }
        requires candidates { AreCandidates task.now (L.known look.now) candidates.now }
        ensures { OnOk result (HasRoom self.new) }
    {
        self.find(alloc, task, look, candidates)?;
        self.keep_room(alloc);
        Ok(())
    }

    /// Takes the facts and rules of the task, if there is room for them: first those by which is found
    /// what is reached, and in their place those of all conditions, or, where there is no room for these,
    /// the first ones again. Fails only where memory is wanting.
    fn find<L: Look>(
        &mut self,
        alloc: Global,
        task: &Task,
        look: &L,
        candidates: &Candidates,
    ) -> Result<(), AllocError>
        requires fit { IsFit task.now }
        requires candidates { AreCandidates task.now (L.known look.now) candidates.now }
    {
        let first = Scene {
            alloc,
            task,
            look,
            reached: None,
        };
        if !self.relax(&first, candidates)? {
            return Ok(());
        }
        let mut reached = Box::new(alloc, Reached::new(alloc))?;
        self.reach(alloc, task, &mut reached)?;
        *self = RelaxedTask::empty(alloc);
        let scene = Scene {
            alloc,
            task,
            look,
            reached: Some(&reached),
        };
        if !self.relax(&scene, candidates)? {
            self.relax(&first, candidates)?;
        }
        self.reached = Some(copies(alloc, reached.atoms())?);
        Ok(())
    }

    /// Takes the facts and rules of the task in place of its own, if there is room for them, and
    /// answers whether there is. Fails only where memory is wanting.
    fn relax<L: Look>(
        &mut self,
        scene: &Scene<'_, '_, L>,
        candidates: &Candidates,
    ) -> Result<bool, AllocError>
        requires fit { IsFit scene.now.task.now }
        requires candidates { AreCandidates scene.now.task.now (L.known scene.now.look.now)
            candidates.now }
    {
        let mut net = Box::new(scene.alloc, Net::new(scene.alloc))?;
        let is_whole = put_all(scene, &mut net, candidates)?;
        if is_whole {
            self.take_net(scene.alloc, &mut net)?;
        }
        Ok(is_whole)
    }

    /// Takes what is in the net in place of its own. Fails only where memory is wanting.
    fn take_net(&mut self, alloc: Global, net: &mut Net) -> Result<(), AllocError> {
        self.goal = net.goal;
        self.step_cost = net.mean_cost();
        let goal = match net.goal {
            Literal::Fact(fact) => Some(fact),
            Literal::Always | Literal::Never => None,
        };
        self.costs.take_rules(alloc, &mut net.rules, goal)?;
        self.atoms = mem::replace(&mut net.fluents, AtomFacts::new(alloc));
        self.steps = mem::replace(&mut net.steps, Vec::new(alloc));
        self.held.resize(self.atoms.len(), 0)?;
        self.held_count = 0;
        self.lacks = self.needed_lacks(alloc)?;
        Ok(())
    }

    /// The facts that atoms are false which a rule or the goal needs. Fails only where memory is wanting.
    fn needed_lacks(&self, alloc: Global) -> Result<Vec<u32>, AllocError> {
        let mut lacks = Vec::new(alloc);
        for (_, sides) in self.atoms.entries() {
            if let Some(fact) = sides.lacks {
                if self.costs.is_needed(fact) || self.goal == Literal::Fact(fact) {
                    lacks.push(fact)?;
                }
            }
        }
        Ok(lacks)
    }

    /// Leaves nothing to do where there is no room for the facts and rules.
    fn keep_room(&mut self, alloc: Global)
        ensures { HasRoom self.new }
    {
        if !self.costs.has_room() {
            *self = RelaxedTask::empty(alloc);
        }
    }

    /// What a step costs, on the average and rounded down, and at least 1.
    pub fn step_cost(&self) -> u64 {
        self.step_cost
    }

    /// How many steps are left from the state: those that each fact of the goal takes, added up, and
    /// so those of each step's condition. The largest number where the goal is out of reach.
    pub fn steps_left(&mut self, state: &State) -> u64 {
        match self.look_from(state) {
            Ahead::Here => 0,
            Ahead::Never => u64::MAX,
            Ahead::Goal { cost, .. } => u64::from(cost),
        }
    }

    /// Finds what facts cost from the state, as far as the goal, and answers how far that is.
    pub(crate) fn look_from(&mut self, state: &State) -> Ahead {
        let goal = match self.goal {
            Literal::Always => return Ahead::Here,
            Literal::Never => return Ahead::Never,
            Literal::Fact(goal) => goal,
        };
        self.begin(state);
        self.costs.spread(Some(goal));
        match self.costs.cost(goal) {
            UNREACHED => Ahead::Never,
            cost => Ahead::Goal { goal, cost },
        }
    }

    /// The fluent atoms that are reached, if there was room to find them.
    pub(crate) fn all_reached(&self) -> Option<&[Atom]> {
        match &self.reached {
            Some(atoms) => Some(atoms.as_slice()),
            None => None,
        }
    }

    /// What facts cost, as far as was found last.
    pub(crate) fn costs(&self) -> &Costs {
        &self.costs
    }

    /// The rule of the step at this place, if it has one.
    pub(crate) fn rule(&self, step: usize) -> Option<u32> {
        *self.steps.as_slice().get(step)?
    }

    /// The numbers of the atoms that held in the state from which costs were found last.
    pub(crate) fn held(&self) -> &[u32] {
        self.held.as_slice().get(..self.held_count).unwrap_or(&[])
    }

    /// How many atoms have numbers.
    pub(crate) fn atom_count(&self) -> usize {
        self.atoms.len()
    }

    /// Begins with what holds in the state.
    fn begin(&mut self, state: &State) {
        self.costs.clear();
        self.held_count = 0;
        for atom in state.as_slice() {
            if let Some((number, sides)) = self.atoms.get(atom) {
                if let Some(place) = self.held.get_mut(self.held_count) {
                    *place = number;
                    self.held_count = self.held_count.saturating_add(1);
                }
                if let Some(fact) = sides.holds {
                    self.costs.hold(fact);
                }
                if let Some(fact) = sides.lacks {
                    self.costs.bar(fact);
                }
            }
        }
        for fact in self.lacks.as_slice() {
            self.costs.hold(*fact);
        }
    }

    /// Puts in what is reached from the initial state. Fails only where memory is wanting.
    fn reach(&mut self, alloc: Global, task: &Task, reached: &mut Reached) -> Result<(), AllocError>
        requires { IsFit task.now }
    {
        let state = initial(alloc, task)?;
        self.begin(&state);
        self.costs.spread(None);
        reached.make_room(alloc, task.domain.predicates.len())?;
        self.note_steps(reached)?;
        reached.add_all(state.as_slice())?;
        self.note_atoms(reached)
    }

    /// Says of each step whether it is reached. Fails only where memory is wanting.
    fn note_steps(&self, reached: &mut Reached) -> Result<(), AllocError> {
        for rule in self.steps.as_slice() {
            let is_reached = rule.is_some_and(|rule| self.costs.is_ready(rule as usize));
            reached.note_step(is_reached)?;
        }
        Ok(())
    }

    /// Puts in the atoms that are reached. Fails only where memory is wanting.
    fn note_atoms(&self, reached: &mut Reached) -> Result<(), AllocError> {
        for (atom, sides) in self.atoms.entries() {
            if sides
                .holds
                .is_some_and(|fact| self.costs.cost(fact) < UNREACHED)
            {
                reached.add(atom.copy()?)?;
            }
        }
        Ok(())
    }
}

/// Puts the facts and rules of the task into the net, and answers whether there is room for them.
/// Fails only where memory is wanting.
fn put_all<L: Look>(
    scene: &Scene<'_, '_, L>,
    net: &mut Net,
    candidates: &Candidates,
) -> Result<bool, AllocError>
    requires fit { IsFit scene.now.task.now }
    requires candidates { AreCandidates scene.now.task.now (L.known scene.now.look.now)
        candidates.now }
{
    put_goal(scene, net)?;
    if !add_steps(scene, net, candidates)? {
        return Ok(false);
    }
    settle(scene, net)?;
    if net.rules.is_full() {
        return Ok(false);
    }
    if scene.reached.is_some() {
        net.trim(scene.alloc)?;
    }
    Ok(true)
}

/// Puts the facts of the goal into the net. Fails only where memory is wanting.
fn put_goal<L: Look>(scene: &Scene<'_, '_, L>, net: &mut Net) -> Result<(), AllocError>
    requires { IsFit scene.now.task.now }
{
    let mut facts = Vec::new(scene.alloc);
    let goal = &scene.task.problem.goal;
    let may_hold = put_needs(scene, net, goal, &filled(&[]), false, &mut facts)?;
    net.goal = if may_hold {
        net.whole(Joint::All, facts)?
    } else {
        Literal::Never
    };
    Ok(())
}
