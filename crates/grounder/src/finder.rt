//! The applicable actions, found by what they ask of the atoms of a state.
ghost use Rattle.std.specs.Prelude.{◌≡◌, IfOk, OnOk, Some, slice_get};
ghost use Rattle.lemmas.specs.Lists.{AreDistinct};
ghost use Rattle.formula_memo.specs.Remembered.{StandsFor};
ghost use Rattle.task_model.specs.Fit.{IsFit};
ghost use Rattle.grounder.specs.Applicable.{AreApplicable};
ghost use Rattle.grounder.specs.Candidates.{can_go_on};
ghost use Rattle.grounder.specs.Finder.{AreAllAsks, AreShort, FindsSteps, IsTable};
ghost use Rattle.grounder.specs.Listing.{AddsSteps};

use crate::asks::{Ask, are_met, asks_of, marks_of};
use crate::candidates::Candidates;
use crate::steps::{Scene, add_steps};
use formula_memo::Memo;
use state_store::AtomSet;
use std::alloc::{AllocError, Global};
use std::hash::BuildHasherDefault;
use task_model::{Atom, GroundAction, Look, Obj, Seq, State, Task, Wide};

/// The rows of an action, what its condition asks for each, and which of the numbered atoms are in the
/// state.
#[derive(Clone, Copy)]
struct Table<'a> {
    rows: &'a [Wide],
    asks: &'a [Ask],
    marks: &'a [bool],
}

/// Whether the action can be taken with the arguments of this row.
fn can_take<L: Look>(
    scene: &Scene<'_, L>,
    memo: &mut Memo,
    table: Table<'_>,
    row: usize,
    args: &[Obj],
) -> bool
    requires fit { IsFit scene.now.task.now }
    requires named { slice_get scene.now.task.now.domain.actions scene.now.number
        ≡ Some scene.now.action.now }
    requires table { IsTable scene.now.task.now.domain (L.known scene.now.look.now)
        scene.now.state.now scene.now.action.now table }
    requires here { slice_get table.rows.now row ≡ Some args.now }
    requires stands { StandsFor scene.now.task.now.domain (L.known scene.now.look.now)
        scene.now.state.now memo.old }
    ensures value { result ≡ can_go_on scene.now.task.now (L.known scene.now.look.now)
        scene.now.state.now scene.now.action.now args.now }
    ensures stands { StandsFor scene.now.task.now.domain (L.known scene.now.look.now)
        scene.now.state.now memo.new }
{
    are_met(table.asks, row, table.marks) && scene.can_go(memo, args, table.asks)
}

/// Puts the steps of the action that can be taken behind the others: those of its rows for which all
/// that its condition asks is so. Fails only where memory is wanting.
fn add_from_rows<L: Look>(
    scene: &Scene<'_, L>,
    table: Table<'_>,
    steps: &mut Vec<GroundAction>,
) -> Result<(), AllocError>
    requires fit { IsFit scene.now.task.now }
    requires named { slice_get scene.now.task.now.domain.actions scene.now.number
        ≡ Some scene.now.action.now }
    requires table { IsTable scene.now.task.now.domain (L.known scene.now.look.now)
        scene.now.state.now scene.now.action.now table }
    ensures { OnOk result (AddsSteps scene.now.task.now (L.known scene.now.look.now)
        scene.now.state.now scene.now.number steps.old.items steps.new.items) }
{
    let mut memo = Memo::empty(scene.state.allocator());
    for (row, args) in table.rows.iter().enumerate() {
        if can_take(scene, &mut memo, table, row, args.as_slice()) {
            steps.push(GroundAction {
                action: scene.number,
                args: args.copy()?,
            })?;
        }
    }
    Ok(())
}

/// What the conditions of all actions ask for the rows that are kept of each. Fails only where memory
/// is wanting.
fn all_asks(
    alloc: Global,
    numbered: &mut AtomSet,
    task: &Task,
    candidates: &Candidates,
) -> Result<Seq<Seq<Ask>>, AllocError>
    requires fit { IsFit task.now }
    requires short { AreShort task.now candidates.now }
    requires numbered { AreDistinct numbered.old.keys }
    ensures asks { IfOk result (AreAllAsks task.now candidates.now numbered.new.keys) }
    ensures distinct { AreDistinct numbered.new.keys }
{
    let mut asks = Vec::new(alloc);
    for (number, action) in task.domain.actions.as_slice().iter().enumerate() {
        let rows = match &candidates.actions.as_slice()[number] {
            Some(rows) => rows.as_slice(),
            None => &[],
        };
        let asked = asks_of(alloc, numbered, &task.domain, &action.condition, rows)?;
        asks.push(asked)?;
    }
    Ok(Seq::from_vec(asks))
}

/// What is found once for all states of a search: the arguments of each action that what is static
/// allows, and which atoms its condition asks for or forbids with each.
#[derive(Drop)]
pub struct StepFinder {
    candidates: Candidates,
    /// The atoms of fluents that conditions ask for or forbid, each known by its place.
    atoms: AtomSet,
    /// What the parts at the top of each action's condition ask.
    asks: Seq<Seq<Ask>>,
}

impl StepFinder {
    /// That of the task, which keeps no more than `most` arguments. Fails only where memory is wanting.
    pub fn new<L: Look>(
        alloc: Global,
        task: &Task,
        look: &L,
        most: usize,
    ) -> Result<StepFinder, AllocError>
        requires { IsFit task.now }
        ensures { IfOk result (FindsSteps task.now (L.known look.now)) }
    {
        let candidates = Candidates::new(alloc, task, look, most)?;
        let mut atoms = AtomSet::with_hasher(alloc, BuildHasherDefault::new());
        match all_asks(alloc, &mut atoms, task, &candidates) {
            Ok(asks) => Ok(StepFinder {
                candidates,
                atoms,
                asks,
            }),
            Err(error) => Err(error),
        }
    }

    /// The arguments of each action that what is static allows.
    pub fn candidates(&self) -> &Candidates
        ensures { result.now ≡ self.now.candidates }
    {
        &self.candidates
    }

    /// What the function `applicable` gives. Fails only where memory is wanting.
    pub fn applicable<L: Look>(
        &self,
        alloc: Global,
        task: &Task,
        look: &L,
        state: &State,
    ) -> Result<Vec<GroundAction>, AllocError>
        requires fit { IsFit task.now }
        requires finds { FindsSteps task.now (L.known look.now) self.now }
        ensures { IfOk result (λ steps. AreApplicable task.now (L.known look.now) state.now
            steps.items) }
    {
        let marks = marks_of(alloc, &self.atoms, state)?;
        let mut steps = Vec::new(alloc);
        for (number, action) in task.domain.actions.as_slice().iter().enumerate() {
            let scene = Scene {
                task,
                look,
                state,
                number: number as u32,
                action,
            };
            match &self.candidates.actions.as_slice()[number] {
                Some(rows) => {
                    let asks = &self.asks.as_slice()[number];
                    let table = Table {
                        rows: rows.as_slice(),
                        asks: asks.as_slice(),
                        marks: marks.as_slice(),
                    };
                    add_from_rows(&scene, table, &mut steps)?
                }
                None => add_steps(alloc, &scene, &mut steps)?,
            }
        }
        Ok(steps)
    }
}
