//! Plans as outcomes.
ghost use Rattle.std.specs.Prelude.{◌≡◌, IfOk};
ghost use Rattle.shown_plan.specs.Shown.{AreNamedSteps, AreStepsByName, ShowsPlan};
ghost use Rattle.task_model.specs.Fit.{IsFit};
ghost use Rattle.transcript_model.specs.Legal.{IsLegal};
ghost use Rattle.transcript_model.specs.Outcomes.{AreOrigins};
ghost use Rattle.transcript_model.specs.Transcript.{names_of};

use crate::names::generated_names;
use crate::origins::origins_of;
use crate::steps::name_steps;
use std::alloc::{AllocError, Global};
use task_model::{GroundAction, Look, Seq, Task};
use transcript_model::{Call, Entry, Origin, Outcome};

/// The generated objects of these calls, each once, in order of bytes, with the least request whose
/// answer has its value. From version 2 of the report on the first tuple of that answer that has
/// the value is told too; in version 1 it is always 1 (this project). The calls are steps by name,
/// whose objects have names, as those of a valid plan have.
///
/// Fails only where memory is wanting.
pub fn plan_origins(
    alloc: Global,
    version: u8,
    entries: &[Entry],
    calls: &[Call],
) -> Result<Seq<Origin>, AllocError>
    requires { AreStepsByName version entries.now calls.now }
    ensures { IfOk result (AreOrigins version entries.now calls.now) }
{
    let names = generated_names(alloc, calls)?;
    origins_of(alloc, version, entries, &names)
}

/// The outcome of a run that found this plan of this cost: the steps with the names of their
/// actions and objects, and their generated objects as `plan_origins` tells them. The names are
/// those of the transcript, and the steps' actions and objects have names, as those of a valid plan
/// have.
///
/// Fails only where memory is wanting.
pub fn plan_outcome<L: Look>(
    alloc: Global,
    task: &Task,
    look: &L,
    version: u8,
    entries: &[Entry],
    steps: &[GroundAction],
    cost: u64,
) -> Result<Outcome, AllocError>
    requires fit { IsFit task.now }
    requires names { (L.known look.now).names ≡ names_of task.now entries.now }
    requires legal { IsLegal version task.now entries.now }
    requires steps { AreNamedSteps task.now (names_of task.now entries.now) steps.now }
    ensures { IfOk result (ShowsPlan version task.now entries.now steps.now cost) }
{
    let calls = name_steps(alloc, task, look, steps)?;
    let from = plan_origins(alloc, version, entries, calls.as_slice())?;
    Ok(Outcome::Plan {
        steps: calls,
        cost,
        from,
    })
}
