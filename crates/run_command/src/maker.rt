//! The grid's task of a number, made and solved.
ghost use Rattle.std.specs.Prelude.{◌≡◌, ℕ, false, string_bytes, IfOk, IfErr};
ghost use Rattle.command_line.specs.Held.{held_solve};
ghost use Rattle.command_line.specs.Ranges.{IsFromOne};
ghost use Rattle.grid_text.specs.Tasks as texts;
ghost use Rattle.io_world.specs.Faults.{last_count, HasCause};
ghost use Rattle.io_world.specs.FileMap.{stored};
ghost use Rattle.command_files.specs.Outside.{outside_of, written_of};
ghost use Rattle.round_run.specs.Told.{course};
ghost use Rattle.run_command.specs.Heard.{AreCounted};
ghost use Rattle.run_command.specs.Solving.{IsAtText};
ghost use Rattle.run_command.specs.Making.{IsLined, MakesRun};
ghost use Rattle.run_command.specs.Runs.{outcome_status};
ghost use Rattle.run_command.specs.Works as works;
ghost use Rattle.round_run.specs.declared.fault.RunFault.TheVariants as fault;
ghost use Rattle.command_files.specs.declared.stop.Stop.TheVariants.{Run};

use crate::solver::{report, status_of};
use command_files::{Status, Stop};
use command_line::{DEFAULT_CALLS, DEFAULT_DEPTH, DEFAULT_STATES, SolveConfig};
use grid_text::grid_task;
use io_world::{Host, Sink, SureFiles, SureSink, write_all};
use solve_run::{Ran, RunFault};
use std::alloc::{AllocError, Global};
use task_model::Seq;
use transcript_model::{LimitKind, Mode, Outcome};

/// The words with which the task is solved: the grid's generator answers all streams, within the
/// limits that stand where words name none. Fails only where memory is wanting.
fn made_words(alloc: Global) -> Result<SolveConfig, AllocError>
    ensures { IfOk result (λ words. held_solve words ≡ works.made_words) }
{
    let mut program = Vec::with_capacity(alloc, 2)?;
    program.push(String::from_str(alloc, "@grid")?)?;
    program.push(String::from_str(alloc, "grid")?)?;
    Ok(SolveConfig {
        domain: String::from_str(alloc, "domain")?,
        problem: String::from_str(alloc, "problem")?,
        streams: String::from_str(alloc, "streams")?,
        map: None,
        program: Seq::from_vec(program),
        workers: 1,
        mode: Mode::Incremental,
        calls: DEFAULT_CALLS,
        states: DEFAULT_STATES,
        depth: DEFAULT_DEPTH as u8,
        protocol: 1,
        optimal: false,
        restarts: 0,
    })
}

/// A file of this path with these bytes.
fn file_with(alloc: Global, path: &str, bytes: &[u8]) -> Result<(String, Vec<u8>), AllocError>
    ensures { IfOk result (λ file. stored file ≡ works.file_with path.now bytes.now) }
{
    let path = String::from_str(alloc, path)?;
    let bytes = Vec::from_slice(alloc, bytes)?;
    Ok((path, bytes))
}

/// The texts of the task of a number, as files. Fails only where memory is wanting.
fn made_files(alloc: Global, number: u32) -> Result<SureFiles, AllocError>
    requires { IsFromOne 12 number }
    ensures { IfOk result (λ files. files ≡ works.stored_task (texts.grid_task number)) }
{
    let task = grid_task(alloc, number)?;
    let mut files = Vec::with_capacity(alloc, 4)?;
    files.push(file_with(alloc, "domain", task.domain.as_slice())?)?;
    files.push(file_with(alloc, "problem", task.problem.as_slice())?)?;
    files.push(file_with(alloc, "streams", task.streams.as_slice())?)?;
    files.push(file_with(alloc, "grid", task.grid.as_slice())?)?;
    Ok(SureFiles::new(alloc, files))
}

/// The word for an outcome.
fn outcome_word(outcome: &Outcome) -> &'static str
    ensures { result.now ≡ works.outcome_word outcome.now }
{
    match outcome {
        Outcome::Plan { .. } => "plan",
        Outcome::NoPlan => "no-plan",
        Outcome::Limit(LimitKind::Calls) => "limit-calls",
        Outcome::Limit(LimitKind::States) => "limit-states",
        Outcome::Limit(LimitKind::Instances) => "limit-instances",
    }
}

/// The line on the task of a number. Fails only where memory is wanting.
fn made_line(alloc: Global, number: u32, ran: &Ran) -> Result<String, AllocError>
    ensures { IfOk result (λ line. string_bytes line
        ≡ works.made_line number ran.now.outcome ran.now.levels ran.now.asks) }
{
    let outcome = outcome_word(&ran.outcome);
    let levels = ran.levels;
    let asks = ran.asks;
    format!(in alloc; "generate {number} {outcome} levels {levels} asks {asks}\n")
}

/// Writes the line on the task of a number.
fn show<O: Sink>(alloc: Global, number: u32, ran: &Ran, out: &mut O) -> Result<Status, Stop>
    ensures shown { IsLined (outcome_status ran.now.outcome)
        (works.made_line number ran.now.outcome ran.now.levels ran.now.asks)
        (written_of O.taken out.old out.new) result }
    ensures sink { HasCause (Run fault.Write) last_count (O.faults out.old) (O.faults out.new)
        result }
{
    let line = made_line(alloc, number, ran)?;
    match write_all(out, line.as_bytes()) {
        Ok(()) => Ok(status_of(&ran.outcome)),
        Err(_) => Err(Stop::Run(RunFault::Write)),
    }
}

/// Makes the grid's task of a number, 1 to 12, solves it, and writes the line on it, as `generate`
/// (this project): `generate N OUTCOME levels L asks A`. No file is read: the four texts stand in
/// memory, and the report goes to a sink that keeps nothing. No child runs before it and after it.
/// Where it stops, the cause is answered as by `solve`, or memory was wanting for the texts or the
/// line, or the sink failed.
pub fn make<H: Host, O: Sink>(
    alloc: Global,
    number: u32,
    host: &mut H,
    out: &mut O,
) -> Result<Status, Stop>
    requires within { IsFromOne 12 number }
    requires idle { (k : ℕ) → H.running host.old k ≡ false }
    ensures ends { MakesRun number (outside_of (works.seen_made number) H.spoken H.log host.old
        host.new) (host.new ≡ host.old) (written_of O.taken out.old out.new) result }
    ensures idle { (k : ℕ) → H.running host.new k ≡ false }
    ensures leaves { IfErr result (λ why. IsAtText why → host.new ≡ host.old) }
    ensures host { HasCause (Run fault.Generator) H.last (H.faults host.old) (H.faults host.new)
        result }
    ensures failed { AreCounted 0 (course H.Host host.old host.new) result }
    ensures sink { HasCause (Run fault.Write) last_count (O.faults out.old) (O.faults out.new)
        result }
{
    let words = made_words(alloc)?;
    let mut files = made_files(alloc, number)?;
    let mut unkept = SureSink::new();
    let ran = match report(alloc, &words, &mut files, host, &mut unkept) {
        Ok(ran) => ran,
        Err(stop) => return Err(stop),
    };
    show(alloc, number, &ran, out)
}
