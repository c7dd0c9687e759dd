//! Solving a task.
ghost use Rattle.std.specs.Prelude.{◌≡◌, ℕ, false, IfErr};
ghost use Rattle.io_world.specs.Faults.{last_count, HasCause};
ghost use Rattle.command_files.specs.Outside.{outside_of, seen_of, written_of};
ghost use Rattle.command_files.specs.Paths.{held_files};
ghost use Rattle.round_run.specs.Told.{course};
ghost use Rattle.run_command.specs.Heard.{AreCounted};
ghost use Rattle.run_command.specs.Solving.{IsAtText, IsReportedBy, SolvesBy};
ghost use Rattle.run_command.specs.Runs.{outcome_status};
ghost use Rattle.command_line.specs.Held.{held_solve};
ghost use Rattle.command_line.specs.Ranges.{AreInRange};
ghost use Rattle.round_run.specs.declared.fault.RunFault.TheVariants as fault;
ghost use Rattle.command_files.specs.declared.stop.Stop.TheVariants.{Run};

use crate::head::head_of;
use crate::restarts::run_with_restarts;
use command_files::{Status, Stop, TaskPaths, meant_pools, place_grid, read_task};
use command_line::SolveConfig;
use io_world::{Files, Host, Sink};
use solve_run::Ran;
use std::alloc::Global;
use transcript_model::Outcome;

/// How a run ends that has this outcome.
pub(crate) fn status_of(outcome: &Outcome) -> Status
    ensures { result ≡ outcome_status outcome.now }
{
    match outcome {
        Outcome::Plan { .. } => Status::Plan,
        Outcome::NoPlan => Status::NoPlan,
        Outcome::Limit(_) => Status::Limit,
    }
}

/// The paths of the task's texts.
fn paths_of(words: &SolveConfig) -> TaskPaths<'_>
    ensures { held_files result ≡ (held_solve words.now).files }
{
    TaskPaths {
        domain: words.domain.as_str(),
        problem: words.problem.as_str(),
        streams: words.streams.as_str(),
    }
}

/// Reads the files, and writes the report of the task that they spell.
pub(crate) fn report<F: Files, H: Host, O: Sink>(
    alloc: Global,
    words: &SolveConfig,
    files: &mut F,
    host: &mut H,
    out: &mut O,
) -> Result<Ran, Stop>
    requires within { AreInRange (held_solve words.now) }
    requires idle { (k : ℕ) → H.running host.old k ≡ false }
    ensures reported { IsReportedBy (held_solve words.now) (outside_of (seen_of F.told F.faults
        F.asked files.old files.new) H.spoken H.log host.old host.new) (host.new ≡ host.old)
        (written_of O.taken out.old out.new) result }
    ensures idle { (k : ℕ) → H.running host.new k ≡ false }
    ensures leaves { IfErr result (λ why. IsAtText why → host.new ≡ host.old) }
    ensures host { HasCause (Run fault.Generator) H.last (H.faults host.old) (H.faults host.new)
        result }
    ensures failed { AreCounted words.now.restarts (course H.Host host.old host.new) result }
    ensures sink { HasCause (Run fault.Write) last_count (O.faults out.old) (O.faults out.new)
        result }
{
    let paths = paths_of(words);
    let task = read_task(alloc, files, &paths)?;
    let meant = meant_pools(alloc, files, words, &task)?;
    let pools = place_grid(alloc, files, meant)?;
    let head = head_of(words, pools);
    match run_with_restarts(alloc, &task, &head, words.restarts, host, out) {
        Ok(ran) => Ok(ran),
        Err(fault) => Err(Stop::Run(fault)),
    }
}

/// Solves the task that the files spell, as `solve` (this project): reads the files, writes the
/// report, and answers how the run ends. The numbers of the words are in their ranges, and no child
/// runs before it and after it. Where the run stops, the cause is answered, and the line that tells
/// it isn't written: a file or text (`Input`, `Map`, `Grid`, `Failed`, `TooLong`), a bad answer, a
/// fault of the generator or of the sink, or want of memory (`Run`).
pub fn solve<F: Files, H: Host, O: Sink>(
    alloc: Global,
    words: &SolveConfig,
    files: &mut F,
    host: &mut H,
    out: &mut O,
) -> Result<Status, Stop>
    requires within { AreInRange (held_solve words.now) }
    requires idle { (k : ℕ) → H.running host.old k ≡ false }
    ensures ends { SolvesBy (held_solve words.now) (outside_of (seen_of F.told F.faults F.asked
        files.old files.new) H.spoken H.log host.old host.new) (host.new ≡ host.old)
        (written_of O.taken out.old out.new) result }
    ensures idle { (k : ℕ) → H.running host.new k ≡ false }
    ensures leaves { IfErr result (λ why. IsAtText why → host.new ≡ host.old) }
    ensures host { HasCause (Run fault.Generator) H.last (H.faults host.old) (H.faults host.new)
        result }
    ensures failed { AreCounted words.now.restarts (course H.Host host.old host.new) result }
    ensures sink { HasCause (Run fault.Write) last_count (O.faults out.old) (O.faults out.new)
        result }
{
    match report(alloc, words, files, host, out) {
        Ok(ran) => Ok(status_of(&ran.outcome)),
        Err(stop) => Err(stop),
    }
}
