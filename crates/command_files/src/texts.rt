//! The files of a command, each read after the texts before it were accepted.
ghost use Rattle.std.specs.Prelude.{◌≡◌, ◌≤◌, ◌++◌, Ok, Err, [], ◌∷◌, ℕ, List, IfOk, IfErr};
ghost use Rattle.std.specs.Fn.{FnOnceReturnsAt};
ghost use Rattle.io_world.specs.Faults.{Extends};
ghost use Rattle.command_files.specs.Inputs.{AreReported, EndsAtFile, EndsHere, IsInputRefused, IsTaskOf, ask, reads, stop_for, task_files};
ghost use Rattle.command_files.specs.Files.{FileWanted, HasBytes, HoldsFile, file_of};
ghost use Rattle.command_files.specs.Outside.{seen_of};
ghost use Rattle.command_files.specs.Paths.{held_files};
ghost use Rattle.command_files.specs.Stop.{IsOfInput};
ghost use Rattle.task_model.specs.Fit.{IsFit};
ghost use Rattle.task_reader.specs.Refusals.{Refuses};
ghost use Rattle.task_reader.specs.declared.refusal.InputRefusal.{InputRefusal};
ghost use Rattle.command_files.specs.declared.stop.FileRole.TheVariants as role;

use crate::stop::{FileRole, Stop, Text};
use io_world::{FileFault, Files};
use round_run::RunFault;
use std::alloc::Global;
use task_model::Task;
use task_reader::{InputRefusal, domain_in, problem_in, streams_in};

/// Reads the file of this path. Where it isn't read, the run ends at it, whatever texts stand
/// before it: `Failed` where the files' count of faults rose, `TooLong` where the file has more
/// bytes than its role allows (4 MiB, or 256 MiB of a report), or for want of memory.
pub fn read_file<F: Files>(files: &mut F, role: FileRole, path: &str) -> Result<Vec<u8>, Stop>
    ensures bytes { IfOk result (λ bytes.
        HasBytes (F.told files.old) (file_of role path.now) bytes.items) }
    ensures asked { IfOk result (λ _. Extends (F.asked files.old) (F.asked files.new)
        (ask (Ok tt) (file_of role path.now) ∷ [])) }
    ensures stop { IfErr result (λ why. (texts : List (List ℕ))
        → EndsHere (seen_of F.told F.faults F.asked files.old files.new) texts
        (file_of role path.now) why) }
    ensures same { F.told files.new ≡ F.told files.old }
    ensures later { F.faults files.old ≤ F.faults files.new }
    ensures input { IfErr result IsOfInput }
{
    match files.read(path, role.most()) {
        Ok(bytes) => Ok(bytes),
        Err(FileFault::Failed) => Err(Stop::Failed(role)),
        Err(FileFault::TooLong) => Err(Stop::TooLong(role)),
        Err(FileFault::Memory) => Err(Stop::Run(RunFault::Memory)),
    }
}

/// The paths of a task's three texts.
#[derive(Clone, Copy)]
pub struct TaskPaths<'a> {
    /// The domain's.
    pub domain: &'a str,
    /// The problem's.
    pub problem: &'a str,
    /// The streams'.
    pub streams: &'a str,
}

/// A task, and a report on it.
#[derive(Drop)]
pub struct Reported {
    /// The task that the three texts spell.
    pub task: Task,
    /// The bytes of the report's file.
    pub bytes: Vec<u8>,
}

/// Why the run stops whose text is refused so.
fn stop_of(text: Text, refusal: InputRefusal) -> Stop
    ensures stop { result ≡ stop_for text refusal }
    ensures input { IsOfInput result }
{
    match refusal {
        InputRefusal::At { kind, place } => Stop::Input { text, kind, place },
        InputRefusal::Memory => Stop::Run(RunFault::Memory),
    }
}

/// Reads the file of this path, and what its text spells.
fn read_as<F: Files, T, P: FnOnce(&[u8]) -> Result<T, InputRefusal>>(
    files: &mut F,
    text: Text,
    path: &str,
    parse: P,
) -> Result<T, Stop>
    requires { P.IsAlwaysCallable parse }
    ensures parsed { IfOk result (λ x. HoldsFile (F.told files.old)
        (file_of (role.Text text) path.now)
        (λ bytes. FnOnceReturnsAt P.FnOnce parse bytes (Ok x))) }
    ensures asked { IfOk result (λ _. Extends (F.asked files.old) (F.asked files.new)
        (ask (Ok tt) (file_of (role.Text text) path.now) ∷ [])) }
    // Where each refusal of the text has its cause behind these texts, the run ends at the file.
    ensures stop { IfErr result (λ why. (texts : List (List ℕ))
        → ((bytes : List ℕ) (r : InputRefusal) → FnOnceReturnsAt P.FnOnce parse bytes (Err r)
        → Refuses (IsInputRefused texts text bytes) r)
        → EndsHere (seen_of F.told F.faults F.asked files.old files.new) texts
        (file_of (role.Text text) path.now) why) }
    ensures same { F.told files.new ≡ F.told files.old }
    ensures later { F.faults files.old ≤ F.faults files.new }
    ensures input { IfErr result IsOfInput }
{
    let bytes = read_file(files, FileRole::Text(text), path)?;
    match parse(bytes.as_slice()) {
        Ok(value) => Ok(value),
        Err(refusal) => Err(stop_of(text, refusal)),
    }
}

/// Reads the task that the files spell. A file is read only after the texts before it were
/// accepted.
fn read_spelled<F: Files>(alloc: Global, files: &mut F, paths: &TaskPaths<'_>) -> Result<Task, Stop>
    ensures task { IfOk result (IsTaskOf (F.told files.old) (held_files paths.now)) }
    ensures asked { IfOk result (λ _. Extends (F.asked files.old) (F.asked files.new)
        (reads (task_files (held_files paths.now)))) }
    ensures stop { IfErr result (λ why. (more : List FileWanted)
        → EndsAtFile (seen_of F.told F.faults F.asked files.old files.new)
        (task_files (held_files paths.now) ++ more) why) }
    ensures same { F.told files.new ≡ F.told files.old }
    ensures later { F.faults files.old ≤ F.faults files.new }
    ensures input { IfErr result IsOfInput }
{
    let domain = read_as(files, Text::Domain, paths.domain, |bytes| {
        domain_in(alloc, bytes)
    })?;
    let problem = read_as(files, Text::Problem, paths.problem, |bytes| {
        problem_in(alloc, bytes, &domain)
    })?;
    let streams = read_as(files, Text::Streams, paths.streams, |bytes| {
        streams_in(alloc, bytes, &domain)
    })?;
    Ok(Task {
        domain,
        problem,
        streams,
    })
}

/// Reads the task that the files spell, which is fit. A file is read only after the texts before it
/// were accepted: the domain, then the problem, then the streams. Where one isn't read (as
/// `read_file` says) or its text is refused (`Input`), the run ends at that file.
pub fn read_task<F: Files>(
    alloc: Global,
    files: &mut F,
    paths: &TaskPaths<'_>,
) -> Result<Task, Stop>
    ensures task { IfOk result (IsTaskOf (F.told files.old) (held_files paths.now)) }
    ensures fit { IfOk result (λ task. IsFit task) }
    ensures asked { IfOk result (λ _. Extends (F.asked files.old) (F.asked files.new)
        (reads (task_files (held_files paths.now)))) }
    ensures stop { IfErr result (λ why. (more : List FileWanted)
        → EndsAtFile (seen_of F.told F.faults F.asked files.old files.new)
        (task_files (held_files paths.now) ++ more) why) }
    ensures same { F.told files.new ≡ F.told files.old }
    ensures later { F.faults files.old ≤ F.faults files.new }
    ensures input { IfErr result IsOfInput }
{
    read_spelled(alloc, files, paths)
}

/// Reads the task that the files spell, and then the bytes of a report on it, of which nothing is
/// asked. Where the task or the file isn't read, the run ends at that file, as `read_task` and
/// `read_file` say.
pub fn read_reported<F: Files>(
    alloc: Global,
    files: &mut F,
    paths: &TaskPaths<'_>,
    report: &str,
) -> Result<Reported, Stop>
    ensures read { IfOk result
        (AreReported (F.told files.old) (held_files paths.now) report.now) }
    ensures asked { IfOk result (λ _. Extends (F.asked files.old) (F.asked files.new)
        (reads (task_files (held_files paths.now) ++ file_of role.Report report.now ∷ []))) }
    ensures stop { IfErr result (λ why. (more : List FileWanted)
        → EndsAtFile (seen_of F.told F.faults F.asked files.old files.new)
        (task_files (held_files paths.now) ++ file_of role.Report report.now ∷ more) why) }
    ensures same { F.told files.new ≡ F.told files.old }
    ensures later { F.faults files.old ≤ F.faults files.new }
    ensures input { IfErr result IsOfInput }
{
    let task = read_task(alloc, files, paths)?;
    let bytes = read_file(files, FileRole::Report, report)?;
    Ok(Reported { task, bytes })
}
