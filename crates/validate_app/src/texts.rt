//! The files of the words, each read after the texts before it were accepted.
ghost use Rattle.std.specs.Prelude.{◌≡◌, ◌≤◌, [], IfOk, IfErr, Some, length};
ghost use Rattle.problem_reader.specs.Fitness.{IsFitOver};
ghost use Rattle.stream_reader.specs.Fitness.{AreFitOver};
ghost use Rattle.task_model.specs.Fit.{IsFit, IsFitDomain};
ghost use Rattle.validate_app.specs.Files.{EndsAt, HasTextBytes, texts_seen_of};
ghost use Rattle.validate_app.specs.Held.{held_paths, held_report};
ghost use Rattle.validate_app.specs.Inputs.{AreAcceptedBefore, AreStreamsByWords, HasProblem, IsDomainOf, IsPlanOf, IsProblemOf, IsPlainTaskOf, StopsAtText};
ghost use Rattle.validate_app.specs.declared.stop.FileRole.TheVariants.{Plan};

use crate::stop::{FileRole, Stop, boxed, stop_of};
use crate::words::{Paths, ReportPaths};
use io_world::{FileFault, Files};
use plan_reader::{claimed_cost, plan_in};
use std::alloc::Global;
use task_model::{Domain, Problem, Seq, Stream, Task};
use task_reader::{domain_in, problem_in, streams_in};
use transcript_model::Call;

/// Reads the file of this path.
pub(crate) fn read_file<F: Files>(
    files: &mut F,
    role: FileRole,
    path: &str,
) -> Result<Vec<u8>, Stop>
    ensures bytes { IfOk result (λ bytes. HasTextBytes (F.told files.old) role path.now
        bytes.items) }
    ensures stop { IfErr result (EndsAt (texts_seen_of F.told F.faults files.old files.new) role
        path.now) }
    ensures same { F.told files.new ≡ F.told files.old }
    ensures later { F.faults files.old ≤ F.faults files.new }
{
    match files.read(path, role.most()) {
        Ok(bytes) => Ok(bytes),
        Err(FileFault::Failed) => Err(Stop::Failed(role)),
        Err(FileFault::TooLong) => Err(Stop::TooLong(role)),
        Err(FileFault::Memory) => Err(Stop::Memory),
    }
}

/// Reads the domain.
fn read_domain<F: Files>(
    alloc: Global,
    files: &mut F,
    paths: &Paths<'_>,
) -> Result<Box<Domain>, Stop>
    ensures domain { IfOk result (λ domain. IsDomainOf (F.told files.old) (held_paths paths.now)
        domain.value) }
    ensures fit { IfOk result (λ domain. IsFitDomain domain.value) }
    ensures stop { IfErr result (StopsAtText (texts_seen_of F.told F.faults files.old files.new)
        (held_paths paths.now)) }
    ensures same { F.told files.new ≡ F.told files.old }
    ensures later { F.faults files.old ≤ F.faults files.new }
{
    let bytes = match read_file(files, FileRole::Domain, paths.domain) {
        Ok(bytes) => bytes,
        Err(stop) => return Err(stop),
    };
    match domain_in(alloc, bytes.as_slice()) {
        Ok(domain) => boxed(alloc, domain),
        Err(refusal) => Err(stop_of(FileRole::Domain, refusal)),
    }
}

/// Reads the problem over the domain that was read.
fn read_problem<F: Files>(
    alloc: Global,
    files: &mut F,
    paths: &Paths<'_>,
    domain: &Domain,
) -> Result<Box<Problem>, Stop>
    requires domain { IsDomainOf (F.told files.old) (held_paths paths.now) domain.now }
    ensures problem { IfOk result (λ problem. IsProblemOf (F.told files.old) (held_paths paths.now)
        domain.now problem.value) }
    ensures fit { IfOk result (λ problem. IsFitOver domain.now problem.value) }
    ensures stop { IfErr result (StopsAtText (texts_seen_of F.told F.faults files.old files.new)
        (held_paths paths.now)) }
    ensures same { F.told files.new ≡ F.told files.old }
    ensures later { F.faults files.old ≤ F.faults files.new }
{
    let bytes = match read_file(files, FileRole::Problem, paths.problem) {
        Ok(bytes) => bytes,
        Err(stop) => return Err(stop),
    };
    match problem_in(alloc, bytes.as_slice(), domain) {
        Ok(problem) => boxed(alloc, problem),
        Err(refusal) => Err(stop_of(FileRole::Problem, refusal)),
    }
}

/// No streams.
fn no_streams(alloc: Global) -> Seq<Stream>
    ensures { result ≡ [] }
{
    Seq::from_vec(Vec::new(alloc))
}

/// Reads the streams of the report that the words name, over the domain that was read.
fn read_named_streams<F: Files>(
    alloc: Global,
    files: &mut F,
    paths: &Paths<'_>,
    report: &ReportPaths<'_>,
    domain: &Domain,
) -> Result<Seq<Stream>, Stop>
    requires named { (held_paths paths.now).certified ≡ Some (held_report report.now) }
    requires domain { IsDomainOf (F.told files.old) (held_paths paths.now) domain.now }
    requires problem { HasProblem (F.told files.old) (held_paths paths.now) domain.now }
    ensures streams { IfOk result (AreStreamsByWords (F.told files.old) (held_paths paths.now)
        domain.now) }
    ensures fit { IfOk result (AreFitOver domain.now) }
    ensures stop { IfErr result (StopsAtText (texts_seen_of F.told F.faults files.old files.new)
        (held_paths paths.now)) }
    ensures same { F.told files.new ≡ F.told files.old }
    ensures later { F.faults files.old ≤ F.faults files.new }
{
    let bytes = match read_file(files, FileRole::Streams, report.streams) {
        Ok(bytes) => bytes,
        Err(stop) => return Err(stop),
    };
    match streams_in(alloc, bytes.as_slice(), domain) {
        Ok(streams) => Ok(streams),
        Err(refusal) => Err(stop_of(FileRole::Streams, refusal)),
    }
}

/// Reads the streams over the domain that was read; there are none where no report is named.
fn read_streams<F: Files>(
    alloc: Global,
    files: &mut F,
    paths: &Paths<'_>,
    domain: &Domain,
) -> Result<Seq<Stream>, Stop>
    requires domain { IsDomainOf (F.told files.old) (held_paths paths.now) domain.now }
    requires problem { HasProblem (F.told files.old) (held_paths paths.now) domain.now }
    ensures streams { IfOk result (AreStreamsByWords (F.told files.old) (held_paths paths.now)
        domain.now) }
    ensures fit { IfOk result (AreFitOver domain.now) }
    ensures stop { IfErr result (StopsAtText (texts_seen_of F.told F.faults files.old files.new)
        (held_paths paths.now)) }
    ensures same { F.told files.new ≡ F.told files.old }
    ensures later { F.faults files.old ≤ F.faults files.new }
{
    match &paths.certified {
        Some(report) => read_named_streams(alloc, files, paths, report, domain),
        None => Ok(no_streams(alloc)),
    }
}

/// Reads the task. It is fit.
pub(crate) fn read_task<F: Files>(
    alloc: Global,
    files: &mut F,
    paths: &Paths<'_>,
) -> Result<Box<Task>, Stop>
    ensures task { IfOk result (λ task. IsPlainTaskOf (F.told files.old) (held_paths paths.now)
        task.value) }
    ensures fit { IfOk result (λ task. IsFit task.value) }
    ensures stop { IfErr result (StopsAtText (texts_seen_of F.told F.faults files.old files.new)
        (held_paths paths.now)) }
    ensures same { F.told files.new ≡ F.told files.old }
    ensures later { F.faults files.old ≤ F.faults files.new }
{
    let domain = match read_domain(alloc, files, paths) {
        Ok(domain) => domain,
        Err(stop) => return Err(stop),
    };
    let problem = match read_problem(alloc, files, paths, &domain) {
        Ok(problem) => problem,
        Err(stop) => return Err(stop),
    };
    match read_streams(alloc, files, paths, &domain) {
        Ok(streams) => {
            let domain = Box::into_inner(domain);
            let problem = Box::into_inner(problem);
            boxed(
                alloc,
                Task {
                    domain,
                    problem,
                    streams,
                },
            )
        }
        Err(stop) => Err(stop),
    }
}

/// A plan that was read.
#[derive(Drop)]
pub(crate) struct ReadPlan {
    /// Its steps.
    pub(crate) calls: Vec<Call>,
    /// The cost that it claims.
    pub(crate) claimed: Option<u64>,
}

/// Reads the plan, behind the task and the transcript that were read.
pub(crate) fn read_plan<F: Files>(
    alloc: Global,
    files: &mut F,
    paths: &Paths<'_>,
) -> Result<ReadPlan, Stop>
    requires { AreAcceptedBefore (F.told files.old) (held_paths paths.now) Plan }
    ensures plan { IfOk result (λ plan. IsPlanOf (F.told files.old) (held_paths paths.now)
        plan.calls.items plan.claimed) }
    ensures few { IfOk result (λ plan. length plan.calls.items ≤ 33554433) }
    ensures stop { IfErr result (StopsAtText (texts_seen_of F.told F.faults files.old files.new)
        (held_paths paths.now)) }
    ensures later { F.faults files.old ≤ F.faults files.new }
{
    let bytes = match read_file(files, FileRole::Plan, paths.plan) {
        Ok(bytes) => bytes,
        Err(stop) => return Err(stop),
    };
    match plan_in(alloc, bytes.as_slice()) {
        Ok(calls) => Ok(ReadPlan {
            calls,
            claimed: claimed_cost(bytes.as_slice()),
        }),
        Err(refusal) => Err(stop_of(FileRole::Plan, refusal)),
    }
}
