//! The report of the words, and what its transcript certifies.
ghost use Rattle.std.specs.Prelude.{◌≡◌, ◌≤◌, IfOk, IfErr, Some};
ghost use Rattle.task_model.specs.Fit.{IsFit};
ghost use Rattle.validate_app.specs.Files.{texts_seen_of};
ghost use Rattle.validate_app.specs.Held.{held_paths, held_report};
ghost use Rattle.validate_app.specs.Inputs.{IsCertain, IsPlainTaskOf, StopsAtText};

use crate::stop::{FileRole, Stop, boxed};
use crate::texts::read_file;
use crate::words::{Paths, ReportPaths};
use io_world::Files;
use learning::Knowledge;
use legal_report::{Certified, certify};
use std::alloc::Global;
use task_model::Task;

/// Reads the report that the words name, over the task that was read.
fn read_named_report<F: Files>(
    alloc: Global,
    files: &mut F,
    paths: &Paths<'_>,
    report: &ReportPaths<'_>,
    task: &Task,
) -> Result<Box<Knowledge>, Stop>
    requires named { (held_paths paths.now).certified ≡ Some (held_report report.now) }
    requires fit { IsFit task.now }
    requires task { IsPlainTaskOf (F.told files.old) (held_paths paths.now) task.now }
    ensures known { IfOk result (λ knowledge. IsCertain (F.told files.old) (held_paths paths.now)
        task.now knowledge.value.facts.known) }
    ensures stop { IfErr result (StopsAtText (texts_seen_of F.told F.faults files.old files.new)
        (held_paths paths.now)) }
    ensures same { F.told files.new ≡ F.told files.old }
    ensures later { F.faults files.old ≤ F.faults files.new }
{
    let bytes = match read_file(files, FileRole::Report, report.report) {
        Ok(bytes) => bytes,
        Err(stop) => return Err(stop),
    };
    match certify(alloc, task, bytes.as_slice()) {
        Ok(Certified::Legal(knowledge)) => boxed(alloc, knowledge),
        Ok(Certified::Flawed(line, flaw)) => Err(Stop::Flawed { line, flaw }),
        Err(_) => Err(Stop::Memory),
    }
}

/// Reads the report over the task that was read; where no report is named, its transcript is empty.
pub(crate) fn read_report<F: Files>(
    alloc: Global,
    files: &mut F,
    paths: &Paths<'_>,
    task: &Task,
) -> Result<Box<Knowledge>, Stop>
    requires fit { IsFit task.now }
    requires task { IsPlainTaskOf (F.told files.old) (held_paths paths.now) task.now }
    ensures known { IfOk result (λ knowledge. IsCertain (F.told files.old) (held_paths paths.now)
        task.now knowledge.value.facts.known) }
    ensures stop { IfErr result (StopsAtText (texts_seen_of F.told F.faults files.old files.new)
        (held_paths paths.now)) }
    ensures same { F.told files.new ≡ F.told files.old }
    ensures later { F.faults files.old ≤ F.faults files.new }
{
    match &paths.certified {
        Some(report) => read_named_report(alloc, files, paths, report, task),
        None => match Knowledge::new(alloc, task) {
            Ok(knowledge) => boxed(alloc, knowledge),
            Err(_) => Err(Stop::Memory),
        },
    }
}
