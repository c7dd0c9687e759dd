//! What `migrate` answers.
ghost use Rattle.std.specs.Prelude.{◌≡◌, ◌<◌, ◌^◌, length, IfOk};
ghost use Rattle.command_line.specs.Words.{migrate as to_migrate};
ghost use Rattle.pddlstream_app.specs.Answering.{IsMade};
ghost use Rattle.command_files.specs.Outside.{seen_of};
ghost use Rattle.pddlstream_app.specs.Replays.{IsMigrated};
ghost use Rattle.report_text.specs.Texts.{in_version, text_of_report};
ghost use Rattle.command_files.specs.declared.status.Status.TheVariants as status;

use crate::replay::said_of;
use crate::said::Said;
use command_files::{FileRole, Status, Stop, read_file};
use io_world::Files;
use replay_check::{BreachKind, Verdict};
use report_reader::read_report;
use report_text::{ReportFault, migrated};
use std::alloc::{AllocError, Global};
use transcript_model::Report;
use turn_run::RunFault;

/// A report in version 2. Fails only where memory is wanting.
fn report_said(alloc: Global, report: &Report) -> Result<Said, AllocError>
    ensures { IfOk result (λ said. (said.status ≡ status.Done)
        × (said.text.items ≡ text_of_report (in_version 2 report.now))) }
{
    let text = migrated(alloc, report)?;
    Ok(Said {
        status: Status::Done,
        text,
    })
}

/// The report that the bytes are, in version 2, or the first line up to which no report begins so.
/// Nothing is judged. Fails only where memory is wanting.
fn bytes_said(alloc: Global, bytes: &[u8]) -> Result<Said, AllocError>
    requires { length bytes.now < 2 ^ 31 }
    ensures { IfOk result (λ said. IsMigrated bytes.now said.status said.text.items) }
{
    match read_report(alloc, bytes) {
        Ok(report) => report_said(alloc, &report),
        Err(ReportFault::At { line, .. }) => said_of(
            alloc,
            Verdict::Invalid {
                line,
                kind: BreachKind::Text,
            },
        ),
        Err(ReportFault::Memory) => Err(AllocError),
    }
}

/// Reads the report's file, and prints the report in version 2.
pub(crate) fn migrate_answer<F: Files>(
    alloc: Global,
    path: &str,
    files: &mut F,
) -> Result<Said, Stop>
    ensures made { IsMade (to_migrate path.now)
        (seen_of F.told F.faults F.asked files.old files.new) result }
{
    let bytes = read_file(files, FileRole::Report, path)?;
    match bytes_said(alloc, bytes.as_slice()) {
        Ok(said) => Ok(said),
        Err(_) => Err(Stop::Run(RunFault::Memory)),
    }
}
