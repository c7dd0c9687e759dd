//! Why a run has no verdict.
ghost use Rattle.std.specs.Prelude.{◌≡◌, IfOk, IfErr};
ghost use Rattle.validate_app.specs.Files.{most_text_bytes};
ghost use Rattle.validate_app.specs.Told.{text_role_word};
ghost use Rattle.validate_app.specs.Inputs.{text_stop};
ghost use Rattle.validate_app.specs.declared.stop.Stop.TheVariants.{Memory};

use legal_report::ReportFlaw;
use plan_reader::PLAN_BYTES;
use report_reader::REPORT_BYTES;
use std::alloc::Global;
use task_reader::{FaultKind, InputRefusal, TEXT_BYTES};

/// What a file is read for.
#[derive(Clone, Copy)]
pub(crate) enum FileRole {
    /// The domain.
    Domain,
    /// The problem.
    Problem,
    /// The streams.
    Streams,
    /// The report.
    Report,
    /// The plan.
    Plan,
}

impl FileRole {
    /// The most bytes of such a file.
    pub(crate) fn most(self) -> usize
        ensures { result ≡ most_text_bytes self }
    {
        match self {
            FileRole::Domain | FileRole::Problem | FileRole::Streams => TEXT_BYTES,
            FileRole::Report => REPORT_BYTES,
            FileRole::Plan => PLAN_BYTES,
        }
    }

    /// The word that stands for the file.
    pub(crate) fn word(self) -> &'static [u8]
        ensures { result.now ≡ text_role_word self }
    {
        match self {
            FileRole::Domain => b"domain",
            FileRole::Problem => b"problem",
            FileRole::Streams => b"streams",
            FileRole::Report => b"report",
            FileRole::Plan => b"plan",
        }
    }
}

/// Why a run has no verdict.
#[derive(Clone, Copy)]
pub(crate) enum Stop {
    /// The words are none of the program's.
    Usage,
    /// The text was refused for this fault at this place, in bytes from its beginning.
    Refused {
        role: FileRole,
        kind: FaultKind,
        place: usize,
    },
    /// The report certifies nothing, for this flaw in this line, from 1.
    Flawed {
        line: usize,
        flaw: ReportFlaw,
    },
    /// The file could not be read.
    Failed(FileRole),
    /// The file is too long.
    TooLong(FileRole),
    /// Memory is wanting.
    Memory,
}

/// The value in a box, which is dropped by one call.
pub(crate) fn boxed<T: Drop>(alloc: Global, content: T) -> Result<Box<T>, Stop>
    ensures content { IfOk result (λ b. b.value ≡ content) }
    ensures stop { IfErr result (λ stop. stop ≡ Memory) }
{
    match Box::new(alloc, content) {
        Ok(held) => Ok(held),
        Err(_) => Err(Stop::Memory),
    }
}

/// Why the run stops whose text is refused so.
pub(crate) fn stop_of(role: FileRole, refusal: InputRefusal) -> Stop
    ensures { result ≡ text_stop role refusal }
{
    match refusal {
        InputRefusal::At { kind, place } => Stop::Refused { role, kind, place },
        InputRefusal::Memory => Stop::Memory,
    }
}
