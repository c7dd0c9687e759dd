//! Texts of parts of a report, in memory.
ghost use Rattle.std.specs.Prelude.{◌≡◌, ◌<◌, [], All, Some, length, IfOk, IsOk};
ghost use Rattle.report_text.specs.Texts.{in_version, text_of_entry, text_of_head, text_of_outcome, text_of_report};

use crate::write_entry::put_entry;
use crate::write_head::put_head;
use crate::write_outcome::put_outcome;
use crate::write_report::put_report;
use io_world::{FaultCount, Sink, SinkFault};
use std::alloc::{AllocError, Global};
use task_model::Task;
use transcript_model::{Entry, Head, Outcome, Report};

/// A text that grows by what is written to it. It fails only where memory is wanting.
#[derive(Drop)]
struct HeldText {
    bytes: Vec<u8>,
    faults: FaultCount,
}

impl HeldText {
    /// No text yet.
    fn new(alloc: Global) -> HeldText
        ensures { result.bytes.items ≡ [] }
    {
        HeldText {
            bytes: Vec::new(alloc),
            faults: FaultCount::new(),
        }
    }

    /// The text, where all of it was written.
    fn whole(self, written: Result<(), SinkFault>) -> Result<Vec<u8>, AllocError>
        ensures { IfOk result (λ text. (text.items ≡ self.bytes.items) × IsOk written) }
    {
        match written {
            Ok(()) => Ok(self.bytes),
            Err(_) => Err(AllocError),
        }
    }
}

impl Sink for HeldText {
    ghost faults = { λ s. s.faults };

    ghost taken = { λ s. Some s.bytes.items };

    fn write(&mut self, bytes: &[u8]) -> Result<usize, SinkFault> {
        match self.bytes.extend_from_slice(bytes) {
            Ok(()) => Ok(bytes.len()),
            Err(_) => {
                self.faults.raise();
                Err(SinkFault::Failed)
            }
        }
    }

    fn faults(&self) -> u64 {
        self.faults.get()
    }
}

/// The lines of an entry. Fails only where memory is wanting.
pub fn entry_text(alloc: Global, entry: &Entry) -> Result<Vec<u8>, AllocError>
    ensures { IfOk result (λ text. text.items ≡ text_of_entry entry.now) }
{
    let mut text = HeldText::new(alloc);
    let written = put_entry(&mut text, entry);
    text.whole(written)
}

/// The first lines of a report. Fails only where memory is wanting.
pub fn head_text(alloc: Global, task: &Task, head: &Head) -> Result<Vec<u8>, AllocError>
    requires { All (λ pool. All (λ stream. stream < length task.now.streams) pool.streams)
        head.now.pools }
    ensures { IfOk result (λ text. text.items ≡ text_of_head task.now head.now) }
{
    let mut text = HeldText::new(alloc);
    let written = put_head(&mut text, task, head);
    text.whole(written)
}

/// The lines of an outcome, as this version of reports has them. Fails only where memory is
/// wanting.
pub fn outcome_text(alloc: Global, outcome: &Outcome, version: u8) -> Result<Vec<u8>, AllocError>
    ensures { IfOk result (λ text. text.items ≡ text_of_outcome version outcome.now) }
{
    let mut text = HeldText::new(alloc);
    let written = put_outcome(&mut text, outcome, version);
    text.whole(written)
}

/// The lines of a report in the latest version of reports, which is 2: a report of version 1 with
/// the tuple of each origin, and a report of version 2 as it is. Fails only where memory is
/// wanting.
pub fn migrated(alloc: Global, report: &Report) -> Result<Vec<u8>, AllocError>
    ensures { IfOk result (λ text. text.items ≡ text_of_report (in_version 2 report.now)) }
{
    let mut text = HeldText::new(alloc);
    let written = put_report(&mut text, report, 2);
    text.whole(written)
}
