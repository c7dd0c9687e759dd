//! Dreams whose batches are run, one after another.
ghost use Rattle.std.specs.Prelude.{◌≡◌, ◌≤◌, [], IfOk};
ghost use Rattle.course_check.specs.Running.{AreNextOf, nothing_run, run_of};
ghost use Rattle.task_model.specs.Fit.{IsFit};
ghost use Rattle.transcript_model.specs.declared.limits.TheConstants.{MOST_CALLS};

use dream_asks::{DreamAsk, Gone};
use fact_store::Facts;
use instance_queue::Queue;
use optimistic_set::OptEntry;
use std::alloc::{AllocError, Global};
use task_model::Task;
use transcript_model::Entry;

/// The dream whose batches are run.
#[derive(Drop)]
pub(crate) struct Running {
    /// The entries that its plan needs.
    pub(crate) entries: Vec<OptEntry>,
    /// How many objects were real before it.
    pub(crate) real: u32,
    /// How many entries of the transcript stand before its first batch.
    pub(crate) from: usize,
    /// How many requests were made before.
    pub(crate) before: u32,
    /// What was asked of it, with the open batch.
    pub(crate) asks: Vec<DreamAsk>,
}

impl Running {
    /// A dream of which nothing was asked yet, behind so many entries and so many requests.
    pub(crate) fn new(
        alloc: Global,
        entries: Vec<OptEntry>,
        real: u32,
        from: usize,
        before: u32,
    ) -> Running
        ensures { run_of result ≡ record {
          entries = entries.items;
          real = real;
          from = from;
          before = before;
          asks = [];
        } }
    {
        Running {
            entries,
            real,
            from,
            before,
            asks: Vec::new(alloc),
        }
    }

    /// No dream.
    pub(crate) fn none(alloc: Global) -> Running
        ensures { run_of result ≡ nothing_run }
    {
        Running::new(alloc, Vec::new(alloc), 0, 0, 0)
    }

    /// What is asked of it next, where `behind` are the entries behind its first `from`. Fails only
    /// where memory is wanting.
    pub(crate) fn next_asks(
        &self,
        alloc: Global,
        task: &Task,
        facts: &Facts,
        queue: &Queue,
        behind: &[Entry],
    ) -> Result<Vec<DreamAsk>, AllocError>
        requires fit { IsFit task.now }
        requires few { self.now.before ≤ MOST_CALLS }
        ensures { IfOk result (λ asks. AreNextOf task.now facts.now.known queue.now
            (run_of self.now) behind.now asks.items) }
    {
        let mut gone = Gone::new(alloc, self.real);
        gone.note(facts, behind, self.before + 1, self.asks.as_slice())?;
        gone.next_asks(task, facts, queue, self.entries.as_slice())
    }
}
