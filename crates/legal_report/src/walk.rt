//! The entries of a report, one after another.
ghost use Rattle.std.specs.Prelude.{◌≡◌, ◌<◌, IfOk, IfSome, Some, length, slice_get};
ghost use Rattle.legal_report.specs.Walks.{IsReadable, IsEntryWalked, IsWalkDone, StandsAtEntry};
ghost use Rattle.transcript_model.specs.Legal.{answered_number as number_in};
ghost use Rattle.transcript_model.specs.declared.entry.Entry.TheVariants as entry;

use crate::flaw::ReportFlaw;
use crate::request::Request;
use crate::right_answers::may_answer;
use crate::right_asks::asked_by;
use learning::{Knowledge, answered};
use std::alloc::{AllocError, Global};
use task_model::Task;
use transcript_model::{Entry, MOST_CALLS};

/// The entries of a report over a task.
#[derive(Clone, Copy)]
pub(crate) struct Walk<'a> {
    pub(crate) alloc: Global,
    pub(crate) task: &'a Task,
    /// The report's version.
    pub(crate) version: u8,
    pub(crate) entries: &'a [Entry],
}

/// What the entries come to.
#[derive(Clone, Copy)]
pub(crate) enum Walked {
    /// They are legal.
    Ends,
    /// Those before this place, from 0, are legal, and the one there is wrong for this.
    Stops(usize, ReportFlaw),
}

impl Walk<'_> {
    /// Takes the request at this place, and answers what is wrong with it.
    fn take_ask(
        &self,
        knowledge: &mut Knowledge,
        place: usize,
        request: &Request<'_>,
    ) -> Result<Option<ReportFlaw>, AllocError>
        requires readable { IsReadable self.now }
        requires stands { StandsAtEntry self.now place knowledge.old }
        requires here { slice_get self.now.entries.now place
            ≡ Some (entry.Ask request.now.number request.now.turn request.now.call.now) }
        ensures { IfOk result (IsEntryWalked self.now place knowledge.new) }
    {
        match asked_by(self.alloc, self.task, knowledge, MOST_CALLS, request)? {
            Some(instance) => {
                knowledge.ask(instance)?;
                Ok(None)
            }
            None => Ok(Some(ReportFlaw::Ask)),
        }
    }

    /// Takes the answer at this place to the request of this number, and answers what is wrong with
    /// it.
    fn take_answer(
        &self,
        knowledge: &mut Knowledge,
        place: usize,
        number: u32,
    ) -> Result<Option<ReportFlaw>, AllocError>
        requires readable { IsReadable self.now }
        requires stands { StandsAtEntry self.now place knowledge.old }
        requires within { place < length self.now.entries.now }
        requires here { IfSome (slice_get self.now.entries.now place)
            (λ e. number_in e ≡ Some number) }
        ensures { IfOk result (IsEntryWalked self.now place knowledge.new) }
    {
        if !may_answer(self.task, knowledge, number, &self.entries[place]) {
            return Ok(Some(ReportFlaw::Answer));
        }
        knowledge.answer(
            self.alloc,
            self.task,
            self.version,
            number,
            self.entries,
            place,
        )?;
        Ok(None)
    }

    /// Takes the entry at this place, and answers what is wrong with it.
    fn take(
        &self,
        knowledge: &mut Knowledge,
        place: usize,
    ) -> Result<Option<ReportFlaw>, AllocError>
        requires readable { IsReadable self.now }
        requires stands { StandsAtEntry self.now place knowledge.old }
        requires within { place < length self.now.entries.now }
        ensures { IfOk result (IsEntryWalked self.now place knowledge.new) }
    {
        let entry = &self.entries[place];
        if let Some(number) = answered(entry) {
            return self.take_answer(knowledge, place, number);
        }
        match entry {
            Entry::Ask { number, turn, call } => {
                let (number, turn) = (*number, *turn);
                self.take_ask(knowledge, place, &Request { number, turn, call })
            }
            _ => Ok(None),
        }
    }

    /// Takes all entries, up to the first that is wrong. The knowledge is that of no entries, and in the
    /// end that of those that were taken.
    pub(crate) fn walk(&self, knowledge: &mut Knowledge) -> Result<Walked, AllocError>
        requires readable { IsReadable self.now }
        requires stands { StandsAtEntry self.now 0 knowledge.old }
        ensures { IfOk result (IsWalkDone self.now knowledge.new) }
    {
        for place in 0..self.entries.len() {
            if let Some(flaw) = self.take(knowledge, place)? {
                return Ok(Walked::Stops(place, flaw));
            }
        }
        Ok(Walked::Ends)
    }
}
