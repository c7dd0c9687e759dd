//! Requests and answers.
ghost use Rattle.std.specs.Prelude.{◌≡◌, ◌≤◌, Some, length, slice_get, IfOk, IfSome, IsTrue, OnOk};
ghost use Rattle.course_check.specs.Agendas.{KeepsRun};
ghost use Rattle.replay_check.specs.Standings.{AreBounds, IsNextRequest};
ghost use Rattle.replay_check.specs.Turns.{SettlesOn};
ghost use Rattle.replay_check.specs.Walks.{CanTake, IsEntryTaken};
ghost use Rattle.transcript_model.specs.Legal.{answered_number as number_in};
ghost use Rattle.transcript_model.specs.declared.entry.Entry.TheVariants as entry;
ghost use Rattle.transcript_model.specs.declared.limits.TheConstants.{MOST_CALLS};

use crate::bounds::Bounds;
use crate::finding::Finding;
use crate::requests::is_request;
use crate::standing::Standing;
use crate::verdict::BreachKind;
use legal_report::{Request, asked_by, may_answer};
use std::alloc::AllocError;
use transcript_model::Entry;

impl Standing {
    /// Whether the request is the next of the open round.
    fn is_next(&self, bounds: &Bounds<'_>, request: &Request<'_>) -> bool
        requires { length self.now.knowledge.asked.items ≤ MOST_CALLS }
        ensures yes { IsTrue result
            → IsNextRequest bounds.now.task.now self.now.knowledge self.now.course.batch
            request.now.number request.now.turn request.now.call.now }
        ensures no { IsNextRequest bounds.now.task.now self.now.knowledge self.now.course.batch
            request.now.number request.now.turn request.now.call.now → IsTrue result }
    {
        let knowledge = &self.knowledge;
        let due = knowledge.asked.len() as u32 + 1;
        let names = knowledge.facts.names();
        match self.course.next_asked() {
            Some(next) => is_request(bounds.task, names, &knowledge.queue, due, next, request),
            None => false,
        }
    }

    /// Takes the request at this place.
    pub(crate) fn take_ask(
        &mut self,
        bounds: &Bounds<'_>,
        request: &Request<'_>,
        entries: &[Entry],
        place: usize,
    ) -> Result<Finding, AllocError>
        requires can { CanTake bounds.now entries.now place self.old }
        requires here { slice_get entries.now place ≡ Some (entry.Ask request.now.number
            request.now.turn request.now.call.now) }
        ensures { IfOk result (IsEntryTaken bounds.now entries.now place self.new) }
    {
        let knowledge = &self.knowledge;
        let asked = asked_by(bounds.alloc, bounds.task, knowledge, bounds.calls, request)?;
        let Some(instance) = asked else {
            return Ok(Finding::Breaks(0, BreachKind::Ask));
        };
        if !self.is_next(bounds, request) {
            return Ok(Finding::Breaks(0, BreachKind::Order));
        }
        self.knowledge.ask(instance)?;
        self.course.ask();
        Ok(Finding::Holds)
    }

    /// Goes on with the next batch of a dream, or ends its turn, where the last of these entries is
    /// the last answer of its batch.
    fn settle(&mut self, bounds: &Bounds<'_>, entries: &[Entry]) -> Result<(), AllocError>
        requires bounds { AreBounds bounds.now }
        requires run { KeepsRun bounds.now.calls entries.now self.old.course }
        ensures { OnOk result (SettlesOn bounds.now entries.now self.old self.new) }
    {
        let point = bounds.point(&self.knowledge);
        self.course.settle(&point, entries)
    }

    /// Takes the answer at this place, to the request of this number.
    pub(crate) fn take_answer(
        &mut self,
        bounds: &Bounds<'_>,
        number: u32,
        entries: &[Entry],
        place: usize,
    ) -> Result<Finding, AllocError>
        requires can { CanTake bounds.now entries.now place self.old }
        requires here { IfSome (slice_get entries.now place) (λ e. number_in e ≡ Some number) }
        ensures { IfOk result (IsEntryTaken bounds.now entries.now place self.new) }
    {
        if !may_answer(bounds.task, &self.knowledge, number, &entries[place]) {
            return Ok(Finding::Breaks(0, BreachKind::Answer));
        }
        match self.course.next_answered() {
            Some(next) if next == number => {}
            _ => return Ok(Finding::Breaks(0, BreachKind::Order)),
        }
        self.knowledge.answer(
            bounds.alloc,
            bounds.task,
            bounds.version,
            number,
            entries,
            place,
        )?;
        self.course.answer(bounds.pools);
        self.settle(bounds, &entries[..place + 1])?;
        Ok(Finding::Holds)
    }
}
