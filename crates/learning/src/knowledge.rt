//! What the entries so far certify and tell, and which requests they made.
ghost use Rattle.std.specs.Prelude.{◌≡◌, IfOk};
ghost use Rattle.task_model.specs.declared.task.Task.{Task as AnyTask};
ghost use Rattle.learning.specs.Numbers.{without};
ghost use Rattle.transcript_model.specs.declared.limits.TheConstants.{MOST_CALLS};

use crate::learn::learn_from;
use fact_store::Facts;
use instance_queue::Queue;
use std::alloc::{AllocError, Global};
use task_model::{Instance, Task};
use transcript_model::Entry;

/// What is known and noted after the entries so far, the instances that they asked, and the numbers
/// of the requests that have no answer yet.
#[derive(Drop)]
pub struct Knowledge {
    /// What is known.
    pub facts: Facts,
    /// What the instances were told.
    pub queue: Queue,
    /// The instances that were asked: that of request number n stands at place n - 1.
    pub asked: Vec<Instance>,
    /// The numbers of the requests that have no answer yet.
    pub unanswered: Vec<u32>,
}

/// The numbers without this one.
fn left_out(alloc: Global, numbers: &[u32], number: u32) -> Result<Vec<u32>, AllocError>
    ensures { IfOk result (λ kept. kept.items ≡ without number numbers.now) }
{
    let mut kept = Vec::new(alloc);
    for n in numbers {
        if number != *n {
            kept.push(*n)?;
        }
    }
    Ok(kept)
}

impl Knowledge {
    ghost use Rattle.std.specs.Prelude.{ℕ, ◌+◌, ◌≤◌, ◌<◌, ◌∷◌, [], ◌++◌, length, take, Some, slice_get, OnOk, OnErr, List};
    ghost use Rattle.fact_store.specs.Growth.{IsBetween, LiesBetween};
    ghost use Rattle.learning.specs.Learning.{CanLearn};
    ghost use Rattle.learning.specs.Knowledge.{IsKnowledge, is_waiting as waits, asked_it};
    ghost use Rattle.lemmas.specs.Lists.{has_number};
    ghost use Rattle.task_model.specs.Fit.{IsFit};
    ghost use Rattle.transcript_model.specs.Legal.{IsRightAsk, MayFollow, answered_number};
    ghost use Rattle.transcript_model.specs.Names.{instance_of};
    ghost use Rattle.transcript_model.specs.Transcript.{known_of, names_of, notes_of};
    ghost use Rattle.transcript_model.specs.declared.entry.Call.{Call as AnyCall};
    ghost use Rattle.transcript_model.specs.declared.entry.Entry.{Entry as AnyEntry};
    ghost use Rattle.transcript_model.specs.declared.entry.Entry.TheVariants as entry;

    /// What is known at first.
    pub fn new(alloc: Global, task: &Task) -> Result<Knowledge, AllocError>
        requires { IsFit task.now }
        ensures { IfOk result (λ knowledge. (version : ℕ) → IsKnowledge version task.now [] knowledge) }
    {
        Ok(Knowledge {
            facts: Facts::new(alloc, task)?,
            queue: Queue::new(alloc, task)?,
            asked: Vec::new(alloc),
            unanswered: Vec::new(alloc),
        })
    }

    /// Whether the request of this number has no answer yet.
    pub fn is_open(&self, number: u32) -> bool
        ensures { result ≡ has_number self.now.unanswered.items number }
    {
        self.unanswered.iter().any(|n| number == *n)
    }

    /// Whether the request of this number asked the instance.
    fn asked_it(&self, instance: &Instance, number: u32) -> bool
        ensures { result ≡ asked_it self.now.asked.items instance.now number }
    {
        match self.asked.get(number.saturating_sub(1) as usize) {
            Some(other) => *other == *instance,
            None => false,
        }
    }

    /// Whether a request of the instance has no answer yet.
    pub fn is_waiting(&self, instance: &Instance) -> bool
        ensures { result ≡ waits self.now.asked.items self.now.unanswered.items instance.now }
    {
        self.unanswered.iter().any(|n| self.asked_it(instance, *n))
    }

    /// Takes a request of the instance, which may be made.
    pub fn ask(&mut self, instance: Instance) -> Result<(), AllocError>
        requires { length self.old.asked.items < MOST_CALLS }
        ensures kept { OnOk result ((version turn : ℕ) (task : AnyTask) (before : List AnyEntry)
            (call : AnyCall) → IsKnowledge version task before self.old
            → IsRightAsk task before (length self.old.asked.items + 1) turn call
            → instance_of task (names_of task before) call ≡ Some instance
            → IsKnowledge version task
            (before ++ entry.Ask (length self.old.asked.items + 1) turn call ∷ []) self.new) }
    {
        let number = self.asked.len() as u32 + 1;
        self.unanswered.push(number)?;
        self.asked.push(instance)?;
        Ok(())
    }

    /// Learns what the entries from a place on certify and tell, where its instances were asked: it
    /// is put behind what is known and noted after the entries before that place. The transcript is
    /// legal. Fails only where memory is wanting; then a part of it may be known and noted, and
    /// nothing else. What was asked and is unanswered stays.
    // Ten clauses: four of what it goes on from, and one of each part of the knowledge, for which
    // callers ask one by one.
    pub fn learn(
        &mut self,
        alloc: Global,
        task: &Task,
        entries: &[Entry],
        from: usize,
    ) -> Result<(), AllocError>
        requires can { CanLearn task.now self.old.asked.items entries.now }
        requires from { from ≤ length entries.now }
        requires known { self.old.facts.known ≡ known_of task.now (take from entries.now) }
        requires notes { self.old.queue ≡ notes_of task.now (take from entries.now) }
        ensures known { OnOk result (self.new.facts.known ≡ known_of task.now entries.now) }
        ensures notes { OnOk result (self.new.queue ≡ notes_of task.now entries.now) }
        ensures part { OnErr result (LiesBetween self.old.facts.known self.new.facts.known
            (known_of task.now entries.now)) }
        ensures noted { OnErr result (IsBetween self.old.queue self.new.queue
            (notes_of task.now entries.now)) }
        ensures asked { self.new.asked ≡ self.old.asked }
        ensures unanswered { self.new.unanswered ≡ self.old.unanswered }
    {
        let asked = self.asked.as_slice();
        let facts = &mut self.facts;
        let queue = &mut self.queue;
        learn_from(alloc, task, facts, queue, asked, entries, from)
    }

    /// Takes the entry at this place, which may follow those before it and answers the request of
    /// this number.
    // Seven parameters: the entry is one of a transcript, whose version and task say what may
    // follow.
    pub fn answer(
        &mut self,
        alloc: Global,
        task: &Task,
        version: u8,
        number: u32,
        entries: &[Entry],
        place: usize,
    ) -> Result<(), AllocError>
        requires knowledge { IsKnowledge version task.now (take place entries.now) self.old }
        requires few { length self.old.asked.items ≤ MOST_CALLS }
        requires there { (e : AnyEntry) × (slice_get entries.now place ≡ Some e)
            × (answered_number e ≡ Some number)
            × MayFollow version task.now (take place entries.now) e }
        ensures { OnOk result (IsKnowledge version task.now (take (place + 1) entries.now) self.new) }
    {
        self.unanswered = left_out(alloc, self.unanswered.as_slice(), number)?;
        self.learn(alloc, task, &entries[..place + 1], place)
    }
}
