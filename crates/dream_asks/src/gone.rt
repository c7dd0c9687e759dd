//! How far a dream has come.
use crate::answers::{answers_from, first_objects};
use crate::asks::DreamAsk;
use fact_store::Facts;
use indexmap::IndexMap;
use instance_queue::Queue;
use optimistic_set::{OptEntry, Tried};
use std::alloc::{AllocError, Global};
use std::marker::Model;
use task_model::{Instance, Obj, Row, Task};
use transcript_model::Entry;

/// What was asked of a dream so far, and which objects came for its placeholders. Of several
/// entries that have become one instance the first is asked, and the placeholders of the others
/// stay open.
#[derive(Drop)]
pub struct Gone {
    real: u32,
    taken: Tried,
    /// The object that came for a placeholder.
    values: IndexMap<Obj, Obj>,
    alloc: Global,
}

impl Model for Gone {
    ghost use Rattle.dream_asks.specs.Progress.{Progress};

    ghost Value = { Progress };

    ghost view = { λ g. record { real = g.real; taken = g.taken; values = g.values.entries } };
}

impl Gone {
    ghost use Rattle.std.specs.Prelude.{◌≡◌, ◌||◌, ◌↔◌, ℕ, [], List, IsTrue, IfOk, OnOk};
    ghost use Rattle.std.specs.List.{list_any};
    ghost use Rattle.std.specs.Option.{option_or};
    ghost use Rattle.dream_asks.specs.Next.{AreNext, ready_by};
    ghost use Rattle.dream_asks.specs.Noting.{NotesAnswers, came_by};
    ghost use Rattle.dream_asks.specs.Progress.{IsProgress, became, got, stands};
    ghost use Rattle.task_model.specs.Fit.{IsFit};
    ghost use Rattle.task_model.specs.Streams.{same_instance};
    ghost use Rattle.task_model.specs.declared.task.Task.{Task as AnyTask};
    ghost use Rattle.transcript_model.specs.Dreaming.{paired};
    ghost use Rattle.transcript_model.specs.declared.entry.Entry.{Entry as AnyEntry};

    /// Nothing was asked of a dream before which so many objects were real.
    pub fn new(alloc: Global, real: u32) -> Gone
        ensures real { result.real ≡ real }
        ensures none { (task : AnyTask) (before : List AnyEntry)
            → IsProgress task before result [] }
    {
        Gone {
            real,
            taken: Tried::new(alloc),
            values: IndexMap::new(alloc),
            alloc,
        }
    }

    /// Whether nothing was asked.
    pub fn is_empty(&self) -> bool
        ensures { IsTrue result ↔ (self.now.taken ≡ []) }
    {
        self.taken.is_empty()
    }

    /// The object that stands for an object of the dream.
    fn object(&self, object: Obj) -> Option<Obj>
        ensures { result ≡ stands self.now object }
    {
        match self.values.get(&object) {
            Some(real) => Some(*real),
            None if object.place() < self.real => Some(object),
            None => None,
        }
    }

    /// The instance that an entry's has become, where an object stands for each of its inputs.
    fn become_real(&self, instance: &Instance) -> Result<Option<Instance>, AllocError>
        ensures { IfOk result (λ found. found ≡ became self.now instance.now) }
    {
        let mut inputs = Row::empty(self.alloc);
        for object in instance.inputs.as_slice() {
            match self.object(*object) {
                Some(real) => inputs.push(real)?,
                None => return Ok(None),
            }
        }
        Ok(Some(Instance {
            stream: instance.stream,
            inputs,
        }))
    }

    /// The instance that an entry's has become, if that is due and was asked neither of this dream
    /// nor now.
    fn ready(
        &self,
        task: &Task,
        facts: &Facts,
        queue: &Queue,
        now: &Tried,
        instance: &Instance,
    ) -> Result<Option<Instance>, AllocError>
        requires { IsFit task.now }
        ensures { IfOk result (λ found. found
            ≡ ready_by task.now facts.now.known queue.now self.now
            (λ i. list_any (same_instance i) now.now || list_any (same_instance i) self.now.taken)
            instance.now) }
    {
        let Some(found) = self.become_real(instance)? else {
            return Ok(None);
        };
        if queue.is_due(task, facts, &found) && !now.has(&found) && !self.taken.has(&found) {
            return Ok(Some(found));
        }
        Ok(None)
    }

    /// What is asked of the dream next, in the order of its entries: those that have become
    /// instances that are due and weren't asked of it before, each once. The batches of a dream are
    /// this project's, after PDDLStream (2020).
    ///
    /// # Errors
    /// Only where memory is wanting.
    pub fn next_asks(
        &self,
        task: &Task,
        facts: &Facts,
        queue: &Queue,
        entries: &[OptEntry],
    ) -> Result<Vec<DreamAsk>, AllocError>
        requires { IsFit task.now }
        ensures { IfOk result (λ asks. AreNext task.now facts.now.known queue.now self.now
            entries.now asks.items) }
    {
        let mut asks = Vec::new(self.alloc);
        let mut now = Tried::new(self.alloc);
        for entry in entries {
            if let Some(instance) = self.ready(task, facts, queue, &now, entry.instance())? {
                now.add(&instance)?;
                let outputs = Row::new(self.alloc, entry.outputs())?;
                asks.push(DreamAsk { instance, outputs })?;
            }
        }
        Ok(asks)
    }

    /// Notes which objects came for these placeholders, where none came before.
    fn put(&mut self, outputs: &[Obj], objects: &[Obj]) -> Result<(), AllocError>
        ensures real { self.new.real ≡ self.old.real }
        ensures taken { self.new.taken ≡ self.old.taken }
        ensures got { OnOk result ((o : ℕ) → got self.new o
            ≡ option_or (got self.old o) (paired outputs.now objects.now o)) }
    {
        for (place, output) in outputs.iter().enumerate() {
            let Some(object) = objects.get(place) else {
                return Ok(());
            };
            if !self.values.contains_key(output) {
                self.values.insert(*output, *object)?;
            }
        }
        Ok(())
    }

    /// Notes which objects came for these placeholders by the answer to the request of this number.
    fn note_answer(
        &mut self,
        facts: &Facts,
        behind: &[Entry],
        number: u64,
        outputs: &[Obj],
    ) -> Result<(), AllocError>
        ensures real { self.new.real ≡ self.old.real }
        ensures taken { self.new.taken ≡ self.old.taken }
        ensures got { OnOk result ((o : ℕ) → got self.new o ≡ option_or (got self.old o)
            (came_by facts.now.known.names behind.now number outputs.now o)) }
    {
        match first_objects(self.alloc, facts, behind, number, outputs.len())? {
            Some(objects) => self.put(outputs, objects.as_slice()),
            None => Ok(()),
        }
    }

    /// Notes that these asks were made, with numbers from `first` on, and which objects came for
    /// their placeholders. `behind` are the entries that came since. Only these are read, so no
    /// batch goes through the whole transcript, and once where answers come in their order.
    ///
    /// # Errors
    /// Only where memory is wanting.
    pub fn note(
        &mut self,
        facts: &Facts,
        behind: &[Entry],
        first: u32,
        asks: &[DreamAsk],
    ) -> Result<(), AllocError>
        ensures real { self.new.real ≡ self.old.real }
        ensures noted { OnOk result (NotesAnswers facts.now.known.names behind.now first asks.now
            self.old self.new) }
    {
        let mut left = behind;
        for (place, ask) in asks.iter().enumerate() {
            let number = u64::from(first) + place as u64;
            self.taken.add(&ask.instance)?;
            left = answers_from(left, number);
            self.note_answer(facts, left, number, ask.outputs.as_slice())?;
        }
        Ok(())
    }
}
