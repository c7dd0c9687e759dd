//! A list of entries that is being written.
ghost use Rattle.std.specs.Prelude.{◌≡◌, ◌≤◌, ◌<◌, ◌++◌, [], length, true, IfOk, OnOk, IfErr};
ghost use Rattle.task_model.specs.Dreams.{IsPass, supposing};
ghost use Rattle.task_model.specs.Fit.{IsFitDomain, is_fit_stream};
ghost use Rattle.task_model.specs.Known.{with_facts, with_values};
ghost use Rattle.task_model.specs.Streams.{certified_by, worth_by};
ghost use Rattle.task_model.specs.declared.limits.TheConstants.{MOST_SUPPOSED};
ghost use Rattle.task_model.specs.declared.task.Task.{Task as AnyTask};
ghost use Rattle.fact_join.specs.Adding.{ComesOf};
ghost use Rattle.instance_search.specs.Found.{IsFound, AreFound};
ghost use Rattle.optimistic_set.specs.Entries.{IsBase};
ghost use Rattle.optimistic_set.specs.Drafts.{IsDraft, IsPlainInstance, ArePlainInstances, AddsEntries, IsPushed, LacksPass, seeks_new};

use crate::entry::OptEntry;
use crate::fault::OptimisticFault;
use crate::placeholders::{add_placeholders, fresh_objects};
use crate::tried::Tried;
use fact_join::JoinFault;
use fact_layer::{Layer, More};
use fact_store::Facts;
use instance_queue::Queue;
use instance_search::{Names, Sought, found_instances, stream_of};
use learning::{certified_facts, worth_of};
use std::alloc::{AllocError, Global};
use task_model::{Domain, Instance, MOST_SUPPOSED, Name, Obj, Stream, Task};

/// Entries over a store, with what they certify.
#[derive(Drop)]
pub(crate) struct Draft<'a> {
    /// What is known without them.
    pub(crate) facts: &'a Facts,
    /// The placeholders' names.
    pub(crate) names: Vec<Name>,
    /// What they certify.
    pub(crate) more: More,
    /// The entries.
    pub(crate) entries: Vec<OptEntry>,
    /// Their instances.
    pub(crate) asked: Tried,
}

/// Which instances may become entries: those that haven't finished, weren't tried and have no
/// entry.
#[derive(Drop)]
struct Fresh<'a> {
    queue: &'a Queue,
    tried: &'a Tried,
    asked: &'a Tried,
}

impl<'a> Sought for Fresh<'a> {
    ghost use Rattle.optimistic_set.specs.Drafts.{seeks_new};

    ghost seeks = { λ fresh stream instance.
        seeks_new fresh.queue.now fresh.tried.now fresh.asked.now stream instance };

    /// Whether the instance may become an entry.
    fn seeks(&self, stream: &Stream, instance: &Instance) -> bool {
        self.queue.seeks(stream, instance) && !self.tried.has(instance) && !self.asked.has(instance)
    }
}

/// Puts what an entry of the stream certifies behind a store. Fails only where memory is wanting;
/// then some of it may be there.
pub fn add_certified(
    alloc: Global,
    more: &mut More,
    facts: &Facts,
    domain: &Domain,
    stream: &Stream,
    inputs: &[Obj],
    outputs: &[Obj],
) -> Result<(), AllocError>
    requires domain { IsFitDomain domain.now }
    requires stream { is_fit_stream domain.now stream.now ≡ true }
    requires inputs { length inputs.now ≡ length stream.now.inputs }
    requires outputs { length outputs.now ≡ length stream.now.outputs }
    ensures facts { OnOk result (facts.now.known.facts ++ more.new.facts
        ≡ with_facts (facts.now.known.facts ++ more.old.facts)
        (certified_by domain.now stream.now inputs.now outputs.now)) }
    ensures values { OnOk result (facts.now.known.values ++ more.new.values
        ≡ with_values (facts.now.known.values ++ more.old.values)
        (worth_by stream.now inputs.now 0)) }
{
    let certified = certified_facts(alloc, domain, stream, inputs, outputs)?;
    more.add_all(facts, certified.as_slice())?;
    match worth_of(alloc, domain, stream, inputs, 0) {
        Some(value) => {
            more.add_value(facts, value)?;
            Ok(())
        }
        None => Ok(()),
    }
}

impl<'a> Draft<'a> {
    ghost use Rattle.std.specs.Prelude.{◌+◌, ◌-◌};

    /// The list of no entries, which takes no memory.
    pub(crate) fn new(alloc: Global, facts: &'a Facts) -> Draft<'a>
        ensures draft { (task : AnyTask) → IsDraft task facts.now.known result }
        ensures empty { result.entries.items ≡ [] }
    {
        Draft {
            facts,
            names: Vec::new(alloc),
            more: More::new(alloc),
            entries: Vec::new(alloc),
            asked: Tried::new(alloc),
        }
    }

    /// Puts the entry of an instance behind the others.
    fn add_entry(
        &mut self,
        alloc: Global,
        task: &Task,
        instance: &Instance,
    ) -> Result<(), AllocError>
        requires base { IsBase task.now self.old.facts.now.known }
        requires draft { IsDraft task.now self.old.facts.now.known self.old }
        requires room { length self.old.entries.items < MOST_SUPPOSED }
        requires instance { IsPlainInstance task.now
            (self.old.facts.now.known.names ++ self.old.names.items) instance.now }
        ensures draft { OnOk result (IsDraft task.now self.old.facts.now.known self.new) }
        ensures pushed { OnOk result (IsPushed task.now self.old.facts.now.known instance.now
            self.old.entries.items self.new.entries.items) }
    {
        let Some(stream) = stream_of(task, instance.stream) else {
            unreachable!()
        };
        let first = self.facts.name_count() + self.names.len() as u32;
        let outputs = fresh_objects(alloc, first, stream.outputs.len())?;
        add_certified(
            alloc,
            &mut self.more,
            self.facts,
            &task.domain,
            stream,
            instance.inputs.as_slice(),
            outputs.as_slice(),
        )?;
        let number = self.entries.len() as u64 + 1;
        add_placeholders(alloc, &mut self.names, number, stream.outputs.len())?;
        self.asked.add(instance)?;
        self.entries.push(OptEntry::new(instance.copy()?, outputs))?;
        Ok(())
    }

    /// Puts the entries of instances behind the others.
    fn add_entries(
        &mut self,
        alloc: Global,
        task: &Task,
        instances: &[Instance],
    ) -> Result<(), AllocError>
        requires base { IsBase task.now self.old.facts.now.known }
        requires draft { IsDraft task.now self.old.facts.now.known self.old }
        requires room { length self.old.entries.items + length instances.now ≤ MOST_SUPPOSED }
        requires instances { ArePlainInstances task.now
            (self.old.facts.now.known.names ++ self.old.names.items) instances.now }
        ensures draft { OnOk result (IsDraft task.now self.old.facts.now.known self.new) }
        ensures added { OnOk result (AddsEntries task.now self.old.facts.now.known
            self.old.entries.items self.new.entries.items instances.now) }
    {
        for instance in instances {
            self.add_entry(alloc, task, instance)?;
        }
        Ok(())
    }

    /// The instances that come next: those that are due by what is known with the entries, have no
    /// entry, and weren't tried.
    fn next(
        &self,
        alloc: Global,
        task: &Task,
        queue: &Queue,
        tried: &Tried,
    ) -> Result<Vec<Instance>, JoinFault>
        requires base { IsBase task.now self.now.facts.now.known }
        requires draft { IsDraft task.now self.now.facts.now.known self.now }
        ensures found { IfOk result (λ instances. AreFound task.now
            (supposing task.now self.now.facts.now.known self.now.entries.items
            self.now.entries.items) (seeks_new queue.now tried.now self.now.asked)
            instances.items) }
        ensures few { IfOk result (λ instances. length instances.items
            ≤ MOST_SUPPOSED - length self.now.entries.items) }
        ensures fault { IfErr result (ComesOf (MOST_SUPPOSED - length self.now.entries.items)
            (IsFound task.now (supposing task.now self.now.facts.now.known self.now.entries.items
            self.now.entries.items) (seeks_new queue.now tried.now self.now.asked)) []) }
    {
        let look = Layer::new(self.facts, self.names.as_slice(), &self.more);
        let names = Names::new(self.facts.names(), self.names.as_slice());
        let asked = &self.asked;
        let fresh = Fresh {
            queue,
            tried,
            asked,
        };
        let most = MOST_SUPPOSED - self.entries.len();
        found_instances(alloc, task, &look, &names, &fresh, most)
    }

    /// Goes through all streams once: behind the entries come those of all instances that are due
    /// by what is known with the entries. Fails where more than 20,000 entries would be there, and
    /// where memory is wanting.
    pub(crate) fn pass(
        &mut self,
        alloc: Global,
        task: &Task,
        queue: &Queue,
        tried: &Tried,
    ) -> Result<(), OptimisticFault>
        requires base { IsBase task.now self.old.facts.now.known }
        requires draft { IsDraft task.now self.old.facts.now.known self.old }
        ensures draft { OnOk result (IsDraft task.now self.old.facts.now.known self.new) }
        ensures pass { OnOk result (IsPass task.now self.old.facts.now.known queue.now tried.now
            self.old.entries.items self.new.entries.items) }
        ensures fault { IfErr result (LacksPass task.now self.old.facts.now.known queue.now
            tried.now self.old.entries.items) }
    {
        let instances = self.next(alloc, task, queue, tried)?;
        self.add_entries(alloc, task, instances.as_slice())?;
        Ok(())
    }
}
