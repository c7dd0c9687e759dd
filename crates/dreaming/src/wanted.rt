//! The objects that a plan can't do without, and the entries that it names.
ghost use Rattle.std.specs.Prelude.{◌<◌, length, All, IfOk};
ghost use Rattle.std.specs.Ordering.{nat_cmp};
ghost use Rattle.lemmas.specs.Lists.{AreAscending};

use optimistic_set::{OptEntry, Supposed};
use std::alloc::{AllocError, Global};
use task_model::{Obj, Plan};

/// The objects that are wanted.
#[derive(Drop)]
pub(crate) struct Wanted {
    /// For each object whether it is wanted.
    flags: Vec<bool>,
    /// How many objects are known, which stand before the placeholders.
    known: usize,
}

impl Wanted {
    ghost use Rattle.std.specs.Prelude.{◌≡◌, ◌⊎◌, ℕ, List, true, Contains, IfOk};
    ghost use Rattle.task_model.specs.Known.{IsCoherent};
    ghost use Rattle.task_model.specs.declared.task.GroundAction.{GroundAction};
    ghost use Rattle.task_model.specs.declared.task.Task.{Task as AnyTask};
    ghost use Rattle.dreaming.specs.Parts.{IsListed};
    ghost use Rattle.dreaming.specs.Thinning.{AreEssential, IsWanted};

    /// The objects of the plan's steps, and the inputs of each entry that has a wanted output. An
    /// entry that has one can't be left out: the type of an output is known by its own entry alone.
    pub(crate) fn of(
        alloc: Global,
        supposed: &Supposed<'_>,
        plan: &Plan,
    ) -> Result<Wanted, AllocError>
        ensures { IfOk result (λ wanted. (task : AnyTask) → IsListed task supposed.now
            → AreEssential task supposed.now plan.now.steps wanted) }
    {
        let facts = supposed.facts();
        let known = facts.names().len();
        let count = known.saturating_add(supposed.names().len());
        let flags = vec![in alloc; false; count]?;
        let mut wanted = Wanted { flags, known };
        for step in plan.steps.as_slice() {
            wanted.want(step.args.as_slice());
        }
        wanted.want_inputs(supposed);
        Ok(wanted)
    }

    /// Wants these objects too.
    fn want(&mut self, objects: &[Obj])
        ensures { (object : ℕ) → IsWanted self.new object
            → IsWanted self.old object ⊎ Contains objects.now object }
    {
        for object in objects {
            let place = object.place() as usize;
            if place < self.flags.len() {
                self.flags[place] = true;
            }
        }
    }

    /// Wants, from the last entry to the first, the inputs of each that has a wanted output.
    fn want_inputs(&mut self, supposed: &Supposed<'_>)
        ensures { (task : AnyTask) (steps : List GroundAction) → IsListed task supposed.now
            → IsCoherent supposed.now.base → AreEssential task supposed.now steps self.old
            → AreEssential task supposed.now steps self.new }
    {
        for place in (0..supposed.len()).rev() {
            let entry = supposed.entry(place);
            if self.has_some(entry.outputs()) {
                self.want(entry.instance().inputs.as_slice());
            }
        }
    }

    /// Whether the object is wanted.
    fn has(&self, object: Obj) -> bool
        ensures { result ≡ true → IsWanted self.now object }
    {
        self.flags
            .get(object.place() as usize)
            .copied()
            .unwrap_or(false)
    }

    /// Whether one of these objects is wanted.
    pub(crate) fn has_some(&self, objects: &[Obj]) -> bool
        ensures { result ≡ true → (object : ℕ) × Contains objects.now object
            × IsWanted self.now object }
    {
        for object in objects {
            if self.has(*object) {
                return true;
            }
        }
        false
    }

    /// Whether none of these objects is a placeholder that isn't wanted.
    fn allows(&self, objects: &[Obj]) -> bool {
        objects.iter().all(|object| (object.place() as usize) < self.known || self.has(*object))
    }

    /// Whether an output of the entry is wanted, or, where it has none, an input, and no other
    /// placeholder is an input.
    fn takes(&self, entry: &OptEntry) -> bool {
        let inputs = entry.instance().inputs.as_slice();
        let outputs = entry.outputs();
        if outputs.is_empty() {
            self.allows(inputs) && (inputs.is_empty() || self.has_some(inputs))
        } else {
            self.has_some(outputs)
        }
    }
}

/// The places of the entries that a plan names, by what it wants. An entry is named if it has a
/// wanted output; or if it has none, and each placeholder among its inputs is wanted, and one input
/// is, if there are some. So a test of a wanted placeholder against an object that no step has is
/// named.
pub(crate) fn places_named(
    alloc: Global,
    supposed: &Supposed<'_>,
    wanted: &Wanted,
) -> Result<Vec<usize>, AllocError>
    ensures below { IfOk result (λ places.
        All (λ place. place < length supposed.now.list) places.items) }
    ensures ascend { IfOk result (λ places. AreAscending nat_cmp places.items) }
{
    let mut places = Vec::new(alloc);
    for place in 0..supposed.len() {
        if wanted.takes(supposed.entry(place)) {
            places.push(place)?;
        }
    }
    Ok(places)
}
