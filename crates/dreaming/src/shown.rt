//! How the entries of a dream are shown.
ghost use Rattle.std.specs.Prelude.{◌≡◌, ◌+◌, ◌<◌, All, map, length, IfOk};
ghost use Rattle.lemmas.specs.Lists.{numbers_from};
ghost use Rattle.dreaming.specs.Parts.{entries_at, IsListed};
ghost use Rattle.task_model.specs.Dreams.{instances_of};
ghost use Rattle.transcript_model.specs.Names.{call_of_instance};

use optimistic_set::{OptEntry, Supposed};
use std::alloc::{AllocError, Global};
use task_model::{Seq, Task};
use transcript_model::{DreamUse, name_instance};

/// All places below a count.
pub(crate) fn all_places(alloc: Global, count: usize) -> Result<Vec<usize>, AllocError>
    ensures { IfOk result (λ places. places.items ≡ numbers_from 0 count) }
{
    let mut places = Vec::new(alloc);
    for place in 0..count {
        places.push(place)?;
    }
    Ok(places)
}

/// The entries at these places, each with its number from 1, and its stream and inputs by name.
pub(crate) fn uses_of(
    alloc: Global,
    task: &Task,
    supposed: &Supposed<'_>,
    places: &[usize],
) -> Result<Seq<DreamUse>, AllocError>
    requires listed { IsListed task.now supposed.now }
    requires below { All (λ place. place < length supposed.now.list) places.now }
    ensures numbers { IfOk result (λ uses. map (λ u. u.number) uses
        ≡ map (λ place. place + 1) places.now) }
    ensures calls { IfOk result (λ uses. map (λ u. u.call) uses
        ≡ map (call_of_instance task.now supposed.now.known.names)
        (instances_of (entries_at supposed.now.list places.now))) }
{
    let look = supposed.look();
    let mut uses = Vec::new(alloc);
    for place in places {
        let entry = supposed.entry(*place);
        let call = name_instance(alloc, task, &look, entry.instance())?;
        uses.push(DreamUse {
            number: *place as u32 + 1,
            call,
        })?;
    }
    Ok(Seq::from_vec(uses))
}

/// The entries at these places of a list. Fails only where memory is wanting.
pub fn entries_of(
    alloc: Global,
    supposed: &Supposed<'_>,
    places: &[usize],
) -> Result<Vec<OptEntry>, AllocError>
    requires { All (λ place. place < length supposed.now.list) places.now }
    ensures { IfOk result (λ entries. entries.items ≡ entries_at supposed.now.list places.now) }
{
    let mut entries = Vec::new(alloc);
    for place in places {
        entries.push(supposed.entry(*place).copy()?)?;
    }
    Ok(entries)
}
