//! From which calls generated objects came.
ghost use Rattle.std.specs.Prelude.{◌≡◌, map, All, Contains, IfOk};
ghost use Rattle.std.specs.Ordering.{nat_cmp};
ghost use Rattle.std.specs.Cmp.Lexicographic.{slice_cmp};
ghost use Rattle.shown_plan.specs.Sources.{IsEven, IsGivenValue};
ghost use Rattle.lemmas.specs.Lists.{AreAscending};
ghost use Rattle.transcript_model.specs.Outcomes.{IsOrigin};
ghost use Rattle.transcript_model.specs.declared.outcome.Origin.{Origin};

use crate::source::Source;
use crate::sources::{source_of, sources_of};
use std::alloc::{AllocError, Global};
use std::collections::BTreeSet;
use task_model::{Name, Seq};
use transcript_model::{Entry, Origin};

/// The tuple that the report shows: 1 in version 1.
fn shown_tuple(version: u8, source: Source) -> u8
    ensures one { version ≡ 1 → result ≡ 1 }
    ensures tuple { ¬ (version ≡ 1) → result ≡ source.tuple }
{
    if version == 1 { 1 } else { source.tuple }
}

/// The generated object with its origin.
fn origin_of(alloc: Global, version: u8, name: &[u8], source: Source) -> Result<Origin, AllocError>
    ensures object { IfOk result (λ origin. origin.object ≡ name.now) }
    ensures number { IfOk result (λ origin. origin.number ≡ source.number) }
    ensures one { IfOk result (λ origin. version ≡ 1 → origin.tuple ≡ 1) }
    ensures tuple { IfOk result (λ origin. ¬ (version ≡ 1) → origin.tuple ≡ source.tuple) }
{
    Ok(Origin {
        object: Name::from_slice(alloc, name)?,
        number: source.number,
        tuple: shown_tuple(version, source),
    })
}

/// The generated objects, in order of bytes, with their origins.
pub(crate) fn origins_of(
    alloc: Global,
    version: u8,
    entries: &[Entry],
    names: &BTreeSet<&[u8]>,
) -> Result<Seq<Origin>, AllocError>
    requires even { All IsEven entries.now }
    requires given { All (IsGivenValue entries.now) (map (λ n. n.now) names.now.keys) }
    ensures objects { IfOk result (λ from. map (λ o. o.object) from
        ≡ map (λ n. n.now) names.now.keys) }
    ensures ascend { IfOk result (λ from. AreAscending (slice_cmp nat_cmp)
        (map (λ o. o.object) from)) }
    ensures origins { IfOk result (λ from. (o : Origin) → Contains from o
        → IsOrigin version entries.now o) }
{
    let sources = sources_of(alloc, entries, names)?;
    let mut from = Vec::with_capacity(alloc, names.len())?;
    for name in names {
        let Some(source) = source_of(&sources, *name) else {
            unreachable!()
        };
        let origin = origin_of(alloc, version, *name, source)?;
        from.push(origin)?;
    }
    Ok(Seq::from_vec(from))
}
