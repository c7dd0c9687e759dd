//! What one tuple of a yield certifies.
ghost use Rattle.std.specs.Prelude.{◌≡◌, ◌≤◌, ◌<◌, ◌+◌, map, length, All, IfOk, OnOk, OnErr};
ghost use Rattle.learning.specs.Tuples.{ArePlain, MayTeach, Teaches, with_tuple};
ghost use Rattle.task_model.specs.Known.{IsIn, with_facts};
ghost use Rattle.task_model.specs.Streams.{output_types, fact_of};
ghost use Rattle.task_model.specs.Truth.{slots_of};
ghost use Rattle.fact_store.specs.Growth.{IsBetween, LiesBetween};
ghost use Rattle.fact_store.specs.declared.facts.TheConstants.{MOST_NAMES};
ghost use Rattle.task_model.specs.declared.limits.TheConstants.{SLOTS};

use crate::outputs::name_outputs;
use fact_store::{Facts, add_supertypes};
use formula_eval::{Env, objects_at};
use std::alloc::{AllocError, Global};
use task_model::{Domain, Fact, Kind, Name, Obj, Pattern, Row, Stream};

/// That each of these objects has its type, with all supertypes. Fails only where memory is
/// wanting; then the first of these facts may be known.
fn learn_types(
    alloc: Global,
    facts: &mut Facts,
    domain: &Domain,
    sorts: &[u32],
    objects: &[Obj],
) -> Result<(), AllocError>
    requires long { length objects.now ≡ length sorts.now }
    requires named { All (IsIn facts.old.known.names) objects.now }
    ensures facts { OnOk result (facts.new.known.facts
        ≡ with_facts facts.old.known.facts (output_types domain.now sorts.now objects.now)) }
    ensures part { OnErr result (IsBetween facts.old.known.facts facts.new.known.facts
        (with_facts facts.old.known.facts
        (output_types domain.now sorts.now objects.now))) }
    ensures names { facts.new.known.names ≡ facts.old.known.names }
    ensures values { facts.new.known.values ≡ facts.old.known.values }
{
    for (place, sort) in sorts.iter().enumerate() {
        add_supertypes(alloc, facts, domain, *sort, objects[place])?;
    }
    Ok(())
}

/// That the patterns' atoms are facts where the slots have these objects. Fails only where memory
/// is wanting; then the first of them may be known.
fn learn_atoms(
    alloc: Global,
    facts: &mut Facts,
    patterns: &[Pattern],
    args: &[Obj],
) -> Result<(), AllocError>
    requires few { length args.now ≤ SLOTS }
    requires plain { ArePlain facts.old.known.names args.now patterns.now }
    ensures facts { OnOk result (facts.new.known.facts
        ≡ with_facts facts.old.known.facts (map (fact_of (slots_of args.now)) patterns.now)) }
    ensures part { OnErr result (IsBetween facts.old.known.facts facts.new.known.facts
        (with_facts facts.old.known.facts (map (fact_of (slots_of args.now)) patterns.now))) }
    ensures names { facts.new.known.names ≡ facts.old.known.names }
    ensures values { facts.new.known.values ≡ facts.old.known.values }
{
    let env = Env::new(args);
    for pattern in patterns {
        let row = objects_at(alloc, pattern.args.as_slice(), &env);
        facts.add(Fact {
            kind: Kind::Predicate,
            name: pattern.pred,
            args: row,
        })?;
    }
    Ok(())
}

/// Puts what one tuple of an instance's yield certifies behind what is known: the objects that the
/// values name, their types with all supertypes, and the stream's certified atoms (PDDLStream
/// 2020). It answers the objects. The stream is one of a fit task, and there are as many inputs and
/// values as it says.
///
/// Fails only where memory is wanting; then a part of it may be known, and nothing else.
pub fn learn_tuple(
    alloc: Global,
    facts: &mut Facts,
    domain: &Domain,
    stream: &Stream,
    inputs: &[Obj],
    values: &[Name],
) -> Result<Row, AllocError>
    requires may { MayTeach domain.now stream.now inputs.now facts.old.known }
    requires outputs { length values.now ≡ length stream.now.outputs }
    requires room { length facts.old.known.names + length values.now < MOST_NAMES }
    ensures all { IfOk result (Teaches domain.now stream.now inputs.now values.now
        facts.old.known facts.new.known) }
    ensures part { OnErr result (LiesBetween facts.old.known facts.new.known
        (with_tuple domain.now stream.now inputs.now values.now facts.old.known)) }
{
    let outputs = name_outputs(alloc, facts, values)?;
    learn_types(
        alloc,
        facts,
        domain,
        stream.outputs.as_slice(),
        outputs.as_slice(),
    )?;
    let mut args = Vec::from_slice(alloc, inputs)?;
    args.extend_from_slice(outputs.as_slice())?;
    learn_atoms(alloc, facts, stream.certified.as_slice(), args.as_slice())?;
    Ok(outputs)
}
