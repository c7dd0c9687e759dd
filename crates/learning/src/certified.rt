//! What a yield would certify, as a list.
ghost use Rattle.std.specs.Prelude.{◌≡◌, ◌≤◌, ◌++◌, map, length, true, All, IfOk, OnOk};
ghost use Rattle.std.specs.List.{list_all};
ghost use Rattle.formula_eval.specs.Readable.{is_readable_term};
ghost use Rattle.task_model.specs.Fit.{IsFitDomain, is_fit_stream};
ghost use Rattle.task_model.specs.Initial.{type_facts};
ghost use Rattle.task_model.specs.Known.{type_fact as type_of};
ghost use Rattle.task_model.specs.Streams.{certified_by, output_types, fact_of};
ghost use Rattle.task_model.specs.Truth.{slots_of};
ghost use Rattle.task_model.specs.declared.limits.TheConstants.{SLOTS};

use formula_eval::{Env, objects_at};
use std::alloc::{AllocError, Global};
use task_model::{Domain, Fact, Kind, Obj, Pattern, Row, Stream, supertypes};

/// That the object has the type. It takes no memory.
fn type_fact(alloc: Global, sort: u32, object: Obj) -> Fact
    ensures { result ≡ type_of sort object }
{
    let args = match Row::new(alloc, &[object]) {
        Ok(args) => args,
        Err(_) => unreachable!(),
    };
    Fact {
        kind: Kind::Sort,
        name: sort,
        args,
    }
}

/// Adds that the object has each of these types.
fn add_each(
    alloc: Global,
    facts: &mut Vec<Fact>,
    sorts: &[u32],
    object: Obj,
) -> Result<(), AllocError>
    ensures { OnOk result (facts.new.items
        ≡ facts.old.items ++ map (λ s. type_of s object) sorts.now) }
{
    for sort in sorts {
        facts.push(type_fact(alloc, *sort, object))?;
    }
    Ok(())
}

/// Adds that the object has the type, with all supertypes.
fn add_types(
    alloc: Global,
    facts: &mut Vec<Fact>,
    domain: &Domain,
    sort: u32,
    object: Obj,
) -> Result<(), AllocError>
    ensures { OnOk result (facts.new.items
        ≡ facts.old.items ++ type_facts domain.now sort object) }
{
    add_each(alloc, facts, &[sort], object)?;
    add_each(alloc, facts, supertypes(domain, sort), object)?;
    add_each(alloc, facts, &[0], object)
}

/// Adds that each of these objects has its type, with all supertypes.
fn add_output_types(
    alloc: Global,
    facts: &mut Vec<Fact>,
    domain: &Domain,
    sorts: &[u32],
    objects: &[Obj],
) -> Result<(), AllocError>
    requires { length objects.now ≡ length sorts.now }
    ensures { OnOk result (facts.new.items
        ≡ facts.old.items ++ output_types domain.now sorts.now objects.now) }
{
    for (place, sort) in sorts.iter().enumerate() {
        add_types(alloc, facts, domain, *sort, objects[place])?;
    }
    Ok(())
}

/// Adds the patterns' atoms where the slots have these objects.
fn add_atoms(
    alloc: Global,
    facts: &mut Vec<Fact>,
    patterns: &[Pattern],
    args: &[Obj],
) -> Result<(), AllocError>
    requires few { length args.now ≤ SLOTS }
    requires short { All (λ p. length p.args ≤ 8) patterns.now }
    requires readable { All (λ p. list_all is_readable_term p.args ≡ true) patterns.now }
    ensures { OnOk result (facts.new.items
        ≡ facts.old.items ++ map (fact_of (slots_of args.now)) patterns.now) }
{
    let env = Env::new(args);
    for pattern in patterns {
        let row = objects_at(alloc, pattern.args.as_slice(), &env);
        facts.push(Fact {
            kind: Kind::Predicate,
            name: pattern.pred,
            args: row,
        })?;
    }
    Ok(())
}

/// What a yield of these outputs would certify: the types of the outputs with all supertypes, and
/// the stream's certified atoms (PDDLStream 2020). The stream is one of a fit task, and there are
/// as many inputs and outputs as it says. Fails only where memory is wanting.
pub fn certified_facts(
    alloc: Global,
    domain: &Domain,
    stream: &Stream,
    inputs: &[Obj],
    outputs: &[Obj],
) -> Result<Vec<Fact>, AllocError>
    requires domain { IsFitDomain domain.now }
    requires stream { is_fit_stream domain.now stream.now ≡ true }
    requires inputs { length inputs.now ≡ length stream.now.inputs }
    requires outputs { length outputs.now ≡ length stream.now.outputs }
    ensures { IfOk result (λ facts. facts.items
        ≡ certified_by domain.now stream.now inputs.now outputs.now) }
{
    let mut facts = Vec::new(alloc);
    add_output_types(
        alloc,
        &mut facts,
        domain,
        stream.outputs.as_slice(),
        outputs,
    )?;
    let mut args = Vec::from_slice(alloc, inputs)?;
    args.extend_from_slice(outputs)?;
    add_atoms(
        alloc,
        &mut facts,
        stream.certified.as_slice(),
        args.as_slice(),
    )?;
    Ok(facts)
}
