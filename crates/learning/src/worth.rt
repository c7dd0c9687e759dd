//! What the answer of a cost stream certifies.
ghost use Rattle.std.specs.Prelude.{◌≡◌, ◌≤◌, [], length, true, OnOk, OnErr};
ghost use Rattle.std.specs.List.{cons_option};
ghost use Rattle.task_model.specs.Fit.{IsFitDomain, is_fit_stream};
ghost use Rattle.learning.specs.Tuples.{MayTeach};
ghost use Rattle.task_model.specs.Known.{with_values};
ghost use Rattle.task_model.specs.Streams.{worth_by};
ghost use Rattle.task_model.specs.declared.limits.TheConstants.{LARGEST_NUMBER};

use fact_store::Facts;
use formula_eval::{Env, objects_at};
use std::alloc::{AllocError, Global};
use task_model::{Domain, Obj, Stream, Valued};

/// The value of the function term that an instance of a cost stream would certify with this answer
/// (this project). The stream is one of a fit task. For other streams it is None. It takes no
/// memory.
pub fn worth_of(
    alloc: Global,
    domain: &Domain,
    stream: &Stream,
    inputs: &[Obj],
    value: u32,
) -> Option<Valued>
    requires domain { IsFitDomain domain.now }
    requires stream { is_fit_stream domain.now stream.now ≡ true }
    requires inputs { length inputs.now ≡ length stream.now.inputs }
    ensures { cons_option result [] ≡ worth_by stream.now inputs.now value }
{
    let Some(worth) = &stream.worth else {
        return None;
    };
    let args = objects_at(alloc, worth.args.as_slice(), &Env::new(inputs));
    Some(Valued {
        func: worth.func,
        args,
        value,
    })
}

/// Puts the value that the answer of a cost stream's instance certifies behind what is known (this
/// project). The stream is one of a fit task, and there are as many inputs as it says. For other
/// streams nothing is learnt.
///
/// Fails only where memory is wanting, and leaves all as it was then.
pub fn learn_value(
    alloc: Global,
    facts: &mut Facts,
    domain: &Domain,
    stream: &Stream,
    inputs: &[Obj],
    value: u32,
) -> Result<(), AllocError>
    requires may { MayTeach domain.now stream.now inputs.now facts.old.known }
    requires cost { value ≤ LARGEST_NUMBER }
    ensures values { OnOk result (facts.new.known.values
        ≡ with_values facts.old.known.values (worth_by stream.now inputs.now value)) }
    ensures names { facts.new.known.names ≡ facts.old.known.names }
    ensures facts { facts.new.known.facts ≡ facts.old.known.facts }
    ensures err { OnErr result (facts.new ≡ facts.old) }
{
    let Some(worth) = &stream.worth else {
        return Ok(());
    };
    let row = objects_at(alloc, worth.args.as_slice(), &Env::new(inputs));
    facts.add_value(worth.func, row, value)?;
    Ok(())
}
