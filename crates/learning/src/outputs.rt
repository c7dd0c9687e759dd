//! The objects that values stand for.
ghost use Rattle.std.specs.Prelude.{◌≡◌, ◌+◌, ◌<◌, map, length, IfOk, OnOk, OnErr};
ghost use Rattle.learning.specs.Outputs.{AreNamed};
ghost use Rattle.transcript_model.specs.Names.{generated};
ghost use Rattle.task_model.specs.Known.{with_names};
ghost use Rattle.fact_store.specs.Growth.{IsBetween};
ghost use Rattle.fact_store.specs.declared.facts.TheConstants.{MOST_NAMES};

use fact_store::Facts;
use std::alloc::{AllocError, Global};
use task_model::{Name, Row};

/// The name of the object that a value from a generator stands for: `#` and the value (this
/// project's rule). Fails only where memory is wanting.
pub fn generated_name(alloc: Global, value: &Name) -> Result<Name, AllocError>
    ensures { IfOk result (λ name. name ≡ generated value.now) }
{
    let mut bytes = Vec::from_slice(alloc, b"#")?;
    bytes.extend_from_slice(value.bytes())?;
    Ok(Name::new(bytes))
}

/// Gives the values' objects their numbers, and answers these. Fails only where memory is wanting;
/// then the first of them may have their numbers.
pub(crate) fn name_outputs(
    alloc: Global,
    facts: &mut Facts,
    values: &[Name],
) -> Result<Row, AllocError>
    requires { length facts.old.known.names + length values.now < MOST_NAMES }
    ensures names { OnOk result (facts.new.known.names
        ≡ with_names facts.old.known.names (map generated values.now)) }
    ensures part { OnErr result (IsBetween facts.old.known.names facts.new.known.names
        (with_names facts.old.known.names (map generated values.now))) }
    ensures objects { IfOk result (λ objects. AreNamed facts.new.known.names objects values.now) }
    ensures facts { facts.new.known.facts ≡ facts.old.known.facts }
    ensures values { facts.new.known.values ≡ facts.old.known.values }
{
    let mut objects = Row::empty(alloc);
    for value in values {
        let name = generated_name(alloc, value)?;
        let object = facts.add_name(name)?;
        objects.push(object)?;
    }
    Ok(objects)
}
