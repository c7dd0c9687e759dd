//! The generated objects of a plan.
ghost use Rattle.std.specs.Prelude.{◌≡◌, ℕ, List, map, ◌||◌, ◌&&◌, OnOk, IfOk};
ghost use Rattle.shown_plan.specs.Sources.{is_generated, is_among, stands_in};
ghost use Rattle.task_model.specs.Known.{same_numbers};

use std::alloc::{AllocError, Global};
use std::collections::BTreeSet;
use task_model::Name;
use transcript_model::Call;

/// Whether the name is that of a generated object: it begins with `#`.
fn begins_with_hash(name: &[u8]) -> bool
    ensures { result ≡ is_generated name.now }
{
    match name {
        [first, ..] => *first == b'#',
        [] => false,
    }
}

/// Puts the name into the set if it belongs to a generated object.
fn add_if_generated<'a>(names: &mut BTreeSet<&'a [u8]>, name: &'a [u8]) -> Result<(), AllocError>
    ensures { OnOk result ((other : List ℕ) → is_among (map (λ n. n.now) names.new.keys) other
        ≡ (is_among (map (λ n. n.now) names.old.keys) other
        || (is_generated other && same_numbers other name.now))) }
{
    if !begins_with_hash(name) {
        return Ok(());
    }
    names.insert(name)?;
    Ok(())
}

/// Puts those of the names into the set that belong to generated objects.
fn add_generated<'a>(names: &mut BTreeSet<&'a [u8]>, args: &'a [Name]) -> Result<(), AllocError>
    ensures { OnOk result ((name : List ℕ) → is_among (map (λ n. n.now) names.new.keys) name
        ≡ (is_among (map (λ n. n.now) names.old.keys) name
        || (is_generated name && is_among args.now name))) }
{
    for arg in args {
        add_if_generated(names, arg.bytes())?;
    }
    Ok(())
}

/// The names of the generated objects that stand in the calls.
pub(crate) fn generated_names(alloc: Global, calls: &[Call]) -> Result<BTreeSet<&[u8]>, AllocError>
    ensures { IfOk result (λ names. (name : List ℕ) → is_among (map (λ n. n.now) names.keys) name
        ≡ (is_generated name && stands_in calls.now name)) }
{
    let mut names = BTreeSet::new(alloc);
    for call in calls {
        add_generated(&mut names, call.args.as_slice())?;
    }
    Ok(names)
}
