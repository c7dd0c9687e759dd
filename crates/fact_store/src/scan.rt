//! Look-ups that go through facts or names one by one: among facts that no table covers, and of a
//! name for which memory is wanting.
ghost use Rattle.std.specs.Prelude.{◌≡◌, ◌≤◌, length, slice_get, option_copied, Some, IfSome, IfNone, Contains};
ghost use Rattle.fact_store.specs.Tables.{facts_with};
ghost use Rattle.fact_store.specs.declared.facts.TheConstants.{MOST_NAMES};

use crate::stored_fact::StoredFact;
use crate::table::{Group, Key, has_key};
use task_model::{Name, Obj};

/// How many of the facts have this key.
pub(crate) fn count_with(group: Group, key: Key, facts: &[StoredFact]) -> usize
    ensures { result ≡ length (facts_with group key facts.now) }
{
    facts
        .iter()
        .filter(|fact| has_key(group, key, *fact))
        .count()
}

/// The fact of that number among those with this key.
pub(crate) fn nth_with(
    group: Group,
    key: Key,
    facts: &[StoredFact],
    number: usize,
) -> Option<&StoredFact>
    ensures { option_copied result ≡ slice_get (facts_with group key facts.now) number }
{
    let mut left = number;
    for fact in facts {
        if has_key(group, key, fact) {
            if left == 0 {
                return Some(fact);
            }
            left -= 1;
        }
    }
    None
}

/// The object with this name, found by going through all names, of which there are few enough that
/// their places are objects.
pub(crate) fn place_in(names: &[Name], name: &[u8]) -> Option<Obj>
    requires { length names.now ≤ MOST_NAMES }
    ensures found { IfSome result (λ object. slice_get names.now object ≡ Some name.now) }
    ensures none { IfNone result (¬ (Contains names.now name.now)) }
{
    for (place, known) in names.iter().enumerate() {
        if name == known.bytes() {
            return Some(Obj::new(place as u32));
        }
    }
    None
}
