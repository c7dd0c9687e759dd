//! From which answer a value came.
ghost use Rattle.std.specs.Prelude.{◌≡◌, ◌≤◌, ℕ, ◌*◌, ◌/◌, ◌+◌, ◌⊎◌, [], ◌∷◌, is_some, None, length, false, IfSome, IfNone, option_map};
ghost use Rattle.std.specs.List.{list_any, position};
ghost use Rattle.shown_plan.specs.Sources.{IsEven, IsSourceIn, is_among};
ghost use Rattle.task_model.specs.Known.{same_numbers};
ghost use Rattle.transcript_model.specs.Outcomes.{has_value};
ghost use Rattle.transcript_model.specs.Transcript.{tuples_in};

use task_model::Name;
use transcript_model::Entry;

/// A request, and a tuple of its answer, both from 1.
#[derive(Clone, Copy)]
pub(crate) struct Source {
    pub(crate) number: u32,
    pub(crate) tuple: u8,
}

/// The number, from 1, of the first tuple that has the value.
fn first_tuple(values: &[Name], tuples: u8, value: &[u8]) -> Option<u8>
    requires some { 1 ≤ tuples }
    requires even { (width : ℕ) × (length values.now ≡ tuples * width) }
    ensures there { is_some result ≡ is_among values.now value.now }
    ensures place { result ≡ option_map (λ place. place + 1)
        (position (list_any (same_numbers value.now))
        (tuples_in (length values.now / tuples) tuples values.now)) }
{
    let place = values.iter().position(|v| value == v.bytes())?;
    let width = values.len() / tuples as usize;
    Some((place / width) as u8 + 1)
}

/// The request that the entry answers, and the first tuple that has the value, if one has.
pub(crate) fn source_in(entry: &Entry, value: &[u8]) -> Option<Source>
    requires { IsEven entry.now }
    ensures none { IfNone result ((n : ℕ) → has_value (entry.now ∷ []) n value.now ≡ false) }
    ensures some { IfSome result (IsSourceIn entry.now value.now) }
{
    let Entry::Got {
        number,
        tuples,
        values,
    } = entry
    else {
        return None;
    };
    let tuple = first_tuple(values.as_slice(), *tuples, value)?;
    Some(Source {
        number: *number,
        tuple,
    })
}

/// The one of the lesser request, where there are two.
pub(crate) fn earlier(best: Option<Source>, found: Option<Source>) -> Option<Source>
    ensures one { (result ≡ best) ⊎ (result ≡ found) }
    ensures least_best { IfSome result
        (λ least. IfSome best (λ source. least.number ≤ source.number)) }
    ensures least_found { IfSome result
        (λ least. IfSome found (λ source. least.number ≤ source.number)) }
    ensures none { IfNone result ((best ≡ None) × (found ≡ None)) }
{
    match (best, found) {
        (Some(first), Some(second)) if second.number < first.number => found,
        (None, _) => found,
        _ => best,
    }
}
