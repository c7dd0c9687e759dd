//! The origins that a report shows.
ghost use Rattle.std.specs.Prelude.{◌≡◌, ◌<◌, ◌≤◌, length, ℕ, ◌↔◌, IsTrue, IfSome, IfNone, slice_get};

use transcript_model::Origin;

/// Whether two origins are the same.
fn is_same(shown: &Origin, due: &Origin) -> bool
    ensures { IsTrue result ↔ (shown.now ≡ due.now) }
{
    shown.object.bytes() == due.object.bytes()
        && shown.number == due.number
        && shown.tuple == due.tuple
}

/// The first place at which the shown origins differ from those that are due, also where one of
/// them is missing or needless.
pub(crate) fn first_difference(shown: &[Origin], due: &[Origin]) -> Option<usize>
    ensures some { IfSome result (λ k. (¬ (slice_get shown.now k ≡ slice_get due.now k))
        × ((j : ℕ) → j < k → slice_get shown.now j ≡ slice_get due.now j)) }
    ensures within { IfSome result (λ k. k ≤ length shown.now) }
    ensures none { IfNone result (shown.now ≡ due.now) }
{
    let common = shown.len().min(due.len());
    for place in 0..common {
        if !is_same(&shown[place], &due[place]) {
            return Some(place);
        }
    }
    if shown.len() == due.len() {
        None
    } else {
        Some(common)
    }
}
