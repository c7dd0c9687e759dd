//! Leaving out the entries that a plan doesn't need.
ghost use Rattle.std.specs.Prelude.{◌≡◌, ◌<◌, ◌≤◌, length, true, false, IfOk, OnOk};
ghost use Rattle.dreaming.specs.Thinning.{IsTrial, TrialKeeps, IsThin, AreSingleNeeded};

use crate::trial::{Kept, Trial, without};
use std::alloc::AllocError;

/// Leaves out so many entries at once, from the first on, wherever the plan stays valid, and
/// answers whether some were left out.
fn leave_out(trial: &Trial<'_>, kept: &mut Kept, size: usize) -> Result<bool, AllocError>
    requires trial { IsTrial trial.now }
    requires kept { TrialKeeps trial.now kept.old }
    requires size { 1 ≤ size }
    ensures kept { OnOk result (TrialKeeps trial.now kept.new) }
    ensures most { OnOk result (length kept.new.places.items ≤ length kept.old.places.items) }
    ensures fewer { IfOk result (λ some. some ≡ true
        → length kept.new.places.items < length kept.old.places.items) }
    ensures needed { IfOk result (λ some. some ≡ false → size ≡ 1
        → AreSingleNeeded trial.now kept.new.places.items) }
{
    let mut some = false;
    let mut from = 0;
    while from < kept.places.len() {
        let to = kept.places.len().min(from.saturating_add(size));
        match without(trial, kept, from, to)? {
            Some(fewer) => {
                *kept = fewer;
                some = true;
            }
            None => from = to,
        }
    }
    Ok(some)
}

/// Leaves out entries, half of them at once, then an eighth, and in the end one by one, until none
/// can be left out without the plan losing validity.
pub(crate) fn thin(trial: &Trial<'_>, kept: &mut Kept) -> Result<(), AllocError>
    requires trial { IsTrial trial.now }
    requires kept { TrialKeeps trial.now kept.old }
    ensures { OnOk result (IsThin trial.now kept.new) }
{
    let mut size = (kept.places.len() / 2).max(1);
    'sizes: loop {
        let some = leave_out(trial, kept, size)?;
        if size == 1 && !some {
            return Ok(());
        }
        size = (size / 4).max(1);
    }
}
