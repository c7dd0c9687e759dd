//! Dreams that are kept.
ghost use Rattle.std.specs.Prelude.{◌≡◌, ◌+◌, ◌++◌, ◌∷◌, ◌<◌, [], length, take, true, false, slice_get, slice_set, Some, IfNone, IfSome, OnOk, OnErr};
ghost use Rattle.std.specs.List.{list_all};
ghost use Rattle.skeletons.specs.Skeletons.{IsNextPick, skeletons_in};
ghost use Rattle.transcript_model.specs.Turns.{IsPicked, Skeleton as Kept};

use optimistic_set::OptEntry;
use std::alloc::AllocError;

/// A dream that is kept.
#[derive(Drop)]
pub struct Skeleton {
    /// The entries that its plan needs.
    pub entries: Vec<OptEntry>,
    /// How many objects were real before it.
    pub real: u32,
    /// How often it was picked.
    pub picks: u32,
    /// Whether it is given up.
    pub retired: bool,
}

/// Keeps a dream with these entries, before which so many objects were real, behind the others.
///
/// # Errors
/// Only where memory is wanting; nothing has changed then.
pub fn keep(
    skeletons: &mut Vec<Skeleton>,
    entries: Vec<OptEntry>,
    real: u32,
) -> Result<(), AllocError>
    ensures ok { OnOk result (skeletons_in skeletons.new.items
        ≡ skeletons_in skeletons.old.items
        ++ record { entries = entries.items; real = real; picks = 0; retired = false } ∷ []) }
    ensures err { OnErr result (skeletons.new.items ≡ skeletons.old.items) }
{
    skeletons.push(Skeleton {
        entries,
        real,
        picks: 0,
        retired: false,
    })?;
    Ok(())
}

/// The place of the skeleton to be picked of the first ones, up to the one at `place`, where `best`
/// is that of those before it.
fn better(skeletons: &[Skeleton], best: Option<usize>, place: usize) -> Option<usize>
    requires place { place < length skeletons.now }
    requires best { IsNextPick (take place (skeletons_in skeletons.now)) best }
    ensures { IsNextPick (take (place + 1) (skeletons_in skeletons.now)) result }
{
    let skeleton = &skeletons[place];
    if skeleton.retired {
        return best;
    }
    match best {
        None => Some(place),
        Some(other) => {
            if skeleton.picks < skeletons[other].picks {
                Some(place)
            } else {
                Some(other)
            }
        }
    }
}

/// The place of the skeleton to be picked: of those that aren't given up it has the fewest picks,
/// and of these it is the earliest. None where all are given up.
pub fn pick_of(skeletons: &[Skeleton]) -> Option<usize>
    ensures some { IfSome result
        (λ place. (s : Kept) × IsPicked (skeletons_in skeletons.now) place s) }
    ensures none { IfNone result
        (list_all (λ (s : Kept). s.retired) (skeletons_in skeletons.now) ≡ true) }
{
    let mut best = None;
    for place in 0..skeletons.len() {
        best = better(skeletons, best, place);
    }
    best
}

/// Counts a pick of the skeleton at this place, which is given up then or not.
pub fn count(skeletons: &mut Vec<Skeleton>, place: usize, retired: bool)
    requires place { place < length skeletons.old.items }
    requires room { (s : Kept) → slice_get (skeletons_in skeletons.old.items) place ≡ Some s
        → s.picks < 4294967295 }
    ensures { (s : Kept) → slice_get (skeletons_in skeletons.old.items) place ≡ Some s
        → skeletons_in skeletons.new.items ≡ slice_set (skeletons_in skeletons.old.items) place
        (record { entries = s.entries; real = s.real; picks = s.picks + 1; retired = retired }) }
{
    let skeleton = &mut skeletons[place];
    skeleton.picks += 1;
    skeleton.retired = retired;
}
