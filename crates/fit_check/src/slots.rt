//! Which slots have a value.
ghost use Rattle.std.specs.Prelude.{◌≡◌, ◌==◌, ◌+◌, ◌≤◌, ◌++◌, ℕ};
ghost use Rattle.std.specs.List.{list_any};
ghost use Rattle.lemmas.specs.Lists.{numbers_from};
ghost use Rattle.task_model.specs.declared.limits.TheConstants.{SLOTS};

use std::marker::Model;
use task_model::SLOTS;

/// Which of the [`SLOTS`] slots have a value, seen as the list of these.
#[derive(Drop)]
pub(crate) struct Slots {
    filled: [bool; SLOTS],
}

impl Model for Slots {
    ghost use Rattle.std.specs.Prelude.{ℕ, List};
    ghost use Rattle.fit_check.specs.Filled.{places_up};

    ghost Value = { List ℕ };

    ghost view = { λ s. places_up 0 s.filled };
}

impl Slots {
    /// The first slots, so many of them; there are at most [`SLOTS`].
    pub(crate) fn first(count: usize) -> Slots
        requires { count ≤ SLOTS }
        ensures { result ≡ numbers_from 0 count }
    {
        let mut filled = [false; SLOTS];
        for place in 0..count {
            filled[place] = true;
        }
        Slots { filled }
    }

    /// These slots and so many from this one on, which are among the [`SLOTS`].
    pub(crate) fn with(&self, first: usize, count: usize) -> Slots
        requires { first + count ≤ SLOTS }
        ensures { (n : ℕ) → list_any (λ slot. slot == n) result
            ≡ list_any (λ slot. slot == n) (numbers_from first count ++ self.now) }
    {
        let mut filled = self.filled;
        for place in first..first + count {
            filled[place] = true;
        }
        Slots { filled }
    }

    /// Whether the slot has a value.
    pub(crate) fn has(&self, slot: u8) -> bool
        ensures { result ≡ list_any (λ n. n == slot) self.now }
    {
        (slot as usize) < SLOTS && self.filled[slot as usize]
    }
}
