//! The slots of variables.
ghost use Rattle.std.specs.Prelude.{◌≡◌, ◌<◌, ◌≤◌, length, slice_index, slice_set};
ghost use Rattle.task_model.specs.Truth.{slots_of};

use std::marker::Model;
use task_model::{Obj, SLOTS};

/// [`SLOTS`] slots, which hold the objects of variables.
#[derive(Drop)]
pub struct Env {
    slots: [Obj; SLOTS],
}

impl Model for Env {
    ghost use Rattle.std.specs.Prelude.{◌≡◌, ℕ, List, length};
    ghost use Rattle.task_model.specs.declared.limits.TheConstants.{SLOTS};

    ghost Value = { List ℕ };

    ghost view = { λ e. e.slots };

    ghost invariant = { λ e. length e.slots ≡ SLOTS };
}

impl Env {
    /// Slots of which the first have these objects; there are at most [`SLOTS`].
    pub fn new(args: &[Obj]) -> Env
        requires { length args.now ≤ SLOTS }
        ensures { result ≡ slots_of args.now }
    {
        let mut slots = [Obj::new(0); SLOTS];
        let (front, _) = slots.split_at_mut(args.len());
        front.copy_from_slice(args);
        Env { slots }
    }

    /// The object in this slot, which is below [`SLOTS`].
    pub fn get(&self, slot: u8) -> Obj
        requires { slot < SLOTS }
        ensures object { result ≡ slice_index self.now slot }
        ensures inside { slot < length self.now }
    {
        self.slots[slot as usize]
    }

    /// Puts an object into this slot, which is below [`SLOTS`].
    pub fn set(&mut self, slot: u8, object: Obj)
        requires { slot < SLOTS }
        ensures { self.new ≡ slice_set self.old slot object }
    {
        self.slots[slot as usize] = object;
    }
}
