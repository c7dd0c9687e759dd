// What the children of a host say, and when.
ghost use Rattle.std.specs.Prelude.{◌≡◌, length};
ghost use Rattle.io_world.specs.ScriptHostState.{is_again, scripts_for, scripts_of};

use std::marker::Model;
use std::slice;

/// What a scripted child says.
#[derive(Drop)]
pub struct Script {
    /// The bytes that it gives in all.
    pub bytes: Vec<u8>,
    /// The i-th read, from 0, gives at most `cuts[i]` bytes, where such a cut is stated and at
    /// least 1.
    pub cuts: Vec<usize>,
    /// A triple of a place, a child and a number of lines: the bytes from this place on are given
    /// only after so many line feeds were written to that child. A read before that fails.
    pub needs: Vec<(usize, u8, u64)>,
}

impl Model for Script {
    ghost use Rattle.io_world.specs.Scripted.{Scripted};

    ghost Value = { Scripted };

    ghost view = { λ s. record {
      bytes = s.bytes.items;
      cuts = s.cuts.items;
      needs = s.needs.items;
    } };
}

/// The scripts of children, by their numbers.
#[derive(Drop)]
pub enum Scripts {
    /// Each start of a child plays its one script.
    One(Vec<Script>),
    /// Each start of a child plays the next of its scripts.
    Several(Vec<Vec<Script>>),
}

impl Scripts {
    /// The scripts of this child, in order; none for a child that has none.
    pub fn of(&self, child: u8) -> &[Script]
        ensures { result.now ≡ scripts_for (scripts_of self.now) child }
    {
        match self {
            Scripts::One(scripts) => match scripts.get(child as usize) {
                Some(script) => slice::from_ref(script),
                None => &[],
            },
            Scripts::Several(lists) => match lists.get(child as usize) {
                Some(scripts) => scripts.as_slice(),
                None => &[],
            },
        }
    }

    /// How many children have scripts.
    pub fn len(&self) -> usize
        ensures { result ≡ length (scripts_of self.now) }
    {
        match self {
            Scripts::One(scripts) => scripts.len(),
            Scripts::Several(lists) => lists.len(),
        }
    }

    /// Whether each start of a child plays the next of its scripts.
    pub fn is_again(&self) -> bool
        ensures { result ≡ is_again self.now }
    {
        match self {
            Scripts::One(_) => false,
            Scripts::Several(_) => true,
        }
    }
}
