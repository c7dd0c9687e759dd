//! The facts of atoms.
use crate::lists::number;
use crate::rules::Rules;
use indexmap::IndexMap;
use indexmap::map::Slice;
use std::alloc::{AllocError, Global};
use std::hash::BuildHasherDefault;
use task_model::{Atom, NumberHasher};

/// The facts of an atom, as far as some condition or effect has them.
#[derive(Clone, Copy, Debug)]
pub(crate) struct Sides {
    /// That it is true.
    pub(crate) holds: Option<u32>,
    /// That it is false.
    pub(crate) lacks: Option<u32>,
}

impl Sides {
    /// That it is true or false, as wanted.
    fn side(&mut self, wanted: bool) -> &mut Option<u32> {
        if wanted {
            &mut self.holds
        } else {
            &mut self.lacks
        }
    }
}

/// A fact, and whether it is new.
#[derive(Clone, Copy, Debug)]
pub(crate) struct Numbered {
    pub(crate) fact: u32,
    pub(crate) is_new: bool,
}

/// The facts of atoms.
#[derive(Drop)]
pub(crate) struct AtomFacts {
    atoms: IndexMap<Atom, Sides, BuildHasherDefault<NumberHasher>>,
}

impl AtomFacts {
    /// None, which take no memory.
    pub(crate) fn new(alloc: Global) -> AtomFacts {
        AtomFacts {
            atoms: IndexMap::with_hasher(alloc, BuildHasherDefault::new()),
        }
    }

    /// The atom's number, and the facts that there are of it.
    pub(crate) fn get(&self, atom: &Atom) -> Option<(u32, Sides)> {
        let (place, _, sides) = self.atoms.get_full(atom)?;
        Some((number(place), *sides))
    }

    /// How many atoms there are.
    pub(crate) fn len(&self) -> usize {
        self.atoms.len()
    }

    /// The atoms with their facts.
    pub(crate) fn entries(&self) -> Slice<'_, Atom, Sides> {
        self.atoms.as_slice()
    }

    /// The fact that the atom is true or false, as wanted. Fails only where memory is wanting.
    pub(crate) fn fact(
        &mut self,
        rules: &mut Rules,
        atom: &Atom,
        wanted: bool,
    ) -> Result<Numbered, AllocError> {
        if let Some(sides) = self.atoms.get_mut(atom) {
            return Ok(side_fact(rules, sides.side(wanted)));
        }
        let mut sides = Sides {
            holds: None,
            lacks: None,
        };
        let numbered = side_fact(rules, sides.side(wanted));
        self.atoms.insert(atom.copy()?, sides)?;
        Ok(numbered)
    }
}

/// The fact that is there, or else a new one, which is there then.
fn side_fact(rules: &mut Rules, side: &mut Option<u32>) -> Numbered {
    if let Some(fact) = *side {
        return Numbered {
            fact,
            is_new: false,
        };
    }
    let fact = rules.add_fact();
    *side = Some(fact);
    Numbered { fact, is_new: true }
}
