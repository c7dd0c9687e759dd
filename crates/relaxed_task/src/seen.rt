//! Which states are new.
use std::alloc::{AllocError, Global};

/// How many bits a table has at most: 1 MiB.
const MOST_BITS: usize = 8_388_608;

/// The most rows of a table. A greater number of steps shares the last.
const MOST_ROWS: usize = 4_096;

/// For each number of steps that are left the atoms of the states from which so many are (novelty of
/// one atom: Lipovetzky and Geffner 2012, 2017). It takes its room when it is made.
#[derive(Drop)]
pub(crate) struct Seen {
    /// The rows, one behind another.
    words: Vec<u64>,
    /// How many words a row has.
    width: usize,
    /// How many rows there are.
    rows: usize,
}

impl Seen {
    /// A table without rows, which takes no memory.
    pub(crate) fn none(alloc: Global) -> Seen {
        Seen {
            words: Vec::new(alloc),
            width: 0,
            rows: 0,
        }
    }

    /// Takes room for so many atoms, and numbers of steps up to this. Fails only where memory is
    /// wanting.
    pub(crate) fn make_room(&mut self, atoms: usize, steps: usize) -> Result<(), AllocError> {
        self.width = (atoms / 64).saturating_add(1);
        let room = (MOST_BITS / 64).checked_div(self.width).unwrap_or(0);
        self.rows = room.min(MOST_ROWS).min(steps.saturating_add(1));
        self.words.resize(self.width.saturating_mul(self.rows), 0)
    }

    /// Puts the atoms into the row of so many steps, and answers whether one of them wasn't there.
    pub(crate) fn put(&mut self, steps: u32, atoms: &[u32]) -> bool {
        let row = (steps as usize).min(self.rows.saturating_sub(1));
        let first = row.saturating_mul(self.width);
        let mut is_new = false;
        for atom in atoms {
            let place = first.saturating_add(*atom as usize / 64);
            if let Some(word) = self.words.get_mut(place) {
                let bit = 1u64 << (*atom % 64);
                is_new = is_new || *word & bit == 0;
                *word |= bit;
            }
        }
        is_new
    }
}
