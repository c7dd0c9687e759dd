//! What is remembered of derived atoms.
ghost use Rattle.std.specs.Prelude.{◌≡◌, IfOk, []};
ghost use Rattle.task_model.specs.Known.{Known};
ghost use Rattle.task_model.specs.State.{Atoms};
ghost use Rattle.task_model.specs.declared.domain.Domain.{Domain};
ghost use Rattle.formula_memo.specs.Remembered.{StandsFor, StandsForAll, remembered_of, truth_of};

use indexmap::IndexMap;
use std::alloc::{AllocError, Global};
use std::marker::Model;
use task_model::Atom;

/// Which derived atoms are true, as far as they were judged: each of them is judged once for a
/// task, what is known of it and a state. It is seen as the list of these atoms, each with whether
/// it is true.
#[derive(Drop)]
pub struct Memo {
    truths: IndexMap<Atom, bool>,
}

impl Model for Memo {
    ghost use Rattle.std.specs.Prelude.{Bool, List};
    ghost use Rattle.task_model.specs.declared.fact.Atom.{Atom};

    ghost Value = { List (Atom × Bool) };

    ghost view = { λ m. m.truths.entries };
}

impl Memo {
    /// The memo in which nothing is remembered: it stands for every task, all that is known of it
    /// and every state. It takes no memory before something is remembered.
    pub fn empty(alloc: Global) -> Memo
        ensures empty { result ≡ [] }
        ensures stands { StandsForAll result }
    {
        Memo {
            truths: IndexMap::new(alloc),
        }
    }

    /// The memo in which nothing is remembered. Fails only where memory is wanting.
    pub fn new(alloc: Global) -> Result<Memo, AllocError>
        ensures empty { IfOk result (λ memo. memo ≡ []) }
        ensures stands { IfOk result StandsForAll }
    {
        Ok(Memo::empty(alloc))
    }

    /// Forgets all.
    pub fn clear(&mut self)
        ensures empty { self.new ≡ [] }
        ensures stands { StandsForAll self.new }
    {
        self.truths.clear();
    }

    /// Whether the atom is true, if that is remembered.
    pub(crate) fn recall(&self, atom: &Atom) -> Option<bool>
        ensures { result ≡ remembered_of self.now atom.now }
    {
        self.truths.get(atom).copied()
    }

    /// Remembers whether the atom is true. Fails only where memory is wanting.
    pub(crate) fn note(&mut self, atom: Atom, value: bool) -> Result<(), AllocError>
        ensures { (domain : Domain) (known : Known) (state : Atoms)
            → StandsFor domain known state self.old
            → value ≡ truth_of domain known state atom
            → StandsFor domain known state self.new }
    {
        self.truths.insert(atom, value)?;
        Ok(())
    }
}
