//! Facts as a store keeps them.
ghost use Rattle.std.specs.Prelude.{◌≡◌, IfOk};
ghost use Rattle.std.specs.Cmp.{partial_equiv_from_equiv};
ghost use Rattle.std.specs.Hash.{same_Alike};
ghost use Rattle.task_model.proofs.KnownLemmas.{fact_decided, facts_equivalence};
ghost use Rattle.task_model.specs.Known.{same_fact};
ghost use Rattle.task_model.specs.contracts.fact.FactHash.TheImpl as fact_hash;

use indexmap::Equivalent;
use std::alloc::{AllocError, Global};
use std::hash::{Hash, Hasher};
use std::marker::Model;
use task_model::{Fact, Kind, Obj, Objects};

/// A fact that takes 16 bytes less than a `Fact`: up to four arguments lie in the value itself, and
/// more of them take memory. Contracts see the fact. It is compared and hashed as that is.
#[derive(Drop)]
pub(crate) struct StoredFact {
    kind: Kind,
    name: u32,
    args: Objects<4>,
}

impl Model for StoredFact {
    ghost use Rattle.task_model.specs.declared.fact.Fact.{Fact};

    ghost Value = { Fact };

    ghost view = { λ s. record { kind = s.kind; name = s.name; args = s.args } };
}

impl StoredFact {
    /// The stored form of a fact. Fails only where memory is wanting.
    pub(crate) fn new(alloc: Global, fact: &Fact) -> Result<StoredFact, AllocError>
        ensures { IfOk result (λ stored. stored ≡ fact.now) }
    {
        let args = Objects::new(alloc, fact.args.as_slice())?;
        Ok(StoredFact {
            kind: fact.kind,
            name: fact.name,
            args,
        })
    }

    /// What the name stands for.
    pub(crate) fn kind(&self) -> Kind
        ensures { result ≡ self.now.kind }
    {
        self.kind
    }

    /// The predicate or the type.
    pub(crate) fn name(&self) -> u32
        ensures { result ≡ self.now.name }
    {
        self.name
    }

    /// The arguments.
    pub(crate) fn args(&self) -> &[Obj]
        ensures { result.now ≡ self.now.args }
    {
        self.args.as_slice()
    }
}

impl PartialEq for StoredFact {
    ghost eq = { same_fact };

    ghost laws = { partial_equiv_from_equiv facts_equivalence };

    fn eq(&self, other: &StoredFact) -> bool {
        self.kind == other.kind && self.name == other.name && self.args == other.args
    }
}

impl Eq for StoredFact {
    ghost laws = { facts_equivalence };
}

impl Hash for StoredFact {
    ghost hash_input = { fact_hash.hash_input-value.it };

    ghost respects_eq = { (same_Alike fact_hash.hash_input-value.it fact_decided).fed };

    fn hash<H: Hasher>(&self, state: &mut H) {
        self.kind.hash(state);
        self.name.hash(state);
        self.args.hash(state);
    }
}

/// A fact finds its stored form.
impl Equivalent<StoredFact> for &Fact {
    ghost equivalent = { λ fact. same_fact fact.now };

    ghost respects_hash = { λ fact.
        (same_Alike fact_hash.hash_input-value.it fact_decided).fed fact.now };

    ghost respects_eq = { λ fact. facts_equivalence.congr fact.now };

    fn equivalent(&self, stored: &StoredFact) -> bool {
        self.kind == stored.kind
            && self.name == stored.name
            && self.args.as_slice() == stored.args.as_slice()
    }
}
