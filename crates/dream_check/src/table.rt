//! The names of a list's objects.
ghost use Rattle.dreaming.specs.Parts.{IsListed};
ghost use Rattle.task_model.specs.declared.task.Task.{Task as AnyTask};

use fact_store::Facts;
use name_tables::NameTable;
use optimistic_set::Supposed;
use shown_steps::Named;
use std::alloc::{AllocError, Global};
use std::marker::Model;
use task_model::Obj;

/// The names of the objects of a store, and behind them those of the placeholders of a list. Each
/// is found without going through the others.
#[derive(Drop)]
pub(crate) struct Table<'a> {
    facts: &'a Facts,
    placeholders: NameTable,
}

impl<'a> Model for Table<'a> {
    ghost use Rattle.std.specs.Prelude.{ℕ, List, ◌++◌, ◌≤◌, length};

    ghost Value = { List (List ℕ) };

    ghost view = { λ t. t.facts.now.known.names ++ t.placeholders };

    ghost invariant = { λ t. length t.placeholders ≤ 160000 };
}

impl<'a> Table<'a> {
    ghost use Rattle.std.specs.Prelude.{◌≡◌, IfOk};

    /// The names of the list's objects. Fails only where memory is wanting.
    pub(crate) fn of(alloc: Global, supposed: &'a Supposed<'a>) -> Result<Table<'a>, AllocError>
        requires { (task : AnyTask) × IsListed task supposed.now }
        ensures { IfOk result (λ table. table ≡ supposed.now.known.names) }
    {
        let mut placeholders = NameTable::new(alloc);
        let names = supposed.names();
        for name in names {
            let _new = placeholders.add(name.bytes())?;
        }
        Ok(Table {
            facts: supposed.facts(),
            placeholders,
        })
    }
}

impl<'a> Named for Table<'a> {
    ghost names = { λ t. t };

    fn object_named(&self, name: &[u8]) -> Option<Obj> {
        if let Some(object) = self.facts.object_of(name) {
            return Some(object);
        }
        let place = self.placeholders.place_of(name)?;
        Some(Obj::new(self.facts.name_count() + place as u32))
    }
}
