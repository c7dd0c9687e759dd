//! Instances that were asked.
use indexmap::IndexSet;
use instance_queue::Due;
use std::alloc::{AllocError, Global};
use std::marker::Model;
use task_model::Instance;

/// Instances in the order in which they were put there; one that came again stands there again. It
/// is seen as the list of them.
#[derive(Drop)]
pub struct Tried {
    list: Vec<Instance>,
    /// Each of them once.
    set: IndexSet<Instance>,
    alloc: Global,
}

impl Model for Tried {
    ghost use Rattle.std.specs.Prelude.{List};
    ghost use Rattle.task_model.specs.declared.stream.Instance.{Instance};
    ghost use Rattle.optimistic_set.specs.Members.{HaveSame};

    ghost Value = { List Instance };

    ghost view = { λ t. t.list.items };

    ghost invariant = { λ t. HaveSame t.set.keys t.list.items };
}

impl Tried {
    ghost use Rattle.std.specs.Prelude.{◌≡◌, ◌++◌, ◌∷◌, ◌↔◌, [], IsTrue, OnOk, OnErr};
    ghost use Rattle.std.specs.List.{list_any};
    ghost use Rattle.instance_queue.specs.Level.{due_instances};
    ghost use Rattle.task_model.specs.Streams.{same_instance};

    /// Nothing, which takes no memory.
    pub fn new(alloc: Global) -> Tried
        ensures { result ≡ [] }
    {
        Tried {
            list: Vec::new(alloc),
            set: IndexSet::new(alloc),
            alloc,
        }
    }

    /// Whether there is none.
    pub fn is_empty(&self) -> bool
        ensures { IsTrue result ↔ (self.now ≡ []) }
    {
        self.list.is_empty()
    }

    /// Whether the instance is there.
    pub fn has(&self, instance: &Instance) -> bool
        ensures { result ≡ list_any (same_instance instance.now) self.now }
    {
        self.set.contains(instance)
    }

    /// Puts an instance behind the others. Fails only where memory is wanting, and leaves all as it
    /// was then.
    pub fn add(&mut self, instance: &Instance) -> Result<(), AllocError>
        ensures ok { OnOk result (self.new ≡ self.old ++ instance.now ∷ []) }
        ensures err { OnErr result (self.new ≡ self.old) }
    {
        let key = instance.copy()?;
        let last = instance.copy()?;
        self.list.reserve(1)?;
        self.set.insert(key)?;
        self.list.push(last)?;
        Ok(())
    }

    /// Puts the instances of these asks behind the others. Fails only where memory is wanting; then
    /// the first of them may be there.
    pub fn join(&mut self, asks: &[Due]) -> Result<(), AllocError>
        ensures { OnOk result (self.new ≡ self.old ++ due_instances asks.now) }
    {
        for ask in asks {
            self.add(&ask.instance)?;
        }
        Ok(())
    }

    /// Takes all away.
    pub fn clear(&mut self)
        ensures { self.new ≡ [] }
    {
        *self = Tried::new(self.alloc);
    }
}
