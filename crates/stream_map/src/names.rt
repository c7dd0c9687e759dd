//! The names of a task's streams.
ghost use Rattle.std.specs.Prelude.{◌≡◌, length, IfOk};
ghost use Rattle.stream_map.specs.Faults.{stream_place};
ghost use Rattle.stream_map.specs.Form.{all_stream_names};
ghost use Rattle.task_model.specs.Fit.{IsFit};

use indexmap::IndexSet;
use std::alloc::{AllocError, Global};
use std::marker::Model;
use task_model::Task;

/// The names of streams at their places, each of which is found without going through the others.
#[derive(Drop)]
pub(crate) struct StreamNames {
    names: IndexSet<Vec<u8>>,
}

impl Model for StreamNames {
    ghost use Rattle.std.specs.Prelude.{ℕ, List, map};

    ghost Value = { List (List ℕ) };

    ghost view = { λ n. map (λ v. v.items) n.names.keys };
}

impl StreamNames {
    /// The names of the task's streams. Fails only where memory is wanting.
    pub(crate) fn of(alloc: Global, task: &Task) -> Result<StreamNames, AllocError>
        requires { IsFit task.now }
        ensures { IfOk result (λ names. names ≡ all_stream_names task.now) }
    {
        let mut names = IndexSet::with_capacity(alloc, task.streams.len())?;
        for stream in task.streams.as_slice() {
            let _new = names.insert(Vec::from_slice(alloc, stream.name.bytes())?)?;
        }
        Ok(StreamNames { names })
    }

    /// How many names there are.
    pub(crate) fn len(&self) -> usize
        ensures { result ≡ length self.now }
    {
        self.names.len()
    }

    /// The place of a name, or None where it isn't there.
    pub(crate) fn place_of(&self, name: &[u8]) -> Option<usize>
        ensures { result ≡ stream_place self.now name.now }
    {
        self.names.get_index_of(name)
    }
}
