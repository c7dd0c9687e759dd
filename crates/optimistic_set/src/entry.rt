//! Entries of a list of supposed instances.
use std::alloc::AllocError;
use std::marker::Model;
use task_model::{Instance, Obj, Row};

/// An instance that is supposed to answer, with the placeholder objects that stand for its outputs.
#[derive(Drop)]
pub struct OptEntry {
    instance: Instance,
    outputs: Row,
}

impl Model for OptEntry {
    ghost use Rattle.task_model.specs.Dreams.{SupposedEntry};

    ghost Value = { SupposedEntry };

    ghost view = { λ e. record { instance = e.instance; outputs = e.outputs } };
}

impl OptEntry {
    ghost use Rattle.std.specs.Prelude.{◌≡◌, IfOk};

    /// The entry of this instance with these placeholders.
    pub fn new(instance: Instance, outputs: Row) -> OptEntry
        ensures { result ≡ record { instance = instance; outputs = outputs } }
    {
        OptEntry { instance, outputs }
    }

    /// The instance.
    pub fn instance(&self) -> &Instance
        ensures { result.now ≡ self.now.instance }
    {
        &self.instance
    }

    /// The placeholders, one for each output.
    pub fn outputs(&self) -> &[Obj]
        ensures { result.now ≡ self.now.outputs }
    {
        self.outputs.as_slice()
    }

    /// An equal entry. Fails only where memory is wanting.
    pub fn copy(&self) -> Result<OptEntry, AllocError>
        ensures { IfOk result (λ entry. entry ≡ self.now) }
    {
        let instance = self.instance.copy()?;
        let outputs = self.outputs.copy()?;
        Ok(OptEntry { instance, outputs })
    }
}
