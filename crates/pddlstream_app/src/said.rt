//! What a command answers.
ghost use Rattle.std.specs.Prelude.{◌≡◌, IfOk};

use command_files::Status;
use std::alloc::{AllocError, Global};

/// The answer of a command, whole.
#[derive(Drop)]
pub(crate) struct Said {
    /// How the run ends that tells it.
    pub(crate) status: Status,
    /// What is written.
    pub(crate) text: Vec<u8>,
}

impl Said {
    /// That the run ends so, with these bytes. Fails only where memory is wanting.
    pub(crate) fn new(alloc: Global, status: Status, text: &[u8]) -> Result<Said, AllocError>
        ensures { IfOk result (λ said. (said.status ≡ status) × (said.text.items ≡ text.now)) }
    {
        let text = Vec::from_slice(alloc, text)?;
        Ok(Said { status, text })
    }
}
