//! Entries of a dream that are asked.
ghost use Rattle.std.specs.Prelude.{IfOk};
ghost use Rattle.dream_asks.specs.Next.{AreDuesOf};

use instance_queue::{Due, Queue};
use std::alloc::{AllocError, Global};
use task_model::{Instance, Row};

/// An entry of a dream that is asked.
#[derive(Drop)]
pub struct DreamAsk {
    /// The instance that its own has become.
    pub instance: Instance,
    /// Its placeholders, for which the answer brings objects.
    pub outputs: Row,
}

/// The asks with their turns: how many tuples each instance has given. Fails only where memory is
/// wanting.
pub fn dues_of(alloc: Global, queue: &Queue, asks: &[DreamAsk]) -> Result<Vec<Due>, AllocError>
    ensures { IfOk result (λ dues. AreDuesOf queue.now asks.now dues.items) }
{
    let mut dues = Vec::new(alloc);
    for ask in asks {
        let turn = queue.yields(&ask.instance);
        let instance = ask.instance.copy()?;
        dues.push(Due { instance, turn })?;
    }
    Ok(dues)
}
