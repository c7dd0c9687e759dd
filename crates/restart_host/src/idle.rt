// Room for children of a host, none of whom was started.
ghost use Rattle.std.specs.Prelude.{◌≡◌, IfOk, vec_len};
ghost use Rattle.restart_host.specs.Kept.{AreIdle};
ghost use Rattle.io_world.specs.declared.host.TheConstants.{CHILDREN};

use crate::kept::Kept;
use io_world::CHILDREN;
use std::alloc::{AllocError, Global};

/// What is kept of the children of a host, none of whom was started, with room for a line of each.
#[derive(Drop)]
pub struct IdleChildren {
    pub(crate) items: Vec<Kept>,
    ghost all: { vec_len items ≡ CHILDREN },
    ghost idle: { AreIdle items.items },
}

impl IdleChildren {
    /// Takes the room.
    ///
    /// # Errors
    /// `AllocError` where there is no memory.
    pub fn new(alloc: Global) -> Result<IdleChildren, AllocError> {
        let items = idle_children(alloc)?;
        Ok(IdleChildren { items })
    }
}

/// Children that were never started.
fn idle_children(alloc: Global) -> Result<Vec<Kept>, AllocError>
    ensures all { IfOk result (λ children. vec_len children ≡ CHILDREN) }
    ensures idle { IfOk result (λ children. AreIdle children.items) }
{
    let mut children = Vec::new(alloc);
    while children.len() < CHILDREN {
        let kept = Kept::new(alloc)?;
        children.push(kept)?;
    }
    Ok(children)
}
