//! What was read from children and not yet taken as lines, and which were started.
ghost use Rattle.std.specs.Prelude.{◌≡◌, [], ℕ, false, map, string_bytes, option_copied, IfOk};
ghost use Rattle.std.specs.List.{find};
ghost use Rattle.io_world.specs.Talks.{Same};
ghost use Rattle.round_run.specs.Calls.{has_child};
ghost use Rattle.round_run.specs.Children.{StartsAll, StartsHeld, StopsAll};
ghost use Rattle.round_run.specs.Held.{is_child_running};
ghost use Rattle.round_run.specs.Resting.{MayStart};
ghost use Rattle.round_run.specs.Starts.{AreStartable, NoneWorks};
ghost use Rattle.round_run.specs.Talking.{held_of};
ghost use Rattle.round_run.specs.Told.{course};

use crate::child::start;
use crate::fault::RunFault;
use gen_lines::LineBuf;
use io_world::{CHILDREN, Host};
use std::alloc::{AllocError, Global};
use std::marker::Model;
use transcript_model::Pool;

/// The pool that has the child.
fn pool_with(pools: &[Pool], child: u8) -> Option<&Pool>
    ensures { option_copied result ≡ find (has_child child) pools.now }
{
    pools.iter().find(|pool| pool.first <= child && child - pool.first < pool.workers)
}

/// For each child the bytes that were read and not yet taken as lines, and whether it was started.
/// All batches of a session take the same lines.
#[derive(Drop)]
pub struct Lines {
    pub(crate) buffers: Vec<LineBuf>,
    pub(crate) started: [bool; CHILDREN],
}

impl Model for Lines {
    ghost use Rattle.std.specs.Prelude.{◌≡◌, length};
    ghost use Rattle.io_world.specs.declared.host.TheConstants.{CHILDREN};
    ghost use Rattle.round_run.specs.Held.{Held};

    ghost Value = { Held };

    ghost view = { λ l. record { buffers = l.buffers.items; started = l.started } };

    ghost invariant = { λ l. (length l.buffers.items ≡ CHILDREN) × (length l.started ≡ CHILDREN) };
}

impl Lines {
    /// Nothing was read, and no child was started. Fails only where memory is wanting.
    pub fn new(alloc: Global) -> Result<Lines, AllocError>
        ensures idle { IfOk result (λ lines. (child : ℕ) → is_child_running lines child ≡ false) }
        ensures empty { IfOk result (λ lines. (child : ℕ) → held_of lines child ≡ []) }
    {
        let mut buffers = Vec::new(alloc);
        for _ in 0..CHILDREN {
            buffers.push(LineBuf::new(alloc)?)?;
        }
        Ok(Lines {
            buffers,
            started: [false; CHILDREN],
        })
    }

    /// Whether the child was started.
    pub fn running(&self, child: u8) -> bool
        ensures { result ≡ is_child_running self.now child }
    {
        match self.started.get(child as usize) {
            Some(started) => *started,
            None => false,
        }
    }

    /// Starts a child that doesn't run.
    fn start_child<H: Host>(
        &mut self,
        host: &mut H,
        child: u8,
        argv: &[String],
    ) -> Result<(), RunFault>
        requires may { MayStart self.old child argv.now }
        requires state { Same (H.running host.old) (is_child_running self.old) }
        ensures starts { StartsHeld child (map string_bytes argv.now) self.old self.new
            (course H.Host host.old host.new) result }
    {
        start(host, child, argv)?;
        self.started[child as usize] = true;
        Ok(())
    }

    /// Starts all workers of all pools, none of which runs, in the order of their numbers.
    pub(crate) fn start_all<H: Host>(
        &mut self,
        host: &mut H,
        pools: &[Pool],
    ) -> Result<(), RunFault>
        requires pools { AreStartable pools.now }
        requires idle { NoneWorks pools.now (is_child_running self.old) }
        requires state { Same (H.running host.old) (is_child_running self.old) }
        ensures starts { StartsAll pools.now self.old self.new (course H.Host host.old host.new)
            result }
    {
        for child in 0..CHILDREN as u8 {
            if let Some(pool) = pool_with(pools, child) {
                self.start_child(host, child, pool.argv.as_slice())?;
            }
        }
        Ok(())
    }

    /// Stops all children that were started. That one fails changes nothing.
    pub fn stop_all<H: Host>(&self, host: &mut H)
        requires state { Same (H.running host.old) (is_child_running self.now) }
        ensures stops { StopsAll (course H.Host host.old host.new) }
    {
        let _ = &self.buffers;
        for child in 0..CHILDREN as u8 {
            if self.running(child) {
                let _ = host.stop(child);
            }
        }
    }
}
