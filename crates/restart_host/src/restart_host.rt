// Children that are started again where they fail.
ghost use Rattle.std.proofs.Common.{lit≤};
ghost use Rattle.std.proofs.Props.{props};
ghost use Rattle.std.specs.Prelude.{◌≡◌, ◌<◌, ◌≤◌, ℕ, true, false, count_by, vec_len};
ghost use Rattle.io_world.specs.Faults.{last_count};
ghost use Rattle.io_world.specs.Logs.{calls_spell, no_calls, said_of, told_of};
ghost use Rattle.restart_host.specs.Kept.{is_alive, is_on, runs_outside};
ghost use Rattle.restart_host.specs.Tied.{IsTied};
ghost use Rattle.io_world.specs.declared.host.TheConstants.{CHILDREN};

use crate::idle::IdleChildren;
use crate::kept::{Kept, copy_words};
use crate::noted::{read_child, start_child, stop_child, tally, write_child};
use io_world::{CallLog, FaultCount, Host, HostFault};
use std::alloc::Global;

/// Children of a host below that are started again where they fail, as long as failures are made
/// good. It lends that host for as long as it lives.
///
/// It keeps and tells its own log as long as there is memory for it, and tells what was said with
/// each child.
#[derive(Drop)]
pub struct RestartHost<'a, H: Host> {
    host: &'a mut H,
    alloc: Global,
    left: u32,
    children: Vec<Kept>,
    log: CallLog,
    faults: FaultCount,
    ghost all: { vec_len children ≡ CHILDREN },
    ghost ties: { (k : ℕ) → H.running host.now k ≡ is_alive children.items k },
    ghost room: { count_by is_on children.items ≤ log.kept },
    ghost over: { 0 < faults → left ≡ 0 },
    ghost tied: { log.whole ≡ true → IsTied children.items log.events (H.log host.now) } by { Prim.hlevel props },
}

impl<'a, H: Host> RestartHost<'a, H> {
    /// Over a host of which no child runs, with what is kept of its children. So many failures of
    /// its starts, writes and reads are made good.
    pub fn new(
        alloc: Global,
        host: &'a mut H,
        restarts: u32,
        children: IdleChildren,
    ) -> RestartHost<'a, H>
        requires idle { (k : ℕ) → H.running host.old k ≡ false }
        ensures same { result.host.ghost_name ≡ host.entry.ghost_name }
        ensures now { result.host.now ≡ host.old }
        ensures left { (result.left ≡ restarts) × (result.faults ≡ 0) }
        ensures log { result.log ≡ no_calls }
        ensures idle { (k : ℕ) → runs_outside result.children.items k ≡ false }
    {
        let IdleChildren { items } = children;
        RestartHost {
            host,
            alloc,
            left: restarts,
            children: items,
            log: CallLog::new(alloc),
            faults: FaultCount::new(),
        }
    }

    /// The host below. So who lent it learns what became of it.
    pub fn into_inner(self) -> &'a mut H
        ensures same { result.ghost_name ≡ self.entry.host.ghost_name }
        ensures now { result.now ≡ self.entry.host.now }
    {
        let RestartHost { host, .. } = self;
        host
    }
}

impl<'a, H: Host> Host for RestartHost<'a, H> {
    ghost use Rattle.std.proofs.Common.{refl, ◌∙◌};
    ghost use Rattle.restart_host.specs.Leads.{Carries, carries_none, carries_chain, carries_end, led_none, led_chain, led_end};
    ghost use Rattle.io_world.specs.Leads.{IsLed};
    ghost use Rattle.restart_host.specs.Tries.{seen_by_host};

    ghost faults = { λ h. h.faults };

    ghost last = { last_count };

    ghost running = { λ h. runs_outside h.children.items };

    ghost spoken = { λ h. said_of h.log };

    ghost log = { λ h. told_of h.log };

    ghost leads = { λ old new memory. (new.host.ghost_name ≡ old.host.ghost_name)
        × IsLed (H.leads old.host.now new.host.now) memory
        × Carries H.last (record {
          left = old.left;
          faults = old.faults;
          log = old.log;
          below = seen_by_host H.running H.faults H.log old.host.now;
        })
        (record {
          left = new.left;
          faults = new.faults;
          log = new.log;
          below = seen_by_host H.running H.faults H.log new.host.now;
        }) memory };

    ghost spells = { λ h child runs. calls_spell h.log child };

    ghost high = { lit≤ tt };

    ghost stays = { λ h. (
      refl,
      led_none (H.leads h.host.now h.host.now) (H.stays h.host.now),
      carries_none _ _,
    ) };

    ghost chains = { λ a b c m first second. (
      second.0 ∙ first.0,
      led_chain H.leads H.chains a.host.now b.host.now c.host.now m first.1 second.1,
      carries_chain _ _ _ _ m first.2 second.2,
    ) };

    ghost ends = { λ a b c m first second. (
      second.0 ∙ first.0,
      led_end H.leads H.ends a.host.now b.host.now c.host.now m first.1 second.1,
      carries_end _ _ _ _ m first.2 second.2,
    ) };

    fn start(&mut self, child: u8, argv: &[String]) -> Result<(), HostFault> {
        let Ok(words) = copy_words(self.alloc, argv) else {
            self.log.lose();
            return Err(HostFault::Memory);
        };
        let answer = start_child(
            self.host,
            &mut self.left,
            &mut self.log,
            &mut self.children[child as usize],
            child,
            words,
        );
        tally(&mut self.faults, &answer);
        answer
    }

    fn write(&mut self, child: u8, bytes: &[u8]) -> Result<usize, HostFault> {
        let answer = write_child(
            self.host,
            &mut self.left,
            &mut self.log,
            &mut self.children[child as usize],
            child,
            bytes,
        );
        tally(&mut self.faults, &answer);
        answer
    }

    fn read(&mut self, child: u8, room: &mut [u8]) -> Result<usize, HostFault> {
        let answer = read_child(
            self.host,
            &mut self.left,
            &mut self.log,
            &mut self.children[child as usize],
            child,
            room,
        );
        tally(&mut self.faults, &answer);
        answer
    }

    fn stop(&mut self, child: u8) -> Result<(), HostFault> {
        stop_child(
            self.host,
            &mut self.log,
            &mut self.children[child as usize],
            child,
        );
        Ok(())
    }

    fn faults(&self) -> u64 {
        self.faults.get()
    }
}
