//! The generator in the process.
ghost use Rattle.std.specs.Prelude.{◌≡◌, ◌+◌, ℕ, ◌<◌, ◌≤◌, List, ◌++◌, None, Some, codes, false, is_ok, length, map, min, option_map, string_bytes, take, true, IfErr, IfOk, IsErrOf, MatchOption, MatchResult, OnErr, OnOk};
ghost use Rattle.std.specs.Str.{bytes_eq};
ghost use Rattle.io_world.specs.Faults.{last_count, Counts, HasCause};
ghost use Rattle.io_world.specs.Talks.{Talk, heard_more, silence, wrote_more};
ghost use Rattle.io_world.specs.declared.host.HostFault.TheVariants.{Failed, Memory};
ghost use Rattle.grid_world.specs.Generators as specs;
ghost use Rattle.grid_world.specs.Sessions.{SessionState, is_session_running, talk_of};

use crate::talk::Session;
use gen_host::Generator;
use grid_text::{GridFault, read_grid};
use io_world::{FaultCount, HostFault};
use std::alloc::Global;
use std::marker::Model;

/// A text of so many bytes is too long.
const TEXT_BYTES: usize = 1 << 31;

/// The generator of the grid in the process. It tells what was said with it, which is the dialogue
/// of its grid: what was read from it is the front of the answers to the lines that were written to
/// it.
#[derive(Drop)]
pub struct GridGen {
    alloc: Global,
    session: Option<Session>,
    faults: FaultCount,
}

impl Model for GridGen {
    ghost use Rattle.grid_world.specs.Generators.{GeneratorState};

    ghost Value = { GeneratorState };

    ghost view = { λ g. record { session = g.session; faults = g.faults } };
}

impl GridGen {
    /// A generator that doesn't run. It takes its memory from `alloc`.
    pub fn new(alloc: Global) -> GridGen
        ensures state { result ≡ record { session = None; faults = 0 } }
        ensures idle { ⟦<GridGen as Generator>⟧.running result ≡ false }
    {
        GridGen {
            alloc,
            session: None,
            faults: FaultCount::new(),
        }
    }

    /// Counts a fault.
    fn failed(&mut self) -> HostFault
        ensures fault { result ≡ Failed }
        ensures session { self.new.session ≡ self.old.session }
        ensures later { self.old.faults ≤ self.new.faults }
        ensures count { self.new.faults ≡ min (self.old.faults + 1) last_count }
    {
        self.faults.raise();
        HostFault::Failed
    }
}

impl Generator for GridGen {
    ghost faults = { λ g. g.faults };

    ghost running = { λ g. is_session_running g.session };

    ghost spoken = { λ g. Some (talk_of g.session) };

    /// The words are `@grid` and the text of a grid, shorter than 2^31 bytes. `Failed` where they
    /// aren't.
    fn start(&mut self, argv: &[String]) -> Result<(), HostFault>
        requires words { 0 < length argv.now }
        requires idle { is_session_running self.old.session ≡ false }
        ensures running { is_session_running self.new.session ≡ is_ok result }
        ensures spoken { MatchResult result
            (λ _. Some (talk_of self.new.session)
            ≡ option_map (λ (talk : Talk). silence) (Some (talk_of self.old.session)))
            (λ _. Some (talk_of self.new.session) ≡ Some (talk_of self.old.session)) }
        ensures cause { HasCause Failed last_count self.old.faults self.new.faults result }
        ensures starts { OnOk result
            (specs.StartsGrid (map string_bytes argv.now) self.new.session) }
        ensures refused { IsErrOf result Failed → specs.RefusesStart (map string_bytes argv.now) }
        ensures kept { OnErr result (self.new.session ≡ self.old.session) }
        ensures counts { Counts Failed last_count self.old.faults self.new.faults result }
    {
        let Some(text) = grid_text_in(argv) else {
            return Err(self.failed());
        };
        match read_grid(self.alloc, text) {
            Ok(grid) => {
                self.session = Some(Session::new(self.alloc, grid));
                Ok(())
            }
            Err(GridFault::At { .. }) => Err(self.failed()),
            Err(GridFault::Memory) => Err(HostFault::Memory),
        }
    }

    /// It takes all bytes. Only memory may be wanting.
    fn send(&mut self, bytes: &[u8]) -> Result<usize, HostFault>
        requires some { 0 < length bytes.now }
        requires runs { is_session_running self.old.session ≡ true }
        ensures count { IfOk result (λ n. (0 < n) × (n ≤ length bytes.now)) }
        ensures running { is_session_running self.new.session ≡ true }
        ensures spoken { MatchResult result
            (λ n. Some (talk_of self.new.session)
            ≡ option_map (wrote_more (take n bytes.now)) (Some (talk_of self.old.session)))
            (λ _. Some (talk_of self.new.session) ≡ Some (talk_of self.old.session)) }
        ensures cause { HasCause Failed last_count self.old.faults self.new.faults result }
        ensures all { IfOk result (λ n. n ≡ length bytes.now) }
        ensures sent { OnOk result (self.new ≡ record self.old {
          session = option_map
              (λ (s : SessionState). record s { written = s.written ++ bytes.now })
              self.old.session;
        }) }
        ensures memory { IfErr result (λ fault. (fault ≡ Memory) × (self.new ≡ self.old)) }
        ensures counts { Counts Failed last_count self.old.faults self.new.faults result }
    {
        let Some(session) = &mut self.session else {
            unreachable!()
        };
        let Ok(()) = session.send(self.alloc, bytes) else {
            return Err(HostFault::Memory);
        };
        Ok(bytes.len())
    }

    /// It gives the first bytes of the answers that are left. `Failed` where none is.
    fn receive(&mut self, room: &mut [u8]) -> Result<usize, HostFault>
        requires some { 0 < length room.old }
        requires runs { is_session_running self.old.session ≡ true }
        ensures count { IfOk result (λ n. (0 < n) × (n ≤ length room.new)) }
        ensures running { is_session_running self.new.session ≡ true }
        ensures spoken { MatchResult result
            (λ n. Some (talk_of self.new.session)
            ≡ option_map (heard_more (take n room.new)) (Some (talk_of self.old.session)))
            (λ _. Some (talk_of self.new.session) ≡ Some (talk_of self.old.session)) }
        ensures cause { HasCause Failed last_count self.old.faults self.new.faults result }
        ensures failed { IfErr result (λ fault. (fault ≡ Failed)
            × specs.NothingLeft self.old.session) }
        ensures given { IfOk result (λ n. self.new ≡ record self.old {
          session = option_map
              (λ (s : SessionState). record s { given = s.given + n }) self.old.session;
        }) }
        ensures kept { OnErr result (self.new.session ≡ self.old.session) }
        ensures counts { Counts Failed last_count self.old.faults self.new.faults result }
    {
        let Some(session) = &mut self.session else {
            unreachable!()
        };
        if session.left() > 0 {
            return Ok(session.give(room));
        }
        Err(self.failed())
    }

    fn stop(&mut self) -> Result<(), HostFault>
        requires runs { is_session_running self.old.session ≡ true }
        ensures running { is_session_running self.new.session ≡ false }
        ensures spoken { Some (talk_of self.new.session) ≡ Some (talk_of self.old.session) }
        ensures cause { HasCause Failed last_count self.old.faults self.new.faults result }
        ensures sure { is_ok result ≡ true }
        ensures stopped { self.new ≡ record self.old {
          session = option_map
              (λ (s : SessionState). record s { running = false }) self.old.session;
        } }
        ensures counts { Counts Failed last_count self.old.faults self.new.faults result }
    {
        if let Some(session) = &mut self.session {
            session.stop();
        }
        Ok(())
    }

    fn faults(&self) -> u64 {
        self.faults.get()
    }
}

/// The text of a grid, if the words are `@grid` and such a text, shorter than 2^31 bytes.
fn grid_text_in(argv: &[String]) -> Option<&[u8]>
    ensures { MatchOption result
        ((text : List ℕ) → ¬ (specs.AreGridWords (map string_bytes argv.now) text))
        (λ text. specs.AreGridWords (map string_bytes argv.now) text.now) }
{
    let [name, text] = argv else {
        return None;
    };
    if !is_grid_word(name) {
        return None;
    }
    if text.len() >= TEXT_BYTES {
        return None;
    }
    Some(text.as_bytes())
}

fn is_grid_word(word: &String) -> bool
    ensures { result ≡ bytes_eq (string_bytes word.now) (codes "@grid") }
{
    word.as_bytes() == b"@grid".as_slice()
}
