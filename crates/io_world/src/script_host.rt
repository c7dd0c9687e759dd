// Children that play scripts.
ghost use Rattle.std.proofs.Common.{lit≤};
ghost use Rattle.std.specs.Prelude.{◌≡◌, ℕ, ◌<◌, ◌≤◌, ◌+◌, ◌^◌, ◌==◌, [], ◌∷◌, true, false, ⊤, length, take, map, slice_get, string_bytes, option_copied, IfOk, MatchResult};
ghost use Rattle.io_world.specs.Faults.{last_count, HasCause};
ghost use Rattle.io_world.specs.Logs.{told_of, calls_spell};
ghost use Rattle.io_world.specs.Plans.{fails_next, cut_or};
ghost use Rattle.io_world.specs.ScriptHostState.{ScriptHostState, Plays, Feeds, Gets, unplayed, begun, progress_of, scripts_for, scripts_of, script_of, turn_of, is_again, is_played_out, open_bytes, ready, most_given, is_running, talk_with, start_fails, read_fails};
ghost use Rattle.io_world.specs.Talks.{started, wrote, heard, stopped, given, Logs, Same, Becomes, Empties, Writes, Hears};
ghost use Rattle.io_world.specs.declared.host.HostFault.TheVariants.{Failed};
ghost use Rattle.io_world.specs.declared.host.TheConstants.{CHILDREN};

use crate::call_log::CallLog;
use crate::fault_count::FaultCount;
use crate::host::{CHILDREN, Host, HostFault};
use crate::pieces::{cut_at, give};
use crate::progress::{Progress, line_feeds, open_to, progress_of};
use crate::schedule::Schedule;
use crate::scripts::{Script, Scripts};
use std::alloc::Global;
use std::marker::Model;

/// A host whose children play scripts, the same one at each start or the next one. It keeps and
/// tells its log as long as there is memory for it, and tells what was said with each child.
#[derive(Drop)]
pub struct ScriptHost {
    scripts: Scripts,
    progress: [Progress; CHILDREN],
    log: CallLog,
    schedule: Schedule,
    faults: FaultCount,
}

impl Model for ScriptHost {
    ghost Value = { ScriptHostState };

    ghost view = { λ s. record {
      scripts = scripts_of s.scripts;
      again = is_again s.scripts;
      progress = s.progress;
      calls = s.log;
      plan = s.schedule;
      faults = s.faults;
    } };

    ghost invariant = { λ s. length s.progress ≡ CHILDREN };
}

impl ScriptHost {
    /// Children with these scripts, by their numbers; none of them runs. Each start plays the
    /// child's script from its beginning. The calls whose numbers, from 0, stand in `fails` fail.
    /// It takes the memory of its log from `alloc`.
    pub fn new(alloc: Global, children: Vec<Script>, fails: Vec<u64>) -> ScriptHost
        ensures idle { (k : ℕ) → is_running result k ≡ false }
        ensures state { result
            ≡ unplayed (map (λ script. script ∷ []) children.items) false fails.items }
    {
        ScriptHost::with_scripts(alloc, Scripts::One(children), fails)
    }

    /// Children that play one script a start, by their numbers; none of them runs. A child's j-th
    /// start that is Ok plays its j-th script from its beginning, and a start fails where none is
    /// left. A start that fails uses up none. The rest is as with `new`.
    pub fn again(alloc: Global, children: Vec<Vec<Script>>, fails: Vec<u64>) -> ScriptHost
        ensures idle { (k : ℕ) → is_running result k ≡ false }
        ensures state { result
            ≡ unplayed (map (λ scripts. scripts.items) children.items) true fails.items }
    {
        ScriptHost::with_scripts(alloc, Scripts::Several(children), fails)
    }

    fn with_scripts(alloc: Global, scripts: Scripts, fails: Vec<u64>) -> ScriptHost
        ensures idle { (k : ℕ) → is_running result k ≡ false }
        ensures state { result
            ≡ unplayed (scripts_of scripts) (is_again scripts) fails.items }
    {
        ScriptHost {
            scripts,
            progress: [Progress::idle(); CHILDREN],
            log: CallLog::new(alloc),
            schedule: Schedule::new(fails),
            faults: FaultCount::new(),
        }
    }

    /// The script that the child plays since its last start.
    fn script(&self, child: u8) -> Option<&Script>
        ensures { option_copied result
            ≡ slice_get (scripts_for self.now.scripts child) (turn_of self.now child) }
    {
        let starts = progress_of(&self.progress, child).starts;
        let turn = if self.scripts.is_again() {
            starts.saturating_sub(1)
        } else {
            0
        };
        self.scripts.of(child).get(turn as usize)
    }

    /// Whether the child has no script for its next start.
    fn is_played_out(&self, child: u8) -> bool
        ensures { result ≡ is_played_out self.now child }
    {
        let starts = progress_of(&self.progress, child).starts;
        let left = (starts as usize) < self.scripts.of(child).len();
        (child as usize) >= self.scripts.len() || self.scripts.is_again() && !left
    }

    /// The bytes that the child may give now.
    fn ready(&self, child: u8) -> &[u8]
        ensures value { result.now ≡ ready self.now child }
        ensures fits { (progress_of self.now.progress child).position + length result.now < 2 ^ 64 }
    {
        let position = progress_of(&self.progress, child).position;
        match self.script(child) {
            Some(script) => open_bytes(script, &self.progress, position),
            None => &[],
        }
    }

    /// The most that the next read of the child gives.
    fn cut(&self, child: u8, most: usize) -> usize
        ensures value { result ≡ cut_or (script_of self.now child).cuts
            (progress_of self.now.progress child).reads most }
        ensures some { 0 < most → 0 < result }
    {
        match self.script(child) {
            Some(script) => cut_at(&script.cuts, progress_of(&self.progress, child).reads, most),
            None => most,
        }
    }

    /// Puts the bytes of the child's next read into the room, and answers how many.
    fn give(&self, child: u8, room: &mut [u8]) -> usize
        ensures count { result ≡ most_given self.now child (length room.old) }
        ensures given { take result room.new ≡ take result (ready self.now child) }
        ensures none { result ≡ 0 → 0 < length room.old → (length (ready self.now child) == 0)
            ≡ true }
        ensures some { 0 < result → (length (ready self.now child) == 0) ≡ false }
        ensures fits { (progress_of self.now.progress child).position + result < 2 ^ 64 }
    {
        let cut = self.cut(child, room.len());
        give(self.ready(child), room, cut)
    }
}

/// The bytes of a script from a position on, up to the first place that isn't open.
fn open_bytes<'a>(script: &'a Script, progress: &[Progress], position: usize) -> &'a [u8]
    ensures value { result.now ≡ open_bytes script.now progress.now position }
    ensures fits { position + length result.now < 2 ^ 64 }
{
    let end = open_to(progress, &script.needs, script.bytes.len());
    if position < end {
        &script.bytes[position..end]
    } else {
        &[]
    }
}

impl Host for ScriptHost {
    ghost faults = { λ s. s.faults };

    ghost last = { last_count };

    ghost running = { is_running };

    ghost spoken = { talk_with };

    ghost log = { λ s. told_of s.calls };

    ghost spells = { λ host child runs. calls_spell host.calls child };

    ghost high = { lit≤ tt };

    ghost leads = { λ old new memory. ⊤ };

    ghost stays = { λ h. tt };

    ghost chains = { λ a b c m first second. tt };

    ghost ends = { λ a b c m first second. tt };

    fn start(&mut self, child: u8, argv: &[String]) -> Result<(), HostFault>
        requires number { child < CHILDREN }
        requires words { 0 < length argv.now }
        requires idle { is_running self.old child ≡ false }
        ensures running { MatchResult result
            (λ _. Becomes child true (is_running self.old) (is_running self.new))
            (λ _. Same (is_running self.old) (is_running self.new)) }
        ensures spoken { MatchResult result
            (λ _. Empties child (talk_with self.old) (talk_with self.new))
            (λ _. Same (talk_with self.old) (talk_with self.new)) }
        ensures log { Logs (told_of self.old.calls) (told_of self.new.calls)
            (started child (map string_bytes argv.now) result) }
        ensures cause { HasCause Failed last_count self.old.faults self.new.faults result }
        ensures plays { Plays (start_fails self.old child) self.old self.new result }
        ensures progress { MatchResult result
            (λ _. Becomes child (begun (progress_of self.old.progress child).starts)
            (progress_of self.old.progress) (progress_of self.new.progress))
            (λ _. Same (progress_of self.old.progress) (progress_of self.new.progress)) }
    {
        let played_out = self.is_played_out(child);
        let fails = self.schedule.call() || played_out;
        let answer = if fails {
            Err(HostFault::Failed)
        } else {
            Ok(())
        };
        let Ok(()) = self.log.start(child, argv, answer) else {
            return Err(HostFault::Memory);
        };
        if fails {
            self.faults.raise();
            return Err(HostFault::Failed);
        }
        self.progress[child as usize] = progress_of(&self.progress, child).begun();
        Ok(())
    }

    fn write(&mut self, child: u8, bytes: &[u8]) -> Result<usize, HostFault>
        requires number { child < CHILDREN }
        requires some { 0 < length bytes.now }
        requires runs { is_running self.old child ≡ true }
        ensures count { IfOk result (λ n. (0 < n) × (n ≤ length bytes.now)) }
        ensures running { Same (is_running self.old) (is_running self.new) }
        ensures spoken { MatchResult result
            (λ n. Writes child (take n bytes.now) (talk_with self.old) (talk_with self.new))
            (λ _. Same (talk_with self.old) (talk_with self.new)) }
        ensures log { Logs (told_of self.old.calls) (told_of self.new.calls)
            (wrote child bytes.now result) }
        ensures cause { HasCause Failed last_count self.old.faults self.new.faults result }
        ensures plays { Plays (fails_next self.old.plan) self.old self.new result }
        ensures feeds { Feeds child bytes.now self.old.progress self.new.progress result }
    {
        let fails = self.schedule.call();
        let answer = if fails {
            Err(HostFault::Failed)
        } else {
            Ok(bytes.len())
        };
        let Ok(()) = self.log.write(child, bytes, answer) else {
            return Err(HostFault::Memory);
        };
        if fails {
            self.faults.raise();
            return Err(HostFault::Failed);
        }
        let mut now = progress_of(&self.progress, child);
        now.lines = now.lines.saturating_add(line_feeds(bytes) as u64);
        self.progress[child as usize] = now;
        Ok(bytes.len())
    }

    fn read(&mut self, child: u8, room: &mut [u8]) -> Result<usize, HostFault>
        requires number { child < CHILDREN }
        requires some { 0 < length room.old }
        requires runs { is_running self.old child ≡ true }
        ensures count { IfOk result (λ n. (0 < n) × (n ≤ length room.new)) }
        ensures running { Same (is_running self.old) (is_running self.new) }
        ensures spoken { MatchResult result
            (λ n. Hears child (take n room.new) (talk_with self.old) (talk_with self.new))
            (λ _. Same (talk_with self.old) (talk_with self.new)) }
        ensures log { Logs (told_of self.old.calls) (told_of self.new.calls)
            (heard child (length room.old) (given result room.new)) }
        ensures cause { HasCause Failed last_count self.old.faults self.new.faults result }
        ensures plays { Plays (read_fails self.old child) self.old self.new result }
        ensures gets { Gets child room.old room.new self.old self.new result }
    {
        let fails = self.schedule.call();
        let size = room.len();
        let before = progress_of(&self.progress, child);
        let tried = Progress {
            reads: before.reads.saturating_add(1),
            ..before
        };
        let count = if fails { 0 } else { self.give(child, room) };
        self.progress[child as usize] = tried;
        if count == 0 {
            let Ok(()) = self.log.miss(child, size, HostFault::Failed) else {
                return Err(HostFault::Memory);
            };
            self.faults.raise();
            return Err(HostFault::Failed);
        }
        let Ok(()) = self.log.read(child, size, &room[..count]) else {
            return Err(HostFault::Memory);
        };
        self.progress[child as usize] = Progress {
            position: before.position + count,
            ..tried
        };
        Ok(count)
    }

    fn stop(&mut self, child: u8) -> Result<(), HostFault>
        requires number { child < CHILDREN }
        requires runs { is_running self.old child ≡ true }
        ensures running { Becomes child false (is_running self.old) (is_running self.new) }
        ensures spoken { Same (talk_with self.old) (talk_with self.new) }
        ensures log { Logs (told_of self.old.calls) (told_of self.new.calls)
            (stopped child result) }
        ensures cause { HasCause Failed last_count self.old.faults self.new.faults result }
        ensures plays { Plays (fails_next self.old.plan) self.old self.new result }
        ensures progress { Becomes child
            (record (progress_of self.old.progress child) { running = false })
            (progress_of self.old.progress) (progress_of self.new.progress) }
    {
        let fails = self.schedule.call();
        let mut now = progress_of(&self.progress, child);
        now.running = false;
        self.progress[child as usize] = now;
        let answer = if fails {
            Err(HostFault::Failed)
        } else {
            Ok(())
        };
        let Ok(()) = self.log.stop(child, answer) else {
            return Err(HostFault::Memory);
        };
        if fails {
            self.faults.raise();
        }
        answer
    }

    fn faults(&self) -> u64 {
        self.faults.get()
    }
}
