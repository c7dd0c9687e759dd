// Children that answer by a function.
ghost use Rattle.std.proofs.Common.{lit≤};
ghost use Rattle.std.specs.Prelude.{◌≡◌, ◌<◌, ◌≤◌, ℕ, [], true, false, ⊤, length, take, map, string_bytes, IfOk, OnOk, MatchResult};
ghost use Rattle.io_world.specs.Faults.{last_count, HasCause};
ghost use Rattle.io_world.specs.Logs.{told_of, said_of, no_calls, calls_spell};
ghost use Rattle.io_world.specs.Replies.{no_reply};
ghost use Rattle.io_world.specs.SureHostState.{SureChild, SureHostState, ServesCall, TakesRequests, Drains, child_of, runs};
ghost use Rattle.io_world.specs.Talks.{started, wrote, heard, stopped, given, Logs, Same, Becomes, Empties, Writes, Hears};
ghost use Rattle.io_world.specs.declared.host.HostFault.TheVariants.{Failed};
ghost use Rattle.io_world.specs.declared.host.TheConstants.{CHILDREN};

use crate::answer_by::AnswerBy;
use crate::call_log::CallLog;
use crate::host::{Host, HostFault};
use crate::pieces::give;
use crate::reply_buffer::ReplyBuffer;
use std::alloc::{AllocError, Global};
use std::marker::Model;

/// A child that answers by a function.
#[derive(Drop)]
struct Child {
    running: bool,
    buffer: ReplyBuffer,
}

impl Model for Child {
    ghost Value = { SureChild };

    ghost view = { λ s. record { running = s.running; reply = s.buffer } };
}

/// A host that answers each request line by a function, and `end` where it is read and no request
/// is open. Its count of faults is 0. It keeps and tells its log as long as there is memory for
/// each call, and tells what was said with each child.
#[derive(Drop)]
pub struct SureHost<A> {
    answers: A,
    alloc: Global,
    children: Vec<Child>,
    log: CallLog,
}

impl<A> Model for SureHost<A> {
    ghost Value = { SureHostState A };

    ghost view = { λ s. record {
      answers = s.answers;
      children = s.children.items;
      calls = s.log;
    } };
}

impl<A: AnswerBy> SureHost<A> {
    /// Children that answer by this; none of them runs. It takes its memory from `alloc`.
    pub fn new(alloc: Global, answers: A) -> SureHost<A>
        ensures idle { (k : ℕ) → runs result.children k ≡ false }
        ensures state { result ≡ record
            { answers = answers; children = []; calls = no_calls } }
    {
        SureHost {
            answers,
            alloc,
            children: Vec::new(alloc),
            log: CallLog::new(alloc),
        }
    }

    /// Makes room for this child, and a buffer for it.
    ///
    /// # Errors
    /// `AllocError` where there is no memory. The log is lost then.
    fn prepare(&mut self, child: u8) -> Result<ReplyBuffer, AllocError>
        ensures buffer { IfOk result (λ buffer. buffer ≡ no_reply) }
        ensures within { OnOk result (child < length self.new.children) }
        ensures same { (k : ℕ) → child_of self.new.children k ≡ child_of self.old.children k }
        ensures calls { MatchResult result (λ _. self.new.calls ≡ self.old.calls)
            (λ _. self.new.calls ≡ record self.old.calls { whole = false }) }
        ensures whole { OnOk result (self.new.calls.whole ≡ self.old.calls.whole) }
        ensures answers { self.new.answers ≡ self.old.answers }
    {
        let grown = grow(self.alloc, &mut self.children, child);
        let Ok(()) = grown else {
            self.log.lose();
            return Err(AllocError);
        };
        let Ok(buffer) = ReplyBuffer::new(self.alloc) else {
            self.log.lose();
            return Err(AllocError);
        };
        Ok(buffer)
    }
}

/// Makes room for this child.
fn grow(alloc: Global, children: &mut Vec<Child>, child: u8) -> Result<(), AllocError>
    ensures within { OnOk result (child < length children.new.items) }
    ensures same { (k : ℕ) → child_of children.new.items k ≡ child_of children.old.items k }
{
    while children.len() <= child as usize {
        let buffer = ReplyBuffer::new(alloc)?;
        children.push(Child {
            running: false,
            buffer,
        })?;
    }
    Ok(())
}

impl<A: AnswerBy> Host for SureHost<A> {
    ghost faults = { λ s. 0 };

    ghost last = { last_count };

    ghost running = { λ s. runs s.children };

    ghost spoken = { λ s. said_of s.calls };

    ghost log = { λ s. told_of s.calls };

    ghost spells = { λ host child running. calls_spell host.calls child };

    ghost high = { lit≤ tt };

    ghost leads = { λ old new memory. ⊤ };

    ghost stays = { λ h. tt };

    ghost chains = { λ a b c m first second. tt };

    ghost ends = { λ a b c m first second. tt };

    fn start(&mut self, child: u8, argv: &[String]) -> Result<(), HostFault>
        requires number { child < CHILDREN }
        requires words { 0 < length argv.now }
        requires idle { runs self.old.children child ≡ false }
        ensures running { MatchResult result
            (λ _. Becomes child true (runs self.old.children) (runs self.new.children))
            (λ _. Same (runs self.old.children) (runs self.new.children)) }
        ensures spoken { MatchResult result
            (λ _. Empties child (said_of self.old.calls) (said_of self.new.calls))
            (λ _. Same (said_of self.old.calls) (said_of self.new.calls)) }
        ensures log { Logs (told_of self.old.calls) (told_of self.new.calls)
            (started child (map string_bytes argv.now) result) }
        ensures cause { HasCause Failed last_count 0 0 result }
        ensures serves { ServesCall child self.old self.new result }
        ensures child { OnOk result
            (child_of self.new.children child ≡ record { running = true; reply = no_reply }) }
    {
        let Ok(buffer) = self.prepare(child) else {
            return Err(HostFault::Memory);
        };
        let Ok(()) = self.log.start(child, argv, Ok(())) else {
            return Err(HostFault::Memory);
        };
        self.children[child as usize] = Child {
            running: true,
            buffer,
        };
        Ok(())
    }

    fn write(&mut self, child: u8, bytes: &[u8]) -> Result<usize, HostFault>
        requires number { child < CHILDREN }
        requires some { 0 < length bytes.now }
        requires runs { runs self.old.children child ≡ true }
        ensures count { IfOk result (λ n. (0 < n) × (n ≤ length bytes.now)) }
        ensures running { Same (runs self.old.children) (runs self.new.children) }
        ensures spoken { MatchResult result
            (λ n. Writes child (take n bytes.now) (said_of self.old.calls) (said_of self.new.calls))
            (λ _. Same (said_of self.old.calls) (said_of self.new.calls)) }
        ensures log { Logs (told_of self.old.calls) (told_of self.new.calls)
            (wrote child bytes.now result) }
        ensures cause { HasCause Failed last_count 0 0 result }
        ensures serves { ServesCall child self.old self.new result }
        ensures asks { TakesRequests (A.answers self.old.answers) bytes.now
            (child_of self.old.children child) (child_of self.new.children child) result }
    {
        let Some(it) = self.children.get(child as usize) else {
            unreachable!()
        };
        let Ok(buffer) = it.buffer.after(self.alloc, &self.answers, bytes) else {
            self.log.lose();
            return Err(HostFault::Memory);
        };
        let Ok(()) = self.log.write(child, bytes, Ok(bytes.len())) else {
            return Err(HostFault::Memory);
        };
        self.children[child as usize] = Child {
            running: true,
            buffer,
        };
        Ok(bytes.len())
    }

    fn read(&mut self, child: u8, room: &mut [u8]) -> Result<usize, HostFault>
        requires number { child < CHILDREN }
        requires some { 0 < length room.old }
        requires runs { runs self.old.children child ≡ true }
        ensures count { IfOk result (λ n. (0 < n) × (n ≤ length room.new)) }
        ensures running { Same (runs self.old.children) (runs self.new.children) }
        ensures spoken { MatchResult result
            (λ n. Hears child (take n room.new) (said_of self.old.calls) (said_of self.new.calls))
            (λ _. Same (said_of self.old.calls) (said_of self.new.calls)) }
        ensures log { Logs (told_of self.old.calls) (told_of self.new.calls)
            (heard child (length room.old) (given result room.new)) }
        ensures cause { HasCause Failed last_count 0 0 result }
        ensures serves { ServesCall child self.old self.new result }
        ensures drains { Drains room.old room.new (child_of self.old.children child)
            (child_of self.new.children child) result }
    {
        let size = room.len();
        let Some(it) = self.children.get(child as usize) else {
            unreachable!()
        };
        let count = give(it.buffer.next(), room, size);
        let Ok(()) = self.log.read(child, size, &room[..count]) else {
            return Err(HostFault::Memory);
        };
        self.children[child as usize].buffer.give(count);
        Ok(count)
    }

    fn stop(&mut self, child: u8) -> Result<(), HostFault>
        requires number { child < CHILDREN }
        requires runs { runs self.old.children child ≡ true }
        ensures running { Becomes child false (runs self.old.children) (runs self.new.children) }
        ensures spoken { Same (said_of self.old.calls) (said_of self.new.calls) }
        ensures log { Logs (told_of self.old.calls) (told_of self.new.calls)
            (stopped child result) }
        ensures cause { HasCause Failed last_count 0 0 result }
        ensures serves { ServesCall child self.old self.new result }
    {
        let Some(it) = self.children.get_mut(child as usize) else {
            unreachable!()
        };
        it.running = false;
        let Ok(()) = self.log.stop(child, Ok(())) else {
            return Err(HostFault::Memory);
        };
        Ok(())
    }

    fn faults(&self) -> u64 {
        0
    }
}
