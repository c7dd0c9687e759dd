//! The session.
use crate::fault::{CoreFault, Heard};
use crate::round::{Round, Scene, are_answered, cell_of, place_of, put_answers, round_of};
use fact_store::Facts;
use instance_queue::{Due, Queue, QueueFault};
use learning::Knowledge;
use pools::{Workers, longest_front, workers_in};
use std::alloc::{AllocError, Global};
use std::marker::Model;
use std::mem;
use task_model::Task;
use transcript_model::{Entry, Head};

/// A transcript as it grows: rounds of requests, their answers, and what is known by them. It is a
/// state machine that knows no child and no bytes but those that it is told.
///
/// A round is begun with asks that are due; then for each child of the round its request is sent
/// and its line is heard, in any order of the children; then the round is closed, and its answers
/// can be learnt.
#[derive(Drop)]
pub struct Session {
    version: u8,
    calls: u32,
    pools: Vec<Workers>,
    entries: Vec<Entry>,
    /// What is known and noted is of the learnt front. A round's requests and answers come into the
    /// transcript together, so that none is unanswered.
    knowledge: Knowledge,
    learnt: usize,
    is_open: bool,
    round: Round,
    failed: bool,
    alloc: Global,
}

impl Model for Session {
    ghost use Rattle.std.specs.Prelude.{vec_capacity};
    ghost use Rattle.session_core.specs.State.{State};

    ghost Value = { State };

    ghost use Rattle.session_core.specs.Shown.{shown_session};
    ghost use Rattle.session_core.specs.State.{IsSound};

    ghost view = { shown_session };

    ghost invariant = { λ s. IsSound (shown_session s) (vec_capacity s.entries)
        (vec_capacity s.knowledge.asked) };
}

impl Session {
    ghost use Rattle.std.specs.Prelude.{◌≡◌, ◌+◌, ◌<◌, ◌≤◌, ◌==◌, ℕ, List, true, false, length, take, drop, slice_get, Some, option_copied, IfSome, IfOk, IfErr, OnOk, OnErr, if◌then◌else◌};
    ghost use Rattle.fact_store.specs.Growth.{IsBetween, LiesBetween};
    ghost use Rattle.gen_lines.specs.declared.line_buf.TheConstants.{LINE_LENGTH};
    ghost use Rattle.instance_queue.specs.Level as level;
    ghost use Rattle.instance_queue.specs.Level.{due_instances};
    ghost use Rattle.instance_queue.specs.declared.due.Due.{Due as AnyDue};
    ghost use Rattle.task_model.specs.Fit.{IsFit};
    ghost use Rattle.task_model.specs.declared.task.Task.{Task as AnyTask};
    ghost use Rattle.transcript_model.specs.Legal.{is_mark};
    ghost use Rattle.transcript_model.specs.Transcript.{known_of, notes_of};
    ghost use Rattle.session_core.specs.Events.{IsFresh};
    ghost use Rattle.session_core.specs.Heard.{heard_at, is_bad_at, number_at};
    ghost use Rattle.session_core.specs.Ready.{AreReady, IsNextRound};
    ghost use Rattle.session_core.specs.Session.{IsFitHead, IsSession, IsOf, IsNew, IsLearnt, MayBeginRound, round_begun, after_learn, HasSessionCause};
    ghost use Rattle.session_core.specs.declared.fault.CoreFault.TheVariants.{Failed};
    ghost use Rattle.session_core.specs.Slots.{IsUnsent, IsAwaited, all_answered};
    ghost use Rattle.session_core.specs.State.{after_sent, after_line, after_failure, after_close, after_mark, with_learnt};

    /// The session in which nothing was asked, and what is known is what is known at first. Fails
    /// only where memory is wanting.
    pub fn new(alloc: Global, task: &Task, head: &Head) -> Result<Session, AllocError>
        requires task { IsFit task.now }
        requires head { IsFitHead task.now head.now }
        ensures head { IfOk result (IsOf head.now) }
        ensures first { IfOk result (IsNew task.now) }
        ensures session { IfOk result (IsSession task.now) }
    {
        let pools = workers_in(alloc, head.pools.as_slice(), task.streams.len())?;
        let knowledge = Knowledge::new(alloc, task)?;
        Ok(Session {
            version: head.version,
            calls: head.calls,
            pools,
            entries: Vec::new(alloc),
            knowledge,
            learnt: 0,
            is_open: false,
            round: Round::empty(alloc),
            failed: false,
            alloc,
        })
    }

    /// How many of these asks, from the front on, make the next round: as many as there are such
    /// that no pool has more of them than workers, and no more than calls are left. Where a call is
    /// left and there is an ask, there is one at least. Where all that was answered is learnt, and
    /// the asks are due, that front of them may begin.
    pub fn next_round(&self, dues: &[Due]) -> usize
        ensures cut { IsNextRound self.now dues.now result }
        ensures some { (task : AnyTask) → IsSession task self.now → 0 < length dues.now
            → length self.now.asked < self.now.calls → 0 < result }
        ensures may { (task : AnyTask) → IsSession task self.now → self.now.failed ≡ false
            → IsLearnt self.now → AreReady task self.now.entries dues.now
            → MayBeginRound task self.now (take result dues.now) }
    {
        let left = self.calls as usize - self.knowledge.asked.len();
        let most = dues.len().min(left);
        longest_front(self.pools.as_slice(), &dues[..most])
    }

    /// Begins a round of these asks, and answers how many there are. They are due, each with its
    /// turn, and of different instances; no pool has more of them than workers; so many calls are
    /// left; no round is open, and all that was answered is learnt. It takes all memory of the
    /// round, of which nothing is sent; each request has a child of its own. Fails where the
    /// session has failed and where memory is wanting, and leaves all as it was then.
    pub fn begin_round(&mut self, task: &Task, dues: &[Due]) -> Result<usize, CoreFault>
        requires session { IsSession task.now self.old }
        requires round { self.old.failed ≡ false → MayBeginRound task.now self.old dues.now }
        ensures begun { OnOk result (self.new ≡ round_begun task.now self.old dues.now) }
        ensures count { IfOk result (λ count. count ≡ length dues.now) }
        ensures fresh { OnOk result (IsFresh self.new.slots) }
        ensures working { OnOk result (self.old.failed ≡ false) }
        ensures err { OnErr result (self.new ≡ self.old) }
        ensures fault { IfErr result (HasSessionCause self.old) }
        ensures kept { IsSession task.now self.new }
    {
        if self.failed {
            return Err(CoreFault::Failed);
        }
        self.entries.reserve(2 * dues.len())?;
        self.knowledge.asked.reserve(dues.len())?;
        let scene = Scene {
            alloc: self.alloc,
            task,
            facts: &self.knowledge.facts,
            pools: self.pools.as_slice(),
            version: self.version,
        };
        let round = round_of(&scene, self.knowledge.asked.len() as u32 + 1, dues)?;
        self.round = round;
        self.is_open = true;
        Ok(dues.len())
    }

    /// The child and the text of the request for the due at this place, from 0, of the open round.
    pub fn request(&self, number: usize) -> (u8, &[u8])
        requires working { self.now.failed ≡ false }
        requires number { number < length self.now.slots }
        ensures { IfSome (slice_get self.now.slots number)
            (λ slot. (result.0 ≡ slot.child) × (result.1.now ≡ slot.request)) }
    {
        let cell = &self.round.cells[number];
        (cell.child(), cell.request())
    }

    /// Whether the open round has a request for the child that wasn't sent.
    pub fn is_unsent(&self, child: u8) -> bool
        ensures yes { result ≡ true → IsUnsent self.now.slots child }
        ensures no { IsUnsent self.now.slots child → result ≡ true }
    {
        match cell_of(self.round.cells.as_slice(), child) {
            Some(cell) => cell.is_unsent(),
            None => false,
        }
    }

    /// Whether the open round has a request for the child that was sent and isn't answered.
    pub fn is_awaited(&self, child: u8) -> bool
        ensures yes { result ≡ true → IsAwaited self.now.slots child }
        ensures no { IsAwaited self.now.slots child → result ≡ true }
    {
        match cell_of(self.round.cells.as_slice(), child) {
            Some(cell) => cell.is_awaited(),
            None => false,
        }
    }

    /// Whether each request of the open round is answered.
    pub fn is_answered(&self) -> bool
        ensures { result ≡ all_answered self.now.slots }
    {
        are_answered(self.round.cells.as_slice())
    }

    /// The request for the due at this place, from 0, of the open round as an entry.
    pub fn ask(&self, number: usize) -> &Entry
        requires number { number < length self.now.asks }
        ensures { slice_get self.now.asks number ≡ Some result.now }
    {
        &self.round.asks[number]
    }

    /// What was heard for the due at this place, from 0, of the open round, if it is answered.
    pub fn answer(&self, number: usize) -> Option<&Entry>
        requires number { number < length self.now.slots }
        ensures { IfSome (slice_get self.now.slots number)
            (λ slot. option_copied result ≡ slot.answer) }
    {
        self.round.cells[number].answer()
    }

    /// The request of the child was written whole. It was not before.
    pub fn sent(&mut self, child: u8)
        requires working { self.old.failed ≡ false }
        requires unsent { IsUnsent self.old.slots child }
        ensures after { self.new ≡ after_sent self.old child }
        ensures kept { (task : AnyTask) → IsSession task self.old → IsSession task self.new }
    {
        match place_of(self.round.cells.as_slice(), child) {
            Some(place) => self.round.cells[place].send(),
            None => unreachable!(),
        }
    }

    /// A whole line was taken from the child, without its line feed and a carriage return before
    /// that. The child's request was sent and isn't answered. A line that is no answer lets the
    /// session fail.
    pub fn line(&mut self, child: u8, bytes: &[u8]) -> Heard
        requires working { self.old.failed ≡ false }
        requires awaited { IsAwaited self.old.slots child }
        requires few { length bytes.now ≤ LINE_LENGTH }
        ensures heard { result ≡ heard_at self.old.slots child bytes.now }
        ensures after { self.new ≡ after_line self.old child bytes.now
            (is_bad_at self.old.slots child bytes.now) }
        ensures kept { (task : AnyTask) → IsSession task self.old → IsSession task self.new }
    {
        let Some(place) = place_of(self.round.cells.as_slice(), child) else {
            unreachable!();
        };
        let cell = &mut self.round.cells[place];
        let number = cell.number();
        match cell.hear(bytes) {
            None => Heard::Taken { number },
            Some(why) => {
                self.failed = true;
                Heard::Bad { number, why }
            }
        }
    }

    /// The child wrote more bytes than a line may have. Its request was sent and isn't answered.
    /// Answers the number of its ask; the session has failed.
    pub fn too_long(&mut self, child: u8) -> u32
        requires working { self.old.failed ≡ false }
        requires awaited { IsAwaited self.old.slots child }
        ensures number { result ≡ number_at self.old.slots child }
        ensures after { self.new ≡ after_failure self.old }
        ensures kept { (task : AnyTask) → IsSession task self.old → IsSession task self.new }
    {
        let Some(place) = place_of(self.round.cells.as_slice(), child) else {
            unreachable!();
        };
        self.failed = true;
        self.round.cells[place].number()
    }

    /// Closes the round, each request of which is answered: its requests are put behind the
    /// transcript, and then their answers in the same order. Of a list of asks whose front was the
    /// round, those behind it are due still, with the same turns.
    pub fn close_round(&mut self)
        requires working { self.old.failed ≡ false }
        requires open { self.old.is_open ≡ true }
        requires answered { all_answered self.old.slots ≡ true }
        ensures after { self.new ≡ after_close self.old }
        ensures kept { (task : AnyTask) → IsSession task self.old → IsSession task self.new }
        ensures rest { (task : AnyTask) (dues : List AnyDue) (count : ℕ) → IsSession task self.old
            → self.old.instances ≡ due_instances (take count dues)
            → AreReady task self.old.entries dues
            → AreReady task self.new.entries (drop count dues) }
    {
        let round = mem::replace(&mut self.round, Round::empty(self.alloc));
        let Round {
            mut asks,
            mut instances,
            cells,
        } = round;
        let _ = self.entries.append(&mut asks);
        let _ = self.knowledge.asked.append(&mut instances);
        put_answers(&mut self.entries, cells);
        self.is_open = false;
    }

    /// Learns what the answers of the closed rounds certify and tell: what is known and noted is
    /// then what the whole transcript certifies and tells. Fails where the session has failed, and
    /// leaves all as it was then, and where memory is wanting: then the session has failed, and a
    /// part of what the answers certify and tell may be known and noted, and nothing else.
    pub fn learn(&mut self, task: &Task) -> Result<(), CoreFault>
        requires session { IsSession task.now self.old }
        ensures learnt { OnOk result (self.new ≡ after_learn task.now self.old) }
        ensures working { OnOk result (self.old.failed ≡ false) }
        ensures err { OnErr result (self.new
            ≡ with_learnt self.old self.new.known self.new.notes self.old.learnt true) }
        ensures part { OnErr result (self.old.failed ≡ false → LiesBetween self.old.known
            self.new.known (known_of task.now self.old.entries)) }
        ensures notes { OnErr result (self.old.failed ≡ false → IsBetween self.old.notes
            self.new.notes (notes_of task.now self.old.entries)) }
        ensures failed { IfErr result (λ fault. fault ≡ Failed → self.new ≡ self.old) }
        ensures fault { IfErr result (HasSessionCause self.old) }
        ensures kept { IsSession task.now self.new }
    {
        if self.failed {
            return Err(CoreFault::Failed);
        }
        let entries = self.entries.as_slice();
        let learnt = self.knowledge.learn(self.alloc, task, entries, self.learnt);
        match learnt {
            Ok(()) => {
                self.learnt = self.entries.len();
                Ok(())
            }
            Err(_) => {
                self.failed = true;
                Err(CoreFault::Memory)
            }
        }
    }

    /// Puts an entry behind the transcript that is neither a request nor an answer. No round is
    /// open. Fails only where memory is wanting, and leaves all as it was then.
    pub fn mark(&mut self, entry: Entry) -> Result<(), AllocError>
        requires working { self.old.failed ≡ false }
        requires closed { self.old.is_open ≡ false }
        requires mark { is_mark entry ≡ true }
        ensures ok { OnOk result (self.new
            ≡ after_mark self.old entry
            (if self.old.learnt == length self.old.entries then self.old.learnt + 1 else
            self.old.learnt)) }
        ensures err { OnErr result (self.new ≡ self.old) }
        ensures kept { (task : AnyTask) → IsSession task self.old → IsSession task self.new }
    {
        let is_learnt = self.learnt == self.entries.len();
        self.entries.push(entry)?;
        if is_learnt {
            self.learnt += 1;
        }
        Ok(())
    }

    /// The asks that are due after the transcript, all of whose answers are learnt. No round is
    /// open.
    pub fn due(&self, task: &Task) -> Result<Vec<Due>, QueueFault>
        requires session { IsSession task.now self.now }
        requires working { self.now.failed ≡ false }
        requires learnt { IsLearnt self.now }
        ensures due { IfOk result (λ dues. level.AreDueInTurn task.now
            (known_of task.now self.now.entries) (notes_of task.now self.now.entries) dues.items) }
        ensures ready { IfOk result (λ dues. AreReady task.now self.now.entries dues.items) }
        ensures fault { IfErr result
            (level.HasLevelCause task.now (known_of task.now self.now.entries)
            (notes_of task.now self.now.entries)) }
    {
        self.knowledge.queue.next_level(task, &self.knowledge.facts)
    }

    /// The transcript.
    pub fn entries(&self) -> &[Entry]
        ensures { result.now ≡ self.now.entries }
    {
        self.entries.as_slice()
    }

    /// What is known.
    pub fn facts(&self) -> &Facts
        ensures { result.now.known ≡ self.now.known }
    {
        &self.knowledge.facts
    }

    /// What the instances were told.
    pub fn queue(&self) -> &Queue
        ensures { result.now ≡ self.now.notes }
    {
        &self.knowledge.queue
    }

    /// How many requests were made, those of the open round left out.
    pub fn asks(&self) -> u32
        ensures { result ≡ length self.now.asked }
    {
        self.knowledge.asked.len() as u32
    }

    /// Whether a line was no answer or too long, or a `learn` found no memory.
    pub fn failed(&self) -> bool
        ensures { result ≡ self.now.failed }
    {
        self.failed
    }
}
