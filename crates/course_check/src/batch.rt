//! Where in a batch of asks a transcript stands.
ghost use Rattle.transcript_model.specs.declared.limits.TheConstants.{MOST_CALLS};

use instance_queue::Due;
use pools::{Workers, longest_front};
use std::alloc::Global;
use std::marker::Model;
use task_model::Instance;

/// What the last batch of asks, of a level or of a dream, has still to do. It is cut into rounds:
/// all requests of a round are made, and then they are answered in the same order. Between two
/// batches nothing is to do.
#[derive(Drop)]
pub(crate) struct BatchCourse {
    dues: Vec<Due>,
    asked: usize,
    answered: usize,
    round: usize,
    before: u32,
    is_cut: bool,
}

impl Model for BatchCourse {
    ghost use Rattle.course_check.specs.BatchAgendas.{Agenda};

    ghost Value = { Agenda };

    ghost use Rattle.course_check.specs.BatchAgendas.{IsSoundAgenda, shown_agenda};

    ghost view = { shown_agenda };

    ghost invariant = { IsSoundAgenda };
}

impl BatchCourse {
    ghost use Rattle.std.specs.Prelude.{◌≡◌, ◌+◌, ◌-◌, ◌<◌, ◌≤◌, [], length, take, nat_lt, slice_get, option_copied, IfSome, IfNone};
    ghost use Rattle.instance_queue.specs.Level.{due_instances};
    ghost use Rattle.course_check.specs.BatchAgendas.{IsAnswered, Starts, is_over, nothing_to_do, with_asked};
    ghost use Rattle.pools.specs.Pools.{shares_of};

    /// Before the first batch.
    pub(crate) fn new(alloc: Global) -> BatchCourse
        ensures { result ≡ nothing_to_do }
    {
        BatchCourse {
            dues: Vec::new(alloc),
            asked: 0,
            answered: 0,
            round: 0,
            before: 0,
            is_cut: false,
        }
    }

    /// Whether nothing is to do, and calls weren't wanting.
    pub(crate) fn is_between(&self) -> bool
        ensures { result ≡ is_over self.now }
    {
        self.round - self.answered == 0 && !self.is_cut
    }

    /// The instance that is asked next, if a request follows.
    pub(crate) fn next_asked(&self) -> Option<&Instance>
        ensures { option_copied result ≡ slice_get self.now.to_ask 0 }
    {
        if self.asked < self.round {
            Some(&self.dues[self.asked].instance)
        } else {
            None
        }
    }

    /// The number of the request that is answered next, if an answer follows.
    pub(crate) fn next_answered(&self) -> Option<u32>
        ensures some { IfSome result
            (λ n. (n ≡ self.now.next) × (self.now.to_ask ≡ []) × (0 < self.now.answers)) }
        ensures none { IfNone result (¬ ((self.now.to_ask ≡ []) × (0 < self.now.answers))) }
    {
        if self.asked == self.round && self.answered < self.round {
            Some(self.before + self.answered as u32 + 1)
        } else {
            None
        }
    }

    /// Begins a batch over all that is due, after so many requests of so many.
    pub(crate) fn begin(&mut self, pools: &[Workers], mut dues: Vec<Due>, before: u32, calls: u32)
        requires left { before ≤ calls }
        requires few { calls ≤ MOST_CALLS }
        ensures { Starts (shares_of pools.now) (take (calls - before) (due_instances dues.items))
            (before + 1) (nat_lt (calls - before) (length dues.items)) self.new }
    {
        let left = (calls - before) as usize;
        self.is_cut = left < dues.len();
        dues.truncate(left);
        self.round = longest_front(pools, dues.as_slice());
        self.dues = dues;
        self.asked = 0;
        self.answered = 0;
        self.before = before;
    }

    /// Goes on behind the next request.
    pub(crate) fn ask(&mut self)
        requires { 0 < length self.old.to_ask }
        ensures { self.new ≡ with_asked self.old }
    {
        self.asked += 1;
    }

    /// Goes on behind the next answer, and to the next round where that was the last of this one.
    pub(crate) fn answer(&mut self, pools: &[Workers])
        requires asked { self.old.to_ask ≡ [] }
        requires some { 0 < self.old.answers }
        ensures { IsAnswered (shares_of pools.now) self.old self.new }
    {
        self.answered += 1;
        if self.answered == self.round {
            let (_, later) = self.dues.as_slice().split_at(self.round);
            let count = longest_front(pools, later);
            self.round += count;
        }
    }
}
