//! What facts cost.
ghost use Rattle.std.specs.Prelude.{◌≡◌, ◌≤◌, ◌↔◌, IsTrue};
ghost use Rattle.relaxed_task.specs.declared.rules.TheConstants.{MOST_PARTS};

use crate::lists::Lists;
use crate::queue::Queue;
use crate::rules::{MOST_PARTS, Open, Rules};
use std::alloc::{AllocError, Global};
use std::mem;

/// What a fact costs that wasn't reached.
pub(crate) const UNREACHED: u32 = u32::MAX;

/// No rule.
const NONE: u32 = u32::MAX;

/// What a fact costs as far as was seen, the rule that gave it for that, and whether its rules were
/// told.
#[derive(Clone, Copy, Debug)]
struct Cost {
    cost: u32,
    giver: u32,
    is_taken: bool,
    /// Whether it doesn't hold at first, whatever is said afterwards.
    is_barred: bool,
}

/// A fact that wasn't reached yet.
const UNSEEN: Cost = Cost {
    cost: UNREACHED,
    giver: NONE,
    is_taken: false,
    is_barred: false,
};

/// What was found so far.
#[derive(Drop)]
struct Board {
    /// The fact that a rule gives where it gives just one.
    only: Vec<u32>,
    costs: Vec<Cost>,
    queue: Queue,
}

impl Board {
    /// Takes room for these rules. Fails only where memory is wanting.
    fn make_room(&mut self, alloc: Global, rules: &Rules) -> Result<(), AllocError> {
        self.only = rules.gives.singles(alloc, NONE)?;
        self.costs.resize(rules.facts as usize, UNSEEN)?;
        let times = rules.gives.total().saturating_add(rules.facts as usize);
        self.queue.make_room(rules.len(), times)
    }

    /// Notes that the fact can be had for this cost by this rule.
    fn offer(&mut self, fact: u32, cost: u32, giver: u32) {
        if let Some(known) = self.costs.get_mut(fact as usize) {
            if cost < known.cost {
                known.cost = cost;
                known.giver = giver;
                self.queue.push(fact, cost);
            }
        }
    }

    /// Offers what the rule gives, which costs so much with all that it needs.
    fn give(&mut self, gives: &Lists, rule: u32, cost: u32) {
        let only = self.only.as_slice().get(rule as usize).copied();
        match only.unwrap_or(NONE) {
            NONE => self.give_row(gives, rule, cost),
            fact => self.offer(fact, cost, rule),
        }
    }

    /// Offers all facts in the row of what the rule gives.
    fn give_row(&mut self, gives: &Lists, rule: u32, cost: u32) {
        for fact in gives.row(rule as usize) {
            self.offer(*fact, cost, rule);
        }
    }

    /// What the fact costs, if its rules weren't told yet. They count as told then.
    fn take(&mut self, fact: u32) -> Option<u32> {
        let known = self.costs.get_mut(fact as usize)?;
        if known.is_taken {
            return None;
        }
        known.is_taken = true;
        Some(known.cost)
    }

    /// What the fact costs, as far as was seen.
    fn cost(&self, fact: u32) -> u32 {
        match self.costs.as_slice().get(fact as usize) {
            Some(known) => known.cost,
            None => UNREACHED,
        }
    }
}

/// The rule lacks one fact less, which costs so much. Answers what it costs together with all that it
/// needs, where it lacks nothing more.
fn lower(open: &mut [Open], rule: u32, cost: u32) -> Option<u32> {
    let open = open.get_mut(rule as usize)?;
    let sum = open.sum.saturating_add(cost);
    let left = open.left.wrapping_sub(1);
    *open = Open { left, sum };
    if left == 0 {
        Some(sum.min(UNREACHED - 1))
    } else {
        None
    }
}

/// What the rule costs together with all that it needs, as far as this says.
fn sum_at(open: &[Open], rule: u32) -> u32 {
    match open.get(rule as usize) {
        Some(open) => open.sum,
        None => 0,
    }
}

/// What facts cost by rules (Bonet and Geffner 2001): nothing where they hold at first, else the
/// least over the rules that give them of what the rule and all that it needs cost together. All
/// room is taken when it is made.
#[derive(Drop)]
pub(crate) struct Costs {
    needs: Lists,
    gives: Lists,
    needed_by: Lists,
    start: Vec<Open>,
    /// The rules that need nothing.
    free: Vec<u32>,
    /// The rule that gives the goal, where one alone does.
    lone: Option<u32>,
    /// The least that a rule costs which gives something that this one needs, and at most 1.
    ahead: usize,
    open: Vec<Open>,
    /// What facts cost before one holds.
    unseen: Vec<Cost>,
    board: Board,
}

impl Costs {
    ghost use Rattle.relaxed_task.specs.Room.{part_count};

    /// Over no rules, which takes no memory.
    pub(crate) fn none(alloc: Global) -> Costs
        ensures { part_count result ≡ 0 }
    {
        let board = Board {
            only: Vec::new(alloc),
            costs: Vec::new(alloc),
            queue: Queue::none(alloc),
        };
        Costs {
            needs: Lists::new(alloc),
            gives: Lists::new(alloc),
            needed_by: Lists::new(alloc),
            start: Vec::new(alloc),
            free: Vec::new(alloc),
            lone: None,
            ahead: 0,
            open: Vec::new(alloc),
            unseen: Vec::new(alloc),
            board,
        }
    }

    /// Takes these rules in place of its own, and what is the goal, if a fact is. Fails only where
    /// memory is wanting.
    pub(crate) fn take_rules(
        &mut self,
        alloc: Global,
        rules: &mut Rules,
        goal: Option<u32>,
    ) -> Result<(), AllocError> {
        self.lone = goal.and_then(|fact| rules.lone_giver(fact));
        self.ahead = match self.lone {
            Some(rule) => rules.least_before(alloc, rule)?,
            None => 0,
        };
        self.needed_by = rules.needed_by(alloc)?;
        self.free = rules.free(alloc)?;
        self.open = Vec::from_slice(alloc, rules.start.as_slice())?;
        self.unseen.resize(rules.facts as usize, UNSEEN)?;
        self.board.make_room(alloc, rules)?;
        self.needs = mem::replace(&mut rules.needs, Lists::new(alloc));
        self.gives = mem::replace(&mut rules.gives, Lists::new(alloc));
        self.start = mem::replace(&mut rules.start, Vec::new(alloc));
        Ok(())
    }

    /// Begins anew: no fact holds.
    pub(crate) fn clear(&mut self) {
        self.board.queue.clear();
        let unseen = self.unseen.as_slice();
        let costs = self.board.costs.as_mut_slice();
        if costs.len() == unseen.len() {
            costs.copy_from_slice(unseen);
        }
        let start = self.start.as_slice();
        let open = self.open.as_mut_slice();
        if open.len() == start.len() {
            open.copy_from_slice(start);
        }
    }

    /// Says that the fact doesn't hold at first, whatever is said afterwards.
    pub(crate) fn bar(&mut self, fact: u32) {
        if let Some(known) = self.board.costs.get_mut(fact as usize) {
            known.is_barred = true;
        }
    }

    /// Says that the fact holds at first.
    pub(crate) fn hold(&mut self, fact: u32) {
        if self
            .board
            .costs
            .get(fact as usize)
            .is_some_and(|known| !known.is_barred)
        {
            self.board.offer(fact, 0, NONE);
        }
    }

    /// Whether there is room for the facts, rules, conditions and effects.
    pub(crate) fn has_room(&self) -> bool
        ensures { IsTrue result ↔ (part_count self.now ≤ MOST_PARTS) }
    {
        let conditions = self.needed_by.total().saturating_add(self.needed_by.len());
        let effects = self.gives.total().saturating_add(self.gives.len());
        conditions.saturating_add(effects) <= MOST_PARTS
    }

    /// What the fact costs, as far as was seen.
    pub(crate) fn cost(&self, fact: u32) -> u32 {
        self.board.cost(fact)
    }

    /// The rule that gave the fact for what it costs, if one did.
    pub(crate) fn giver(&self, fact: u32) -> Option<u32> {
        let known = self.board.costs.as_slice().get(fact as usize)?;
        if known.giver == NONE {
            None
        } else {
            Some(known.giver)
        }
    }

    /// Whether a rule needs the fact.
    pub(crate) fn is_needed(&self, fact: u32) -> bool {
        !self.needed_by.row(fact as usize).is_empty()
    }

    /// What the rule needs.
    pub(crate) fn needs(&self, rule: u32) -> &[u32] {
        self.needs.row(rule as usize)
    }

    /// What the rule costs by itself: 1 where it is a step, else 0.
    pub(crate) fn own_cost(&self, rule: u32) -> u32 {
        sum_at(self.start.as_slice(), rule)
    }

    /// What the rule costs with all that it needs, where that was reached.
    pub(crate) fn full_cost(&self, rule: u32) -> u32 {
        match self.open.as_slice().get(rule as usize) {
            Some(open) => open.sum,
            None => UNREACHED,
        }
    }

    /// How many rules there are.
    pub(crate) fn rule_count(&self) -> usize {
        self.start.len()
    }

    /// How many facts there are.
    pub(crate) fn fact_count(&self) -> usize {
        self.board.costs.len()
    }

    /// Whether all that the rule needs was reached.
    pub(crate) fn is_ready(&self, rule: usize) -> bool {
        self.open
            .as_slice()
            .get(rule)
            .is_some_and(|open| open.left == 0)
    }

    /// Gives what the rules give that need nothing.
    fn give_free(&mut self) {
        for rule in self.free.as_slice() {
            let cost = sum_at(self.start.as_slice(), *rule);
            self.board.give(&self.gives, *rule, cost);
        }
    }

    /// Tells the rules that need the fact what it costs, unless they were told.
    fn tell(&mut self, fact: u32) {
        let Some(cost) = self.board.take(fact) else {
            return;
        };
        let open = self.open.as_mut_slice();
        for rule in self.needed_by.row(fact as usize) {
            if let Some(sum) = lower(open, *rule, cost) {
                self.board.give(&self.gives, *rule, sum);
            }
        }
    }

    /// How many of the first facts that the rule needs cost what they cost for good, where so many do at
    /// least.
    fn settled(&self, rule: u32, count: usize) -> usize {
        let most = self.board.queue.settled(self.ahead);
        let mut count = count;
        for fact in self.needs(rule).iter().skip(count) {
            if self.cost(*fact) as usize > most {
                break;
            }
            count = count.saturating_add(1);
        }
        count
    }

    /// Tells the rule at once what all that it needs costs.
    fn fill(&mut self, rule: u32) {
        let mut sum = self.own_cost(rule);
        for fact in self.needs(rule) {
            sum = sum.saturating_add(self.cost(*fact)).min(UNREACHED - 1);
        }
        if let Some(open) = self.open.get_mut(rule as usize) {
            *open = Open { left: 0, sum };
        }
        self.board.give(&self.gives, rule, sum);
    }

    /// Tells of the facts in the bucket that was come to, and of those that are put into it meanwhile,
    /// and answers whether the goal is one of them, where this is the goal.
    fn tell_bucket(&mut self, goal: Option<u32>) -> bool {
        for _ in 0..self.board.queue.room() {
            let Some(fact) = self.board.queue.pop() else {
                return false;
            };
            if Some(fact) == goal {
                return true;
            }
            self.tell(fact);
        }
        false
    }

    /// Goes through the facts, the cheapest first, until it is known what the goal costs, where this is
    /// the goal, or there are no more.
    pub(crate) fn spread(&mut self, goal: Option<u32>) {
        self.give_free();
        let lone = goal.and(self.lone);
        let mut count: usize = 0;
        for _ in 0..self.board.queue.buckets() {
            if !self.board.queue.advance() {
                return;
            }
            if let Some(rule) = lone {
                count = self.settled(rule, count);
                if count == self.needs(rule).len() {
                    self.fill(rule);
                    return;
                }
            }
            if self.tell_bucket(goal) {
                return;
            }
        }
    }
}
