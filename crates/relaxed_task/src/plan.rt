//! Relaxed plans.
use crate::costs::Costs;
use std::alloc::{AllocError, Global};

/// Says that the one with this number was met in this turn, and answers whether it wasn't before.
fn meet(met: &mut Vec<u32>, number: u32, turn: u32) -> bool {
    match met.get_mut(number as usize) {
        Some(last) => {
            let is_new = *last != turn;
            *last = turn;
            is_new
        }
        None => false,
    }
}

/// The relaxed plan that was found last (Hoffmann and Nebel 2001): from the goal back along the rule
/// that gave each fact for what it costs (Keyder and Geffner 2008). It takes its room when it is
/// made.
#[derive(Drop)]
pub(crate) struct RelaxedSteps {
    /// In which turn each rule was met last.
    rules: Vec<u32>,
    /// In which turn each fact was.
    facts: Vec<u32>,
    /// In which turn each rule was last a step that can be taken at once.
    wanted: Vec<u32>,
    /// The facts that are still to be looked at, `left` of them.
    stack: Vec<u32>,
    left: usize,
    turn: u32,
    count: u32,
}

impl RelaxedSteps {
    /// For no rules, which takes no memory.
    pub(crate) fn none(alloc: Global) -> RelaxedSteps {
        RelaxedSteps {
            rules: Vec::new(alloc),
            facts: Vec::new(alloc),
            wanted: Vec::new(alloc),
            stack: Vec::new(alloc),
            left: 0,
            turn: 0,
            count: 0,
        }
    }

    /// Takes room for plans by so many rules over so many facts. Fails only where memory is wanting.
    pub(crate) fn make_room(&mut self, rules: usize, facts: usize) -> Result<(), AllocError> {
        self.rules.resize(rules, 0)?;
        self.wanted.resize(rules, 0)?;
        self.facts.resize(facts, 0)?;
        self.stack.resize(facts, 0)
    }

    /// Begins anew, with no steps.
    pub(crate) fn clear(&mut self) {
        self.turn = self.turn.saturating_add(1);
        self.left = 0;
        self.count = 0;
    }

    /// Finds the steps that give the fact, and answers how many there are.
    pub(crate) fn find(&mut self, costs: &Costs, goal: u32) -> u32 {
        self.clear();
        self.push(costs, goal);
        for _ in 0..self.stack.len() {
            let Some(fact) = self.pop() else {
                break;
            };
            if let Some(rule) = costs.giver(fact) {
                self.take(costs, rule);
            }
        }
        self.count
    }

    /// Puts in the rule with all that it needs, unless it is there.
    fn take(&mut self, costs: &Costs, rule: u32) {
        if !meet(&mut self.rules, rule, self.turn) {
            return;
        }
        if costs.own_cost(rule) > 0 {
            self.count = self.count.saturating_add(1);
            if costs.full_cost(rule) == costs.own_cost(rule) {
                meet(&mut self.wanted, rule, self.turn);
            }
        }
        for fact in costs.needs(rule) {
            self.push(costs, *fact);
        }
    }

    /// Puts a fact on the stack that has to be given and wasn't there yet.
    fn push(&mut self, costs: &Costs, fact: u32) {
        if costs.cost(fact) > 0 && meet(&mut self.facts, fact, self.turn) {
            if let Some(place) = self.stack.get_mut(self.left) {
                *place = fact;
                self.left = self.left.saturating_add(1);
            }
        }
    }

    /// Takes the last fact from the stack.
    fn pop(&mut self) -> Option<u32> {
        let last = self.left.checked_sub(1)?;
        self.left = last;
        self.stack.get(last).copied()
    }

    /// Whether the rule is one of the steps of the plan that can be taken at once.
    pub(crate) fn wants(&self, rule: u32) -> bool {
        self.wanted.get(rule as usize).copied() == Some(self.turn)
    }
}
