//! Rules.
use crate::lists::{Lists, number};
use std::alloc::{AllocError, Global};

/// The most facts, rules, conditions and effects together for which there is room.
pub(crate) const MOST_PARTS: usize = 4_000_000;

/// How many facts a rule still lacks, and what those that it has cost together with the rule
/// itself.
#[derive(Clone, Copy, Debug)]
pub(crate) struct Open {
    pub(crate) left: u32,
    pub(crate) sum: u32,
}

/// Rules: facts, by their numbers, that give others at a cost.
#[derive(Drop)]
pub(crate) struct Rules {
    /// What each rule needs.
    pub(crate) needs: Lists,
    /// What it gives.
    pub(crate) gives: Lists,
    /// How many facts it needs, and what it costs.
    pub(crate) start: Vec<Open>,
    /// How many facts there are.
    pub(crate) facts: u32,
    /// How many facts, rules, conditions and effects there are.
    parts: usize,
}

impl Rules {
    /// No facts and no rules, which take no memory.
    pub(crate) fn new(alloc: Global) -> Rules {
        Rules {
            needs: Lists::new(alloc),
            gives: Lists::new(alloc),
            start: Vec::new(alloc),
            facts: 0,
            parts: 0,
        }
    }

    /// Whether there are more parts than there is room for.
    pub(crate) fn is_full(&self) -> bool {
        self.parts > MOST_PARTS
    }

    /// Counts as many parts as there is no room for.
    pub(crate) fn fill(&mut self) {
        self.count(MOST_PARTS + 1);
    }

    /// Counts this many more parts.
    pub(crate) fn count(&mut self, parts: usize) {
        self.parts = self.parts.saturating_add(parts);
    }

    /// A new fact.
    pub(crate) fn add_fact(&mut self) -> u32 {
        let fact = self.facts;
        self.facts = fact.saturating_add(1);
        self.count(1);
        fact
    }

    /// How many rules there are.
    pub(crate) fn len(&self) -> usize {
        self.needs.len()
    }

    /// Adds a rule, if there is room. Fails only where memory is wanting.
    pub(crate) fn add(
        &mut self,
        cost: u32,
        needs: &[u32],
        gives: &[u32],
    ) -> Result<(), AllocError> {
        self.count(1);
        self.count(needs.len());
        self.count(gives.len());
        if self.is_full() {
            return Ok(());
        }
        self.needs.push(needs)?;
        self.gives.push(gives)?;
        self.start.push(Open {
            left: number(needs.len()),
            sum: cost,
        })?;
        Ok(())
    }

    /// Leaves out what rules give that no rule needs, but for this fact. Fails only where memory is
    /// wanting.
    pub(crate) fn trim(&mut self, alloc: Global, goal: Option<u32>) -> Result<(), AllocError> {
        let mut is_needed: Vec<bool> = Vec::new(alloc);
        is_needed.resize(self.facts as usize, false)?;
        for fact in self.needs.all() {
            mark(&mut is_needed, *fact);
        }
        if let Some(fact) = goal {
            mark(&mut is_needed, fact);
        }
        self.gives = self.gives.kept(alloc, is_needed.as_slice())?;
        Ok(())
    }

    /// The rules that need nothing. Fails only where memory is wanting.
    pub(crate) fn free(&self, alloc: Global) -> Result<Vec<u32>, AllocError> {
        let mut free = Vec::new(alloc);
        for (rule, open) in self.start.as_slice().iter().enumerate() {
            if open.left == 0 {
                free.push(number(rule))?;
            }
        }
        Ok(free)
    }

    /// The rule that gives the fact, where one alone does.
    pub(crate) fn lone_giver(&self, fact: u32) -> Option<u32> {
        let mut lone = None;
        for rule in 0..self.gives.len() {
            if self.gives.row(rule).contains(&fact) {
                if lone.is_some() {
                    return None;
                }
                lone = Some(number(rule));
            }
        }
        lone
    }

    /// The least that a rule costs which gives something that this one needs, and at most 1. Fails only
    /// where memory is wanting.
    pub(crate) fn least_before(&self, alloc: Global, rule: u32) -> Result<usize, AllocError> {
        let mut is_needed: Vec<bool> = Vec::new(alloc);
        is_needed.resize(self.facts as usize, false)?;
        for fact in self.needs.row(rule as usize) {
            mark(&mut is_needed, *fact);
        }
        let gives = self.gives.kept(alloc, is_needed.as_slice())?;
        for (rule, open) in self.start.as_slice().iter().enumerate() {
            if open.sum == 0 && !gives.row(rule).is_empty() {
                return Ok(0);
            }
        }
        Ok(1)
    }

    /// For each fact the rules that need it. Fails only where memory is wanting.
    pub(crate) fn needed_by(&self, alloc: Global) -> Result<Lists, AllocError> {
        self.needs.inverse(alloc, self.facts as usize)
    }
}

/// Says that the fact is needed.
fn mark(is_needed: &mut Vec<bool>, fact: u32) {
    if let Some(is) = is_needed.get_mut(fact as usize) {
        *is = true;
    }
}
