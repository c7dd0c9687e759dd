//! Conditions as facts and rules.
use crate::facts::AtomFacts;
use crate::rules::Rules;
use indexmap::IndexMap;
use std::alloc::{AllocError, Global};
use std::slice;
use task_model::Atom;

/// What a condition comes to, whose variables have objects.
#[derive(Clone, Copy, PartialEq, Eq, Debug)]
pub(crate) enum Literal {
    /// It is so in each state that is reached.
    Always,
    /// It is so in none.
    Never,
    /// It is so where this fact is there.
    Fact(u32),
}

impl Literal {
    /// What is known to be so or not.
    pub(crate) fn known(is_so: bool) -> Literal {
        if is_so {
            Literal::Always
        } else {
            Literal::Never
        }
    }
}

/// How parts make a whole.
#[derive(Clone, Copy, PartialEq, Eq, Debug)]
pub(crate) enum Joint {
    /// All of them are needed.
    All,
    /// One of them is enough.
    Any,
}

impl Joint {
    /// All where that is so, else any.
    pub(crate) fn all_if(is_all: bool) -> Joint {
        if is_all { Joint::All } else { Joint::Any }
    }

    /// The whole that a part decides alone, if it does.
    pub(crate) fn decided_by(self, part: Literal) -> Option<Literal> {
        match (self, part) {
            (Joint::All, Literal::Never) => Some(Literal::Never),
            (Joint::Any, Literal::Always) => Some(Literal::Always),
            _ => None,
        }
    }
}

/// A derived atom whose items are to be looked at, for its truth or its falsehood, which is this
/// fact.
#[derive(Drop)]
pub(crate) struct Pending {
    pub(crate) atom: Atom,
    pub(crate) wanted: bool,
    pub(crate) fact: u32,
}

/// Facts and rules of a task as far as they were made.
#[derive(Drop)]
pub(crate) struct Net {
    pub(crate) rules: Rules,
    /// The facts of fluent atoms.
    pub(crate) fluents: AtomFacts,
    /// The facts of derived atoms.
    derived: AtomFacts,
    /// The facts of parts of which all are needed.
    alls: IndexMap<Vec<u32>, u32>,
    /// The facts of parts of which one is enough.
    anys: IndexMap<Vec<u32>, u32>,
    pending: Vec<Pending>,
    /// For each step its rule, if it has one.
    pub(crate) steps: Vec<Option<u32>>,
    /// How many steps have rules.
    count: u64,
    /// What these cost together.
    cost: u64,
    /// The goal.
    pub(crate) goal: Literal,
}

impl Net {
    /// No facts and no rules, which take no memory.
    pub(crate) fn new(alloc: Global) -> Net {
        Net {
            rules: Rules::new(alloc),
            fluents: AtomFacts::new(alloc),
            derived: AtomFacts::new(alloc),
            alls: IndexMap::new(alloc),
            anys: IndexMap::new(alloc),
            pending: Vec::new(alloc),
            steps: Vec::new(alloc),
            count: 0,
            cost: 0,
            goal: Literal::Always,
        }
    }

    /// That the fluent atom is true or false, as wanted. Fails only where memory is wanting.
    pub(crate) fn fluent(&mut self, atom: &Atom, wanted: bool) -> Result<u32, AllocError> {
        let numbered = self.fluents.fact(&mut self.rules, atom, wanted)?;
        Ok(numbered.fact)
    }

    /// That the derived atom is true or false, as wanted: its items are to be looked at where that
    /// is new. Fails only where memory is wanting.
    pub(crate) fn derived(&mut self, atom: Atom, wanted: bool) -> Result<u32, AllocError> {
        let numbered = self.derived.fact(&mut self.rules, &atom, wanted)?;
        let fact = numbered.fact;
        if numbered.is_new {
            self.pending.push(Pending { atom, wanted, fact })?;
        }
        Ok(fact)
    }

    /// A derived atom whose items weren't looked at yet.
    pub(crate) fn next(&mut self) -> Option<Pending> {
        self.pending.pop()
    }

    /// Counts a step that costs so much.
    pub(crate) fn count_step(&mut self, cost: u64) {
        self.count = self.count.saturating_add(1);
        self.cost = self.cost.saturating_add(cost);
    }

    /// What a step that has a rule costs, on the average and rounded down, and at least 1.
    pub(crate) fn mean_cost(&self) -> u64 {
        self.cost.checked_div(self.count).unwrap_or(1).max(1)
    }

    /// Leaves out what rules give that nothing needs. Fails only where memory is wanting.
    pub(crate) fn trim(&mut self, alloc: Global) -> Result<(), AllocError> {
        let goal = match self.goal {
            Literal::Fact(fact) => Some(fact),
            Literal::Always | Literal::Never => None,
        };
        self.rules.trim(alloc, goal)
    }

    /// The whole of these facts, which is a fact of its own where there are several. Fails only where
    /// memory is wanting.
    pub(crate) fn whole(&mut self, joint: Joint, parts: Vec<u32>) -> Result<Literal, AllocError> {
        let mut parts = parts;
        parts.sort_unstable();
        parts.dedup();
        let Some(first) = parts.first().copied() else {
            return Ok(Literal::known(joint == Joint::All));
        };
        if parts.len() == 1 {
            return Ok(Literal::Fact(first));
        }
        let known = match joint {
            Joint::All => self.alls.get(&parts).copied(),
            Joint::Any => self.anys.get(&parts).copied(),
        };
        if let Some(fact) = known {
            return Ok(Literal::Fact(fact));
        }
        let fact = self.rules.add_fact();
        self.give(joint, parts.as_slice(), fact)?;
        match joint {
            Joint::All => self.alls.insert(parts, fact)?,
            Joint::Any => self.anys.insert(parts, fact)?,
        };
        Ok(Literal::Fact(fact))
    }

    /// Adds the rules by which the parts give the fact. Fails only where memory is wanting.
    pub(crate) fn give(
        &mut self,
        joint: Joint,
        parts: &[u32],
        fact: u32,
    ) -> Result<(), AllocError> {
        match joint {
            Joint::All => self.rules.add(0, parts, &[fact])?,
            Joint::Any => {
                for part in parts {
                    self.rules.add(0, slice::from_ref(part), &[fact])?;
                }
            }
        }
        Ok(())
    }
}
