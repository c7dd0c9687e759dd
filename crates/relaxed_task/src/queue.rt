//! Facts in the order of what they cost.
use crate::lists::number;
use std::alloc::{AllocError, Global};

/// The most buckets. What costs as much as the last or more lies there.
const MOST_BUCKETS: usize = 65_536;

/// No entry.
const NONE: u32 = u32::MAX;

/// A fact in a bucket, and the entry behind it.
#[derive(Clone, Copy, Debug)]
struct Entry {
    fact: u32,
    next: u32,
}

/// Facts, the cheapest first: a bucket for each cost. It takes its room when it is made.
#[derive(Drop)]
pub(crate) struct Queue {
    /// The first entry of each bucket.
    heads: Vec<u32>,
    entries: Vec<Entry>,
    /// How many entries are used.
    used: usize,
    /// The bucket that was come to. None before it has an entry.
    at: usize,
    /// None behind this one has one.
    last: usize,
}

impl Queue {
    /// A queue without room, which takes no memory.
    pub(crate) fn none(alloc: Global) -> Queue {
        Queue {
            heads: Vec::new(alloc),
            entries: Vec::new(alloc),
            used: 0,
            at: 0,
            last: 0,
        }
    }

    /// Takes all facts out, and room for facts by so many rules, into which they can be put so many times. Fails only where
    /// memory is wanting.
    pub(crate) fn make_room(&mut self, rules: usize, times: usize) -> Result<(), AllocError> {
        self.clear();
        let buckets = rules.saturating_mul(8).saturating_add(64);
        self.heads.resize(buckets.min(MOST_BUCKETS), NONE)?;
        let free = Entry {
            fact: 0,
            next: NONE,
        };
        self.entries.resize(times, free)
    }

    /// How many times facts can be put in.
    pub(crate) fn room(&self) -> usize {
        self.entries.len()
    }

    /// How many buckets there are.
    pub(crate) fn buckets(&self) -> usize {
        self.heads.len()
    }

    /// Takes all facts out.
    pub(crate) fn clear(&mut self) {
        for head in self
            .heads
            .iter_mut()
            .take(self.last.saturating_add(1))
            .skip(self.at)
        {
            *head = NONE;
        }
        self.used = 0;
        self.at = 0;
        self.last = 0;
    }

    /// What a fact costs at most for good, where all rules that give it cost so much by themselves: what
    /// is taken out from now on costs no less than what lies in the bucket that was come to. Nothing
    /// once that is the last, in which facts have no order.
    pub(crate) fn settled(&self, ahead: usize) -> usize {
        if self.at.saturating_add(1) < self.heads.len() {
            self.at.saturating_add(ahead)
        } else {
            0
        }
    }

    /// Puts a fact in that costs so much, no less than the one that was taken out last.
    pub(crate) fn push(&mut self, fact: u32, cost: u32) {
        let bucket = (cost as usize).min(self.heads.len().saturating_sub(1));
        let Some(head) = self.heads.get_mut(bucket) else {
            return;
        };
        if let Some(entry) = self.entries.get_mut(self.used) {
            *entry = Entry { fact, next: *head };
            *head = number(self.used);
            self.used = self.used.saturating_add(1);
            self.last = self.last.max(bucket);
        }
    }

    /// Comes to the first bucket that has an entry, and answers whether there is one.
    pub(crate) fn advance(&mut self) -> bool {
        for bucket in self.at..self.last.saturating_add(1) {
            if self.heads.get(bucket).is_some_and(|head| *head != NONE) {
                self.at = bucket;
                return true;
            }
        }
        false
    }

    /// Takes a fact out of the bucket that was come to.
    pub(crate) fn pop(&mut self) -> Option<u32> {
        let head = self.heads.get_mut(self.at)?;
        let entry = *self.entries.as_slice().get(*head as usize)?;
        *head = entry.next;
        Some(entry.fact)
    }
}
