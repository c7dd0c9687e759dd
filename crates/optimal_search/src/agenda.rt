//! The states that are stored, and those of them that are open, the one of least rank first.
ghost use Rattle.std.specs.Prelude.{◌≡◌, ◌<◌, ◌^◌, ◌∷◌, [], ◌++◌, OnOk, vec_len};
ghost use Rattle.optimal_search.specs.Agenda.{IsAgenda, Lowers, TakesLeast};

use best_first::Link;
use std::alloc::{AllocError, Global};
use std::cmp::Reverse;
use std::collections::BinaryHeap;

/// A state that is stored: it is open, or closed.
#[derive(Drop)]
pub(crate) struct Node {
    /// The least that a way costs that is known to the state.
    pub(crate) cost: u64,
    /// What the estimate says of the state.
    pub(crate) left: u64,
    /// The last step of that way while the state is open, and None once it is closed.
    pub(crate) last: Option<Link>,
}

/// An entry of the queue. The least rank goes first, of equal ones that with the least estimate, and
/// of equal ones the oldest.
#[derive(Clone, Copy, PartialEq, Eq, PartialOrd, Ord, Debug)]
pub(crate) struct Open {
    /// What it costs to come to the state by a way that was known, and the estimate from there.
    rank: u128,
    /// The estimate.
    left: u64,
    /// The state's place.
    place: u32,
}

/// The stored states, each at its place, and a queue of those that are open. It may have several
/// entries of a state, and entries of closed ones, which are passed over.
#[derive(Drop)]
pub(crate) struct Agenda {
    pub(crate) nodes: Vec<Node>,
    queue: BinaryHeap<Reverse<Open>>,
}

impl Agenda {
    /// The agenda without states.
    pub(crate) fn new(alloc: Global) -> Agenda
        ensures agenda { IsAgenda result }
        ensures nodes { result.nodes.items ≡ [] }
    {
        Agenda {
            nodes: Vec::new(alloc),
            queue: BinaryHeap::new(alloc),
        }
    }

    /// Puts the node behind the others. Fails only where memory is wanting.
    pub(crate) fn add(&mut self, node: Node) -> Result<(), AllocError>
        requires agenda { IsAgenda self.old }
        requires few { vec_len self.old.nodes < 2 ^ 32 }
        ensures agenda { OnOk result (IsAgenda self.new) }
        ensures nodes { OnOk result (self.new.nodes.items ≡ self.old.nodes.items ++ node ∷ []) }
    {
        let left = node.left;
        let rank = u128::from(node.cost) + u128::from(left);
        let place = self.nodes.len() as u32;
        self.nodes.push(node)?;
        self.queue.push(Reverse(Open { rank, left, place }))?;
        Ok(())
    }

    /// Makes the link the last of the way that is known to the state at this place, if the state is
    /// open and this way costs less. Fails only where memory is wanting.
    pub(crate) fn lower(&mut self, place: u32, cost: u64, link: Link) -> Result<(), AllocError>
        requires agenda { IsAgenda self.old }
        requires there { place < vec_len self.old.nodes }
        ensures agenda { OnOk result (IsAgenda self.new) }
        ensures nodes { OnOk result (Lowers self.old.nodes.items place cost link
            self.new.nodes.items) }
    {
        let node = &mut self.nodes[place as usize];
        if node.last.is_none() || node.cost <= cost {
            return Ok(());
        }
        node.cost = cost;
        node.last = Some(link);
        let left = node.left;
        let rank = u128::from(cost) + u128::from(left);
        self.queue.push(Reverse(Open { rank, left, place }))?;
        Ok(())
    }

    /// Closes the open state of least rank: its place, and the last step of the way that is known
    /// to it. None where no state is open.
    pub(crate) fn next(&mut self) -> Option<(u32, Link)>
        requires { IsAgenda self.old }
        ensures { TakesLeast self.old self.new result }
    {
        while let Some(Reverse(entry)) = self.queue.pop() {
            if let Some(link) = self.nodes[entry.place as usize].last.take() {
                return Some((entry.place, link));
            }
        }
        None
    }
}
