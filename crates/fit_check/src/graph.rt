//! Graphs without cycles.
ghost use Rattle.std.specs.Prelude.{◌≡◌, ℕ, ◌<◌, ◌≤◌, ◌↔◌, nat_le, true, false, IsTrue, IfOk, length, slice_index};
ghost use Rattle.std.specs.List.{list_all};
ghost use Rattle.fit_check.specs.Cycles.{IsAcyclic, IsSettled, IsStill, work_left};

use std::alloc::{AllocError, Global};

/// A graph over the numbers below its size.
pub(crate) trait Graph {
    ghost use Rattle.std.specs.Prelude.{ℕ, Bool, ◌≡◌, ◌<◌, true};

    ghost size: { Self → ℕ };

    ghost edge: { Self → ℕ → ℕ → Bool };

    /// How many nodes it has.
    fn len(&self) -> usize
        ensures { result ≡ size self.now };

    /// Whether an edge leads from the first to the second, both of which are nodes.
    fn leads(&self, from: usize, to: usize) -> bool
        requires from { from < size self.now }
        requires to { to < size self.now }
        ensures { result ≡ edge self.now from to };

    /// Edges are between nodes.
    ghost within: { (graph : Self) (from to : ℕ) → edge graph from to ≡ true
        → (from < size graph) × (to < size graph) };
}

/// The next node from where it stands to which an edge leads and which isn't done, or the size
/// where there is none.
fn next_open<G: Graph>(graph: &G, next: &[usize], from: usize) -> usize
    requires long { length next.now ≡ G.size graph.now }
    requires node { from < G.size graph.now }
    requires small { slice_index next.now from ≤ G.size graph.now }
    ensures on { slice_index next.now from ≤ result }
    ensures within { result ≤ G.size graph.now }
    ensures passed { (k : ℕ) → slice_index next.now from ≤ k → k < result → G.edge graph.now from k
        ≡ true → G.size graph.now ≤ slice_index next.now k }
    ensures open { result < G.size graph.now → (G.edge graph.now from result ≡ true)
        × (slice_index next.now result < G.size graph.now) }
{
    let size = next.len();
    for to in next[from]..size {
        if next[to] < size && graph.leads(from, to) {
            return to;
        }
    }
    size
}

/// Moves each node on once, and answers whether one moved.
fn advance<G: Graph>(graph: &G, next: &mut [usize]) -> bool
    requires { IsSettled (G.edge graph.now) (G.size graph.now) next.old }
    ensures settled { IsSettled (G.edge graph.now) (G.size graph.now) next.new }
    ensures moved { IsTrue result → work_left (G.size graph.now) next.new < work_left
        (G.size graph.now) next.old }
    ensures still { result ≡ false → IsStill (G.edge graph.now) (G.size graph.now) next.new }
{
    let mut moved = false;
    for from in 0..next.len() {
        let to = next_open(graph, next, from);
        if next[from] < to {
            next[from] = to;
            moved = true;
        }
    }
    moved
}

/// Whether all nodes are done.
fn are_done(next: &[usize]) -> bool
    ensures { result ≡ list_all (λ n. nat_le (length next.now) n) next.now }
{
    let size = next.len();
    next.iter().all(|node| size <= *node)
}

/// Moves the nodes on until none moves, and answers whether the graph has no cycle.
fn is_clear<G: Graph>(graph: &G, next: &mut [usize]) -> bool
    requires { IsSettled (G.edge graph.now) (G.size graph.now) next.old }
    ensures { IsTrue result ↔ IsAcyclic (G.edge graph.now) }
{
    while advance(graph, next) {}
    are_done(next)
}

/// Whether no node is reached from itself. It takes time that grows with the square of the size,
/// and fails only where memory is wanting.
pub(crate) fn is_acyclic<G: Graph>(alloc: Global, graph: &G) -> Result<bool, AllocError>
    ensures { IfOk result (λ acyclic. IsTrue acyclic ↔ IsAcyclic (G.edge graph.now)) }
{
    let mut next = vec![in alloc; 0usize; graph.len()]?;
    Ok(is_clear(graph, next.as_mut_slice()))
}
