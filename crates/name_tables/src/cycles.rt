//! The faults of numbers that lead back to themselves.
ghost use Rattle.std.specs.Prelude.{◌≡◌, IfOk};
ghost use Rattle.name_tables.specs.Cycles as specs;

use crate::graph::is_cyclic;
use form_reader::{Fault, InputKind, sooner};
use std::alloc::{AllocError, Global};
use task_model::Seq;

/// A number that may be on a cycle, and the place of the fault that it has then.
#[derive(Clone, Copy, Debug, PartialEq, Eq)]
pub struct Candidate {
    /// The number.
    pub node: u32,
    /// The place of the fault.
    pub place: usize,
}

/// Adds the fault if it is there.
fn with_fault(there: bool, fault: Fault, so_far: Option<Fault>) -> Option<Fault>
    ensures { result ≡ specs.with_fault there fault so_far }
{
    if there { sooner(so_far, fault) } else { so_far }
}

/// Adds a fault of this kind if the candidate is on a cycle. Fails only where memory is wanting.
fn check_cycle(
    alloc: Global,
    kind: InputKind,
    edges: &[Seq<u32>],
    candidate: Candidate,
    so_far: Option<Fault>,
) -> Result<Option<Fault>, AllocError>
    ensures { IfOk result (λ f. specs.AnswersCycle kind edges.now candidate so_far f) }
{
    let cyclic = is_cyclic(alloc, edges, candidate.node)?;
    Ok(with_fault(
        cyclic,
        Fault {
            place: candidate.place,
            kind,
        },
        so_far,
    ))
}

/// Adds a fault of this kind for each candidate that is on a cycle. Fails only where memory is
/// wanting.
pub fn check_cycles(
    alloc: Global,
    kind: InputKind,
    edges: &[Seq<u32>],
    candidates: &[Candidate],
    so_far: Option<Fault>,
) -> Result<Option<Fault>, AllocError>
    ensures { IfOk result (λ f. specs.AnswersCycles kind edges.now candidates.now so_far f) }
{
    let mut found = so_far;
    for candidate in candidates {
        found = check_cycle(alloc, kind, edges, *candidate, found)?;
    }
    Ok(found)
}
