//! Numbers that lead to numbers.
ghost use Rattle.std.specs.Prelude.{◌≡◌, [], IfOk, OnOk};
ghost use Rattle.name_tables.specs.Graphs as specs;

use indexmap::IndexSet;
use std::alloc::{AllocError, Global};
use task_model::Seq;

/// Adds numbers, each once.
fn add_numbers(seen: &mut IndexSet<u32>, numbers: &[u32]) -> Result<(), AllocError>
    ensures { OnOk result (seen.new.keys ≡ specs.with_numbers seen.old.keys numbers.now) }
{
    for number in numbers {
        let _new = seen.insert(*number)?;
    }
    Ok(())
}

/// What a number leads to in one step.
fn next_of<'a>(edges: &'a [Seq<u32>], number: u32) -> &'a [u32]
    ensures { result.now ≡ specs.next_of edges.now number }
{
    match edges.get(number as usize) {
        Some(next) => next.as_slice(),
        None => &[],
    }
}

/// The numbers to which there is a way from this one, in one step or more, in no order that
/// matters. Each number leads to those in the list at its place. Fails only where memory is
/// wanting.
pub fn reached_from(
    alloc: Global,
    edges: &[Seq<u32>],
    start: u32,
) -> Result<IndexSet<u32>, AllocError>
    ensures { IfOk result (λ reached. specs.AreReached edges.now start reached.keys) }
{
    let mut seen = IndexSet::new(alloc);
    add_numbers(&mut seen, next_of(edges, start))?;
    for done in 0..usize::MAX {
        let Some(number) = seen.get_index(done).copied() else {
            return Ok(seen);
        };
        add_numbers(&mut seen, next_of(edges, number))?;
    }
    Err(AllocError)
}

/// The numbers of a list, ascending, each once. Fails only where memory is wanting.
pub fn ascending(alloc: Global, numbers: &[u32]) -> Result<Vec<u32>, AllocError>
    ensures { IfOk result (λ list. list.items ≡ specs.ascending [] numbers.now) }
{
    let mut list = Vec::from_slice(alloc, numbers)?;
    list.sort_unstable();
    list.dedup();
    Ok(list)
}

/// Whether there is a way from a number back to itself, in one step or more. Fails only where
/// memory is wanting.
pub fn is_cyclic(alloc: Global, edges: &[Seq<u32>], number: u32) -> Result<bool, AllocError>
    ensures { IfOk result (λ cyclic. specs.IsCyclic edges.now number cyclic) }
{
    let reached = reached_from(alloc, edges, number)?;
    Ok(reached.contains(&number))
}
