//! The streams that lead to themselves.
ghost use Rattle.std.specs.Prelude.{◌≡◌, ◌++◌, IfOk, OnOk};
ghost use Rattle.sexpr_text.specs.Trees.{trees};
ghost use Rattle.stream_reader.specs.Cycles as specs;
ghost use Rattle.stream_reader.specs.Reading.{AnswersAcyclic};

use crate::tables::kind_of;
use form_reader::{Fault, InputKind, Keyed};
use name_tables::{Candidate, check_cycles, next, number};
use sexpr_text::{Front, Node, front_of};
use std::alloc::{AllocError, Global};
use task_model::{Domain, Seq, Stream, stream_leads};

/// Adds the number of the second stream if the first leads to it in one step.
fn add_next(
    numbers: &mut Vec<u32>,
    domain: &Domain,
    first: &Stream,
    second: &Stream,
    place: usize,
) -> Result<(), AllocError>
    ensures { OnOk result (numbers.new.items ≡ numbers.old.items
        ++ specs.next_one domain.now first.now second.now place) }
{
    if stream_leads(domain, first, second) {
        numbers.push(number(place)?)?;
    }
    Ok(())
}

/// The numbers of the streams to which one leads in one step. Fails only where memory is wanting.
fn next_of(
    alloc: Global,
    domain: &Domain,
    first: &Stream,
    all: &[Stream],
) -> Result<Seq<u32>, AllocError>
    ensures { IfOk result (λ numbers. numbers ≡ specs.next_streams domain.now first.now 0 all.now) }
{
    let mut numbers = Vec::new(alloc);
    for (place, second) in all.iter().enumerate() {
        add_next(&mut numbers, domain, first, second, place)?;
    }
    Ok(Seq::from_vec(numbers))
}

/// To which streams each stream leads in one step. Fails only where memory is wanting.
fn edges_of(alloc: Global, domain: &Domain, all: &[Stream]) -> Result<Vec<Seq<u32>>, AllocError>
    ensures { IfOk result (λ edges. edges.items ≡ specs.edges_of domain.now all.now) }
{
    let mut edges = Vec::new(alloc);
    for stream in all {
        edges.push(next_of(alloc, domain, stream, all)?)?;
    }
    Ok(edges)
}

/// Whether there is a kind.
fn is_there(kind: Option<Keyed>) -> bool
    ensures { result ≡ specs.is_there kind }
{
    kind.is_some()
}

/// The streams of a text by their numbers, with their places. Fails only where memory is wanting.
fn candidates_of(alloc: Global, items: &[Node]) -> Result<Vec<Candidate>, AllocError>
    ensures { IfOk result (λ list. list.items ≡ specs.candidates_of 0 (trees items.now)) }
{
    let mut list = Vec::new(alloc);
    let mut left = items;
    let mut count = 0;
    'items: loop {
        match front_of(left) {
            Front::End => return Ok(list),
            Front::Word { rest, .. } => left = rest,
            Front::List { items, place, rest } => {
                if is_there(kind_of(items)) {
                    let node = number(count)?;
                    list.push(Candidate { node, place })?;
                    count = next(count)?;
                }
                left = rest;
            }
        }
    }
}

/// The answered one of the faults of streams that lead to themselves, of these streams in this
/// text. Fails only where memory is wanting.
pub(crate) fn check_acyclic(
    alloc: Global,
    domain: &Domain,
    streams: &[Stream],
    body: &[Node],
) -> Result<Option<Fault>, AllocError>
    ensures { IfOk result (λ f. AnswersAcyclic domain.now streams.now (trees body.now) f) }
{
    let edges = edges_of(alloc, domain, streams)?;
    let candidates = candidates_of(alloc, body)?;
    check_cycles(
        alloc,
        InputKind::StreamCycle,
        edges.as_slice(),
        candidates.as_slice(),
        None,
    )
}
