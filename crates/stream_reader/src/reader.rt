//! Stream files, from trees.
ghost use Rattle.std.specs.Prelude.{IfOk};
ghost use Rattle.sexpr_text.specs.Trees.{tree};
ghost use Rattle.task_model.specs.Fit.{IsFitDomain};
ghost use Rattle.name_tables.specs.Sizes.{IsBoundedTree};
ghost use Rattle.stream_reader.specs.Fitness.{AreFitOver};
ghost use Rattle.stream_reader.specs.Reading as specs;

use crate::cycles::check_acyclic;
use crate::names::check_plain;
use crate::streams::streams_of;
use crate::tables::stream_vocabulary;
use form_reader::{Fault, InputFault, TextKind, check_form};
use name_tables::body_of;
use sexpr_text::Tree;
use std::alloc::{AllocError, Global};
use task_model::{Domain, Seq, Stream};

/// The streams, or the name fault that is answered. Fails only where memory is wanting.
fn read_named(
    alloc: Global,
    domain: &Domain,
    text: &Tree,
) -> Result<Result<Seq<Stream>, Fault>, AllocError>
    ensures { IfOk result (λ r. specs.StreamsReadNamed domain.now (tree text.now) r) }
{
    let body = body_of(text);
    let names = stream_vocabulary(alloc, domain)?;
    if let Some(fault) = check_plain(alloc, &names, domain.roles.as_slice(), body)? {
        return Ok(Err(fault));
    }
    let streams = streams_of(alloc, &names, body)?;
    match check_acyclic(alloc, domain, streams.as_slice(), body)? {
        Some(fault) => Ok(Err(fault)),
        None => Ok(Ok(Seq::from_vec(streams))),
    }
}

/// The streams, or the fault that is answered.
fn read(alloc: Global, domain: &Domain, text: &Tree) -> Result<Seq<Stream>, InputFault>
    ensures { specs.StreamsRead domain.now (tree text.now) result }
{
    if let Some(Fault { place, kind }) = check_form(TextKind::Streams, text) {
        return Err(InputFault::At { place, kind });
    }
    match read_named(alloc, domain, text)? {
        Ok(streams) => Ok(streams),
        Err(Fault { place, kind }) => Err(InputFault::At { place, kind }),
    }
}

/// Reads the streams of a domain from the tree of their text.
///
/// The forms are those of this project's profile of PDDLStream (2020), with cost streams. Names are
/// looked up among the domain's: its types, predicates, functions and constants.
///
/// # Errors
///
/// - `At`: the text has a fault. Of its form faults the one with the least place is answered, and
///   at one place `Shape` last; where it has none, of its name faults the one with the least place,
///   and at one place the one of the smallest number. `StreamCycle` is answered only where there is
///   no other fault.
/// - `Memory`: memory ran out, which says nothing of the text.
pub fn read_streams(alloc: Global, domain: &Domain, text: &Tree) -> Result<Seq<Stream>, InputFault>
    ensures reads { specs.StreamsRead domain.now (tree text.now) result }
    // Over a fit domain, the streams of a tree as texts of at most 4 MiB give it are fit.
    ensures fit { IfOk result (λ streams. IsFitDomain domain.now → IsBoundedTree (tree text.now)
        → AreFitOver domain.now streams) }
{
    read(alloc, domain, text)
}
