//! The streams that a stream file spells.
ghost use Rattle.std.specs.Prelude.{◌≡◌, IfOk, OnOk, ◌++◌};
ghost use Rattle.sexpr_text.specs.Trees.{trees};
ghost use Rattle.stream_reader.specs.Streams as specs;

use crate::atoms::patterns_of;
use crate::tables::{kind_of, scopes_of};
use form_reader::{Keyed, head_of, tail_of};
use name_tables::{Scope, Vocabulary, declared_place, named_sorts, terms_of, value_at};
use sexpr_text::{Front, Node, front_of};
use std::alloc::{AllocError, Global};
use task_model::{Name, Seq, Stream, Worth};

/// The function term to which a cost stream gives a value. Fails only where memory is wanting.
fn worth_of(
    alloc: Global,
    names: &Vocabulary,
    inputs: &Scope,
    keyed: Keyed,
    items: &[Node],
) -> Result<Option<Worth>, AllocError>
    ensures { IfOk result (λ worth. worth
        ≡ specs.worth_of names.now inputs.now keyed (trees items.now)) }
{
    match keyed {
        Keyed::Action | Keyed::Stream => Ok(None),
        Keyed::CostStream => {
            let func = declared_place(&names.functions, head_of(items))?;
            let args = terms_of(alloc, &names.objects, inputs, tail_of(items))?;
            Ok(Some(Worth {
                func,
                args: Seq::from_vec(args),
            }))
        }
    }
}

/// The stream of this kind with this name and these keys. Fails only where memory is wanting.
fn stream_of(
    alloc: Global,
    names: &Vocabulary,
    keyed: Keyed,
    name: &[u8],
    keys: &[Node],
) -> Result<Stream, AllocError>
    ensures { IfOk result (λ stream. stream
        ≡ specs.stream_of names.now keyed name.now (trees keys.now)) }
{
    let scopes = scopes_of(alloc, keys)?;
    let inputs = named_sorts(alloc, &names.sorts, value_at(b":inputs", keys))?;
    let outputs = named_sorts(alloc, &names.sorts, value_at(b":outputs", keys))?;
    let domain = patterns_of(alloc, names, &scopes.inputs, value_at(b":domain", keys))?;
    let certified = patterns_of(alloc, names, &scopes.all, value_at(b":certified", keys))?;
    let worth = worth_of(
        alloc,
        names,
        &scopes.inputs,
        keyed,
        value_at(b":value", keys),
    )?;
    Ok(Stream {
        name: Name::from_slice(alloc, name)?,
        inputs: Seq::from_vec(inputs),
        outputs: Seq::from_vec(outputs),
        domain: Seq::from_vec(domain),
        certified: Seq::from_vec(certified),
        worth,
    })
}

/// Adds the stream that a list of a stream file is, if it is one.
fn add_item(
    alloc: Global,
    names: &Vocabulary,
    list: &mut Vec<Stream>,
    kind: Option<Keyed>,
    items: &[Node],
) -> Result<(), AllocError>
    ensures { OnOk result (list.new.items ≡ list.old.items
        ++ specs.item_streams names.now kind (trees items.now)) }
{
    match kind {
        None => Ok(()),
        Some(keyed) => {
            let stream = stream_of(alloc, names, keyed, head_of(items), tail_of(items))?;
            list.push(stream)?;
            Ok(())
        }
    }
}

/// The streams in the order of the text. Fails only where memory is wanting.
pub(crate) fn streams_of(
    alloc: Global,
    names: &Vocabulary,
    items: &[Node],
) -> Result<Vec<Stream>, AllocError>
    ensures { IfOk result (λ list. list.items ≡ specs.streams_of names.now (trees items.now)) }
{
    let mut list = Vec::new(alloc);
    let mut left = items;
    'items: loop {
        match front_of(left) {
            Front::End => return Ok(list),
            Front::Word { rest, .. } => left = rest,
            Front::List { items, rest, .. } => {
                add_item(alloc, names, &mut list, kind_of(items), tail_of(items))?;
                left = rest;
            }
        }
    }
}
