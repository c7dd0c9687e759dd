//! The names that streams use, and the parts of a stream file.
ghost use Rattle.std.specs.Prelude.{◌≡◌, IfOk};
ghost use Rattle.sexpr_text.specs.Trees.{trees};
ghost use Rattle.stream_reader.specs.Tables as specs;

use form_reader::{Item, Keyed, TextKind, head_of, tail_of};
use name_tables::{Scope, Vocabulary, enter, value_at};
use sexpr_text::Node;
use std::alloc::{AllocError, Global};
use task_model::Domain;

/// The variables of a stream.
#[derive(Drop)]
pub(crate) struct Scopes {
    /// The inputs.
    pub(crate) inputs: Scope,
    /// The inputs, and then the outputs.
    pub(crate) all: Scope,
}

/// The names that streams use: those of the domain, and the total cost, declared or not. Fails only
/// where memory is wanting.
pub(crate) fn stream_vocabulary(alloc: Global, domain: &Domain) -> Result<Vocabulary, AllocError>
    ensures { IfOk result (λ names. names ≡ specs.stream_vocabulary domain.now) }
{
    let mut names = Vocabulary::of(alloc, domain)?;
    names.functions.declare(b"total-cost", 0)?;
    Ok(names)
}

/// The kind of a stream with this item, if it is one.
fn stream_kind(item: Item) -> Option<Keyed>
    ensures { result ≡ specs.stream_kind item }
{
    match item {
        Item::Stream => Some(Keyed::Stream),
        Item::CostStream => Some(Keyed::CostStream),
        _ => None,
    }
}

/// The kind of a stream that a list is, if it is one.
pub(crate) fn kind_of(items: &[Node]) -> Option<Keyed>
    ensures { result ≡ specs.kind_of (trees items.now) }
{
    stream_kind(TextKind::Streams.item_of(head_of(items)))
}

/// The keys behind a stream's name.
pub(crate) fn keys_of<'a>(items: &'a [Node]) -> &'a [Node]
    ensures { trees result.now ≡ specs.keys_of (trees items.now) }
{
    tail_of(tail_of(items))
}

/// The variables of a stream with these keys. Fails only where memory is wanting.
pub(crate) fn scopes_of(alloc: Global, keys: &[Node]) -> Result<Scopes, AllocError>
    ensures { IfOk result (λ scopes. scopes ≡ specs.scopes_of (trees keys.now)) }
{
    let mut inputs = Scope::new(alloc);
    enter(&mut inputs, value_at(b":inputs", keys))?;
    let mut all = Scope::new(alloc);
    enter(&mut all, value_at(b":inputs", keys))?;
    enter(&mut all, value_at(b":outputs", keys))?;
    Ok(Scopes { inputs, all })
}
