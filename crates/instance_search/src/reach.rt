//! Whether the domain facts of an instance are known.
ghost use Rattle.std.specs.Prelude.{◌≡◌, true, option_copied, slice_get};
ghost use Rattle.std.specs.List.{list_all};
ghost use Rattle.task_model.specs.Known.{is_fact};
ghost use Rattle.task_model.specs.Streams.{fact_of as fact_at, is_reachable as reaches};
ghost use Rattle.instance_search.specs.Readable.{is_bounded_pattern, IsReadableStream};

use formula_eval::{Env, have_types, objects_at};
use std::alloc::Global;
use task_model::{Fact, Instance, Kind, Look, Pattern, Stream, Task};

/// The task's stream at this place, if there is one.
pub fn stream_of(task: &Task, place: u32) -> Option<&Stream>
    ensures { option_copied result ≡ slice_get task.now.streams place }
{
    task.streams.as_slice().get(place as usize)
}

/// The pattern's atom, as a fact, where the slots have these objects.
fn fact_of(alloc: Global, pattern: &Pattern, env: &Env) -> Fact
    requires { is_bounded_pattern pattern.now ≡ true }
    ensures { result ≡ fact_at env.now pattern.now }
{
    Fact {
        kind: Kind::Predicate,
        name: pattern.pred,
        args: objects_at(alloc, pattern.args.as_slice(), env),
    }
}

/// Whether all of these atoms are known, where the slots have these objects.
fn are_known<L: Look>(alloc: Global, look: &L, patterns: &[Pattern], env: &Env) -> bool
    requires { list_all is_bounded_pattern patterns.now ≡ true }
    ensures { result ≡ list_all (λ p. is_fact (L.known look.now).facts (fact_at env.now p))
        patterns.now }
{
    for pattern in patterns {
        if !look.has(&fact_of(alloc, pattern, env)) {
            return false;
        }
    }
    true
}

/// Whether the inputs have their types and the domain facts are known, where the instance is one of
/// the stream (PDDLStream 2020). It takes no memory.
pub fn is_reachable<L: Look>(alloc: Global, stream: &Stream, look: &L, instance: &Instance) -> bool
    requires { IsReadableStream stream.now }
    ensures { result ≡ reaches stream.now (L.known look.now) instance.now }
{
    let inputs = instance.inputs.as_slice();
    have_types(alloc, look, inputs, stream.inputs.as_slice())
        && are_known(alloc, look, stream.domain.as_slice(), &Env::new(inputs))
}
