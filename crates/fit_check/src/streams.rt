//! Streams.
ghost use Rattle.std.specs.Prelude.{◌≡◌, ◌<◌, ◌&&◌, ◌+◌, ◌≤◌, length, nat_le};
ghost use Rattle.std.specs.List.{list_all};
ghost use Rattle.task_model.specs.Fit as fit;
ghost use Rattle.lemmas.specs.Lists.{numbers_from};
ghost use Rattle.fit_check.specs.Tests as tests;
ghost use Rattle.task_model.specs.declared.limits.TheConstants.{SLOTS};

use crate::conditions::is_fit_application;
use crate::domain::are_fit_patterns;
use crate::graph::Graph;
use crate::lists::{are_places, is_short};
use crate::names::are_named;
use crate::roles::{is_static_role, role_of};
use crate::slots::Slots;
use task_model::{Domain, Pattern, Stream, Task, stream_leads};

/// Whether all of these are atoms of static predicates.
fn are_static(domain: &Domain, patterns: &[Pattern]) -> bool
    ensures { result ≡ fit.are_static_patterns domain.now patterns.now }
{
    patterns.iter().all(|pattern| is_static_role(role_of(domain, pattern.pred as usize)))
}

/// Whether there are at most eight, all of which are types.
fn are_fit_types(domain: &Domain, sorts: &[u32]) -> bool
    ensures { result ≡ (nat_le (length sorts.now) 8
        && fit.are_places (length domain.now.sorts) sorts.now) }
{
    sorts.len() <= 8 && are_places(domain.sorts.len(), sorts)
}

/// Whether these may be domain facts or certified facts, where the slots have values.
fn are_fit_atoms(domain: &Domain, count: usize, patterns: &[Pattern]) -> bool
    requires { count ≤ SLOTS }
    ensures { result ≡ (fit.are_fit_patterns domain.now (length domain.now.constants)
        (numbers_from 0 count) patterns.now && fit.are_static_patterns domain.now patterns.now) }
{
    are_fit_patterns(domain, &Slots::first(count), patterns) && are_static(domain, patterns)
}

/// Whether the stream gives no value, or gives the value of a term and nothing else.
fn has_fit_worth(domain: &Domain, stream: &Stream) -> bool
    requires { length stream.now.inputs ≤ 8 }
    ensures { result ≡ fit.is_fit_worth domain.now stream.now }
{
    match &stream.worth {
        None => true,
        Some(worth) => {
            stream.outputs.is_empty()
                && stream.certified.is_empty()
                && is_fit_application(
                    domain.functions.as_slice(),
                    domain.constants.len(),
                    &Slots::first(stream.inputs.len()),
                    worth.func,
                    worth.args.as_slice(),
                )
        }
    }
}

/// Whether this may be a stream.
fn is_fit_stream(domain: &Domain, stream: &Stream) -> bool
    ensures { result ≡ fit.is_fit_stream domain.now stream.now }
{
    let inputs = stream.inputs.as_slice();
    let outputs = stream.outputs.as_slice();
    if inputs.len() > 8 || outputs.len() > 8 {
        return false;
    }
    are_fit_types(domain, inputs)
        && are_fit_types(domain, outputs)
        && are_fit_atoms(domain, inputs.len(), stream.domain.as_slice())
        && are_fit_atoms(
            domain,
            inputs.len() + outputs.len(),
            stream.certified.as_slice(),
        )
        && has_fit_worth(domain, stream)
}

/// Whether each may be a stream.
fn may_be_streams(domain: &Domain, streams: &[Stream]) -> bool
    ensures { result ≡ list_all (fit.is_fit_stream domain.now) streams.now }
{
    streams.iter().all(|stream| is_fit_stream(domain, stream))
}

/// Whether the streams are fit, apart from streams that feed themselves.
pub(crate) fn are_fit_streams(task: &Task) -> bool
    ensures { result ≡ tests.are_fit_streams task.now }
{
    let streams = task.streams.as_slice();
    is_short(streams) && may_be_streams(&task.domain, streams) && are_named(streams)
}

/// The streams: an edge leads from one to each that it may feed.
impl Graph for Task {
    ghost use Rattle.std.specs.Prelude.{length};
    ghost use Rattle.task_model.specs.Edges.{streams_within};

    ghost size = { λ t. length t.streams };

    ghost edge = { fit.leads };

    fn len(&self) -> usize {
        self.streams.len()
    }

    fn leads(&self, from: usize, to: usize) -> bool {
        let streams = self.streams.as_slice();
        stream_leads(&self.domain, &streams[from], &streams[to])
    }

    ghost within = { streams_within };
}
