//! The head of a report.
ghost use Rattle.std.specs.Prelude.{◌≡◌, IfOk, MatchOption};
ghost use Rattle.std.specs.Fmt.{decimal};
ghost use Rattle.report_text.specs.Forms.{IsFormedPool};
ghost use Rattle.report_text.specs.Texts.{mode_word, pool_line};
ghost use Rattle.transcript_model.specs.declared.head.Mode.{Mode};
ghost use Rattle.report_reader.specs.Body.{IsFirstLine, IsLimits, first_of, limits_line_of, IsVersion};
ghost use Rattle.report_reader.specs.Finding.{Finds, TakesFields, TakesAll, TakesLine};
ghost use Rattle.report_reader.specs.Splits.{fields_of};

use crate::calls::names_in;
use crate::fields::Fields;
use crate::lines::Lines;
use std::alloc::{AllocError, Global};
use task_model::Seq;
use transcript_model::{Mode, PoolLine};

/// What the first line says.
#[derive(Clone, Copy, Debug)]
pub(crate) struct First {
    pub(crate) version: u8,
    pub(crate) mode: Mode,
}

/// What the second line says.
#[derive(Clone, Copy, Debug)]
pub(crate) struct Limits {
    pub(crate) calls: u32,
    pub(crate) states: u32,
    pub(crate) depth: u8,
}

/// What the next line says as the first one.
pub(crate) fn next_first(lines: &mut Lines<'_>) -> Option<First>
    ensures { TakesLine IsFirstLine first_of result lines.old lines.new }
{
    let mut fields = lines.front()?;
    let first = first_in(&mut fields)?;
    lines.advance();
    Some(first)
}

fn first_in(fields: &mut Fields<'_>) -> Option<First>
    ensures { Finds IsFirstLine (λ f. fields_of (first_of f)) result fields.old }
{
    if !fields.begin_with(b"pddlstream") {
        return None;
    }
    let version = version_in(fields)?;
    let mode = mode_in(fields.next()?)?;
    if fields.are_over() {
        Some(First { version, mode })
    } else {
        None
    }
}

/// The version that the next field shows, 1 or 2.
fn version_in(fields: &mut Fields<'_>) -> Option<u8>
    ensures { TakesFields IsVersion decimal result fields.old fields.new }
{
    let version = fields.number_upto(2)?;
    if version == 0 {
        return None;
    }
    Some(version as u8)
}

/// The mode that this word names.
fn mode_in(word: &[u8]) -> Option<Mode>
    ensures { MatchOption result ((mode : Mode) → ¬ (mode_word mode ≡ word.now))
        (λ mode. mode_word mode ≡ word.now) }
{
    if word == b"incremental".as_slice() {
        return Some(Mode::Incremental);
    }
    if word == b"focused".as_slice() {
        return Some(Mode::Focused);
    }
    if word == b"binding".as_slice() {
        return Some(Mode::Binding);
    }
    if word == b"adaptive".as_slice() {
        return Some(Mode::Adaptive);
    }
    None
}

/// What the next line says as the second one.
pub(crate) fn next_limits(lines: &mut Lines<'_>) -> Option<Limits>
    ensures { TakesLine IsLimits limits_line_of result lines.old lines.new }
{
    let mut fields = lines.front()?;
    let limits = limits_in(&mut fields)?;
    lines.advance();
    Some(limits)
}

fn limits_in(fields: &mut Fields<'_>) -> Option<Limits>
    ensures { Finds IsLimits (λ l. fields_of (limits_line_of l)) result fields.old }
{
    if !fields.begin_with(b"limits") {
        return None;
    }
    let Some(calls) = fields.number() else {
        return None;
    };
    let Some(states) = fields.number() else {
        return None;
    };
    let Some(depth) = fields.small() else {
        return None;
    };
    if fields.are_over() {
        Some(Limits {
            calls,
            states,
            depth,
        })
    } else {
        None
    }
}

/// The pools, as far as there are lines of pools.
#[tactic(auto, using(crate::proofs::FindingLemmas::push_line, crate::proofs::FindingLemmas::all_push))]
pub(crate) fn pools_in(alloc: Global, lines: &mut Lines<'_>) -> Result<Seq<PoolLine>, AllocError>
    ensures { IfOk result (λ pools. TakesAll IsFormedPool pool_line pools lines.old lines.new) }
{
    let mut pools = Vec::new(alloc);
    while let Some(pool) = next_pool(alloc, lines)? {
        pools.push(pool)?;
    }
    Ok(Seq::from_vec(pools))
}

/// The pool of the next line.
fn next_pool(alloc: Global, lines: &mut Lines<'_>) -> Result<Option<PoolLine>, AllocError>
    ensures { IfOk result (λ found. TakesLine IsFormedPool pool_line found lines.old lines.new) }
{
    let Some(mut fields) = lines.front() else {
        return Ok(None);
    };
    let found = pool_in(alloc, &mut fields)?;
    if found.is_some() {
        lines.advance();
    }
    Ok(found)
}

fn pool_in(alloc: Global, fields: &mut Fields<'_>) -> Result<Option<PoolLine>, AllocError>
    ensures { IfOk result (λ found. Finds IsFormedPool (λ p. fields_of (pool_line p)) found
        fields.old) }
{
    if !fields.begin_with(b"pool") {
        return Ok(None);
    }
    let Some(workers) = fields.small() else {
        return Ok(None);
    };
    if fields.are_over() {
        return Ok(None);
    }
    let Some(streams) = names_in(alloc, fields)? else {
        return Ok(None);
    };
    Ok(Some(PoolLine { workers, streams }))
}
