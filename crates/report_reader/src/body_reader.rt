//! The entries of a report, and the line that ends them.
ghost use Rattle.std.specs.Prelude.{ℕ, ◌∷◌, IfOk};
ghost use Rattle.report_text.specs.Forms.{IsFormedUse, IsFormedCall, IsTerm};
ghost use Rattle.report_text.specs.Places.{entries, dreaming};
ghost use Rattle.report_text.specs.Texts.{use_line, use_line, call_fields, line};
ghost use Rattle.report_reader.specs.Body.{IsBodyLine, body_line, IsBody, body_lines, IsReportPart, part_lines, IsDreamEntry, dream_lines};
ghost use Rattle.report_reader.specs.Finding.{Finds, PartReads, TakesCounted, TakesLine};
ghost use Rattle.report_reader.specs.Splits.{fields_of};

use crate::body_line::{BodyLine, Ending, body_line_in};
use crate::calls::call_in;
use crate::fields::Fields;
use crate::lines::Lines;
use crate::objects::Objects;
use std::alloc::{AllocError, Global};
use task_model::Seq;
use transcript_model::{Call, DreamUse, Entry};

/// The entries of a report, and the line that ends them.
#[derive(Drop)]
pub(crate) struct Body {
    pub(crate) entries: Seq<Entry>,
    pub(crate) ending: Ending,
}

/// An entry, or the line that ends them.
#[derive(Drop)]
enum Part {
    Entry(Entry),
    End(Ending),
}

/// The entries up to the line that ends them; None where a line may not stand.
#[tactic(auto, using(crate::proofs::BodyStopLemmas::front_next, crate::proofs::BodyStopLemmas::front_end, crate::proofs::BodyStopLemmas::front_stop, crate::proofs::BodyStopLemmas::entry_smaller))]
pub(crate) fn body_in(
    alloc: Global,
    version: u8,
    lines: &mut Lines<'_>,
) -> Result<Option<Body>, AllocError>
    ensures { IfOk result (λ found. PartReads (entries version) (IsBody version) body_lines found
        lines.old lines.new) }
{
    let mut entries = Vec::new(alloc);
    while let Some(part) = part_in(alloc, version, lines)? {
        match part {
            Part::Entry(entry) => entries.push(entry)?,
            Part::End(ending) => {
                return Ok(Some(Body {
                    entries: Seq::from_vec(entries),
                    ending,
                }));
            }
        }
    }
    Ok(None)
}

/// The next entry, or the line that ends them; None where a line may not stand.
fn part_in(alloc: Global, version: u8, lines: &mut Lines<'_>) -> Result<Option<Part>, AllocError>
    ensures { IfOk result (λ found. PartReads (entries version) (IsReportPart version) part_lines
        found lines.old lines.new) }
{
    match next_line(alloc, version, lines)? {
        Some(BodyLine::Single(entry)) => Ok(Some(Part::Entry(entry))),
        Some(BodyLine::Ends(ending)) => Ok(Some(Part::End(ending))),
        Some(BodyLine::Dream { uses, steps }) => match dream_in(alloc, uses, steps, lines)? {
            Some(dream) => Ok(Some(Part::Entry(dream))),
            None => Ok(None),
        },
        None => Ok(None),
    }
}

/// What the next line says, if it may stand among the entries.
fn next_line(
    alloc: Global,
    version: u8,
    lines: &mut Lines<'_>,
) -> Result<Option<BodyLine>, AllocError>
    ensures { IfOk result (λ found. TakesLine (IsBodyLine version) body_line found lines.old
        lines.new) }
{
    let Some(mut fields) = lines.front() else {
        return Ok(None);
    };
    let found = body_line_in(alloc, version, &mut fields)?;
    if found.is_some() {
        lines.advance();
    }
    Ok(found)
}

/// The dream with so many entries and steps; None where a line of it is wanting.
fn dream_in(
    alloc: Global,
    uses: u32,
    steps: u32,
    lines: &mut Lines<'_>,
) -> Result<Option<Entry>, AllocError>
    ensures { IfOk result (λ found. (version : ℕ)
        → PartReads (dreaming version uses steps) (IsDreamEntry version uses steps) dream_lines
        found lines.old lines.new) }
{
    let Some(uses) = uses_in(alloc, uses, lines)? else {
        return Ok(None);
    };
    let Some(steps) = calls_in(alloc, b"step", steps, lines)? else {
        return Ok(None);
    };
    Ok(Some(Entry::Dream { uses, steps }))
}

/// So many lines of the entries that a dream uses.
#[tactic(auto, using(crate::proofs::FindingLemmas::many_stop))]
fn uses_in(
    alloc: Global,
    count: u32,
    lines: &mut Lines<'_>,
) -> Result<Option<Seq<DreamUse>>, AllocError>
    ensures { IfOk result (λ found. TakesCounted IsFormedUse use_line count found lines.old
        lines.new) }
{
    let mut uses = Vec::new(alloc);
    for _ in 0..count {
        let Some(one) = next_use(alloc, lines)? else {
            return Ok(None);
        };
        uses.push(one)?;
    }
    Ok(Some(Seq::from_vec(uses)))
}

/// The entry that a dream uses of the next line.
fn next_use(alloc: Global, lines: &mut Lines<'_>) -> Result<Option<DreamUse>, AllocError>
    ensures { IfOk result (λ found. TakesLine IsFormedUse use_line found lines.old lines.new) }
{
    let Some(mut fields) = lines.front() else {
        return Ok(None);
    };
    let found = use_in(alloc, &mut fields)?;
    if found.is_some() {
        lines.advance();
    }
    Ok(found)
}

fn use_in(alloc: Global, fields: &mut Fields<'_>) -> Result<Option<DreamUse>, AllocError>
    ensures { IfOk result (λ found. Finds IsFormedUse (λ u. fields_of (use_line u)) found
        fields.old) }
{
    if !fields.begin_with(b"use") {
        return Ok(None);
    }
    let Some(number) = fields.number() else {
        return Ok(None);
    };
    let Some(call) = call_in(alloc, fields, Objects::Supposed)? else {
        return Ok(None);
    };
    Ok(Some(DreamUse { number, call }))
}

/// So many lines of calls with this word.
#[tactic(auto, using(crate::proofs::FindingLemmas::many_stop))]
pub(crate) fn calls_in(
    alloc: Global,
    word: &[u8],
    count: u32,
    lines: &mut Lines<'_>,
) -> Result<Option<Seq<Call>>, AllocError>
    ensures { IfOk result (λ found. TakesCounted (IsFormedCall IsTerm)
        (λ call. line word.now (call_fields call)) count found lines.old lines.new) }
{
    let mut calls = Vec::new(alloc);
    for _ in 0..count {
        let Some(call) = next_call(alloc, word, lines)? else {
            return Ok(None);
        };
        calls.push(call)?;
    }
    Ok(Some(Seq::from_vec(calls)))
}

/// The call of the next line, behind this word.
fn next_call(alloc: Global, word: &[u8], lines: &mut Lines<'_>) -> Result<Option<Call>, AllocError>
    ensures { IfOk result (λ found. TakesLine (IsFormedCall IsTerm)
        (λ call. line word.now (call_fields call)) found lines.old lines.new) }
{
    let Some(mut fields) = lines.front() else {
        return Ok(None);
    };
    let found = call_behind(alloc, word, &mut fields)?;
    if found.is_some() {
        lines.advance();
    }
    Ok(found)
}

fn call_behind(
    alloc: Global,
    word: &[u8],
    fields: &mut Fields<'_>,
) -> Result<Option<Call>, AllocError>
    ensures { IfOk result (λ found. Finds (IsFormedCall IsTerm)
        (λ call. word.now ∷ call_fields call) found fields.old) }
{
    if !fields.begin_with(word) {
        return Ok(None);
    }
    call_in(alloc, fields, Objects::Supposed)
}
