//! The outcome of a report.
ghost use Rattle.std.specs.Prelude.{◌≡◌, ◌↔◌, ℕ, ◌<◌, ◌^◌, ◌∷◌, List, true, IfOk, MatchBool, MatchOption};
ghost use Rattle.report_text.specs.Forms.{IsFormedOrigin, IsObject};
ghost use Rattle.report_text.specs.Places.{planning, cost_line};
ghost use Rattle.report_text.specs.Texts.{from_line, done_line};
ghost use Rattle.report_reader.specs.Body.{ending_place, AtEnd, IsOutcomeOf, IsTupleNumber, outcome_rest, tuple_shown};
ghost use Rattle.report_reader.specs.declared.body_line.Ending.TheVariants.{Plan};
ghost use Rattle.report_reader.specs.Finding.{Finds, HasNo, PartReads, TakesAll, TakesLine};
ghost use Rattle.report_reader.specs.Splits.{fields_of};

use crate::body_line::Ending;
use crate::body_reader::calls_in;
use crate::fields::Fields;
use crate::lines::Lines;
use crate::objects::{copied, is_object};
use std::alloc::{AllocError, Global};
use task_model::Seq;
use transcript_model::{Origin, Outcome};

/// The outcome behind its first line, with the last line of the report; None where a line may not
/// stand.
#[tactic(auto, using(crate::proofs::BodyStopLemmas::last_stop))]
pub(crate) fn outcome_in(
    alloc: Global,
    version: u8,
    ending: Ending,
    lines: &mut Lines<'_>,
) -> Result<Option<Outcome>, AllocError>
    ensures { IfOk result (λ found. PartReads (ending_place version ending)
        (IsOutcomeOf version ending) (outcome_rest version) found lines.old lines.new) }
{
    match ending {
        Ending::Plan(steps) => plan_in(alloc, version, steps, lines),
        Ending::NoPlan => Ok(at_end(Outcome::NoPlan, lines)),
        Ending::Limit(kind) => Ok(at_end(Outcome::Limit(kind), lines)),
    }
}

/// The outcome, if the last line of the report comes next.
fn at_end(outcome: Outcome, lines: &mut Lines<'_>) -> Option<Outcome>
    ensures { AtEnd result outcome lines.old lines.new }
{
    if takes_done(lines) {
        Some(outcome)
    } else {
        None
    }
}

/// The plan of so many steps, with the last line of the report.
fn plan_in(
    alloc: Global,
    version: u8,
    steps: u32,
    lines: &mut Lines<'_>,
) -> Result<Option<Outcome>, AllocError>
    ensures { IfOk result (λ found. PartReads (planning version steps)
        (IsOutcomeOf version (Plan steps)) (outcome_rest version) found lines.old lines.new) }
{
    let Some(steps) = calls_in(alloc, b"do", steps, lines)? else {
        return Ok(None);
    };
    let Some(cost) = next_cost(lines) else {
        return Ok(None);
    };
    let from = origins_in(alloc, version, lines)?;
    if takes_done(lines) {
        Ok(Some(Outcome::Plan { steps, cost, from }))
    } else {
        Ok(None)
    }
}

/// The cost that the next line shows.
fn next_cost(lines: &mut Lines<'_>) -> Option<u64>
    ensures { TakesLine (λ c. c < 2 ^ 64) cost_line result lines.old lines.new }
{
    let mut fields = lines.front()?;
    let cost = cost_in(&mut fields)?;
    lines.advance();
    Some(cost)
}

fn cost_in(fields: &mut Fields<'_>) -> Option<u64>
    ensures { Finds (λ c. c < 2 ^ 64) (λ c. fields_of (cost_line c)) result fields.old }
{
    if !fields.begin_with(b"cost") {
        return None;
    }
    let cost = fields.number_upto(u64::MAX)?;
    if fields.are_over() { Some(cost) } else { None }
}

/// The origins, as far as there are lines of origins.
#[tactic(auto, using(crate::proofs::FindingLemmas::many_all))]
fn origins_in(alloc: Global, version: u8, lines: &mut Lines<'_>) -> Result<Seq<Origin>, AllocError>
    ensures { IfOk result (λ from. TakesAll (IsFormedOrigin version) (from_line version) from
        lines.old lines.new) }
{
    let mut origins = Vec::new(alloc);
    while let Some(origin) = next_origin(alloc, version, lines)? {
        origins.push(origin)?;
    }
    Ok(Seq::from_vec(origins))
}

/// The origin of the next line.
fn next_origin(
    alloc: Global,
    version: u8,
    lines: &mut Lines<'_>,
) -> Result<Option<Origin>, AllocError>
    ensures { IfOk result (λ found. TakesLine (IsFormedOrigin version) (from_line version) found
        lines.old lines.new) }
{
    let Some(mut fields) = lines.front() else {
        return Ok(None);
    };
    let found = origin_in(alloc, version, &mut fields)?;
    if found.is_some() {
        lines.advance();
    }
    Ok(found)
}

fn origin_in(
    alloc: Global,
    version: u8,
    fields: &mut Fields<'_>,
) -> Result<Option<Origin>, AllocError>
    ensures { IfOk result (λ found. Finds (IsFormedOrigin version)
        (λ o. fields_of (from_line version o)) found fields.old) }
{
    if !fields.begin_with(b"from") {
        return Ok(None);
    }
    let Some(object) = next_object(fields) else {
        return Ok(None);
    };
    let Some(number) = fields.number() else {
        return Ok(None);
    };
    let Some(tuple) = last_tuple(version, fields) else {
        return Ok(None);
    };
    Ok(Some(Origin {
        object: copied(alloc, object)?,
        number,
        tuple,
    }))
}

/// The next field, if it is an object.
fn next_object<'a>(fields: &mut Fields<'a>) -> Option<&'a [u8]>
    ensures { MatchOption result (HasNo IsObject (λ o. o) fields.old)
        (λ object. IsObject object.now × (object.now ∷ fields.new ≡ fields.old)) }
{
    let field = fields.next()?;
    if is_object(field) { Some(field) } else { None }
}

/// The tuple of an origin, which version 1 doesn't show, with nothing behind it.
fn last_tuple(version: u8, fields: &mut Fields<'_>) -> Option<u8>
    ensures { Finds (IsTupleNumber version) (tuple_shown version) result fields.old }
{
    let tuple = if version == 1 { 1 } else { fields.small()? };
    if fields.are_over() { Some(tuple) } else { None }
}

/// Goes on behind the next line, if that is the last one of a report.
fn takes_done(lines: &mut Lines<'_>) -> bool
    ensures { MatchBool result (fields_of done_line ∷ lines.new ≡ lines.old)
        ((lines.new ≡ lines.old) × ((rest : List (List (List ℕ)))
        → ¬ (fields_of done_line ∷ rest ≡ lines.old))) }
{
    let Some(mut fields) = lines.front() else {
        return false;
    };
    let done = is_done(&mut fields);
    if done {
        lines.advance();
    }
    done
}

fn is_done(fields: &mut Fields<'_>) -> bool
    ensures { (result ≡ true) ↔ (fields_of done_line ≡ fields.old) }
{
    fields.begin_with(b"done") && fields.are_over()
}
