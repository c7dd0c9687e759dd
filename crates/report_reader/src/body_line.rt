//! The lines among the entries.
ghost use Rattle.std.specs.Prelude.{◌≡◌, ℕ, IfOk, MatchOption};
ghost use Rattle.report_text.specs.Texts.{limit_word};
ghost use Rattle.transcript_model.specs.declared.outcome.LimitKind.{LimitKind};
ghost use Rattle.report_reader.specs.Body.{IsBodyLine, IsBodyLineOf, body_line, body_more};
ghost use Rattle.report_reader.specs.Finding.{Finds};
ghost use Rattle.report_reader.specs.Splits.{fields_of};
ghost use Rattle.report_reader.specs.declared.body_word.Word.TheVariants.{Level, Ask, Got, Value, End, Dream, Nothing, Reset, Pick, Retire, Plan, No, Limit};

use crate::body_word::{Word, word_of};
use crate::calls::call_in;
use crate::fields::Fields;
use crate::objects::Objects;
use crate::tuples::{Tuples, tuples_in};
use std::alloc::{AllocError, Global};
use task_model::LARGEST_NUMBER;
use transcript_model::{Entry, LimitKind};

/// The line that ends the entries.
#[derive(Clone, Copy, Debug)]
pub(crate) enum Ending {
    /// A plan of so many steps follows.
    Plan(u32),
    /// There is no plan.
    NoPlan,
    /// A limit was reached.
    Limit(LimitKind),
}

/// A line among the entries, or the one that ends them.
#[derive(Drop)]
pub(crate) enum BodyLine {
    /// An entry of one line.
    Single(Entry),
    /// The beginning of a dream.
    Dream {
        /// How many entries it uses.
        uses: u32,
        /// How many steps it has.
        steps: u32,
    },
    /// The line that ends the entries.
    Ends(Ending),
}

/// What a line among the entries says, by its fields.
pub(crate) fn body_line_in(
    alloc: Global,
    version: u8,
    fields: &mut Fields<'_>,
) -> Result<Option<BodyLine>, AllocError>
    ensures { IfOk result (λ found. Finds (IsBodyLine version) (λ b. fields_of (body_line b)) found
        fields.old) }
{
    let Some(field) = fields.next() else {
        return Ok(None);
    };
    let Some(word) = word_of(field) else {
        return Ok(None);
    };
    line_of_word(alloc, version, word, fields)
}

/// What a line with this word says, by its other fields.
fn line_of_word(
    alloc: Global,
    version: u8,
    word: Word,
    fields: &mut Fields<'_>,
) -> Result<Option<BodyLine>, AllocError>
    ensures { IfOk result (λ found. Finds (IsBodyLineOf version word) body_more found fields.old) }
{
    match word {
        Word::Ask => ask_in(alloc, fields),
        Word::Got => got_in(alloc, version, fields),
        Word::Value => Ok(value_in(fields)),
        Word::End => Ok(end_in(fields)),
        Word::Dream => Ok(dream_in(fields)),
        Word::Pick => Ok(pick_in(fields)),
        Word::Retire => Ok(retire_in(fields)),
        Word::Plan => Ok(plan_in(fields)),
        Word::No => Ok(no_plan_in(fields)),
        Word::Limit => Ok(limit_in(fields)),
        Word::Level => Ok(level_in(fields)),
        Word::Nothing => Ok(nothing_in(fields)),
        Word::Reset => Ok(reset_in(fields)),
    }
}

fn ask_in(alloc: Global, fields: &mut Fields<'_>) -> Result<Option<BodyLine>, AllocError>
    ensures { IfOk result (λ found. (version : ℕ)
        → Finds (IsBodyLineOf version Ask) body_more found fields.old) }
{
    let Some(number) = fields.number() else {
        return Ok(None);
    };
    let Some(turn) = fields.number() else {
        return Ok(None);
    };
    let Some(call) = call_in(alloc, fields, Objects::Real)? else {
        return Ok(None);
    };
    Ok(Some(BodyLine::Single(Entry::Ask { number, turn, call })))
}

fn got_in(
    alloc: Global,
    version: u8,
    fields: &mut Fields<'_>,
) -> Result<Option<BodyLine>, AllocError>
    ensures { IfOk result (λ found. Finds (IsBodyLineOf version Got) body_more found fields.old) }
{
    let Some(number) = fields.number() else {
        return Ok(None);
    };
    let Some(Tuples { tuples, values }) = tuples_in(alloc, version, fields)? else {
        return Ok(None);
    };
    Ok(Some(BodyLine::Single(Entry::Got {
        number,
        tuples,
        values,
    })))
}

fn value_in(fields: &mut Fields<'_>) -> Option<BodyLine>
    ensures { (version : ℕ) → Finds (IsBodyLineOf version Value) body_more result fields.old }
{
    let number = fields.number()?;
    let value = fields.number_upto(LARGEST_NUMBER as u64)? as u32;
    if fields.are_over() {
        Some(BodyLine::Single(Entry::Value { number, value }))
    } else {
        None
    }
}

fn dream_in(fields: &mut Fields<'_>) -> Option<BodyLine>
    ensures { (version : ℕ) → Finds (IsBodyLineOf version Dream) body_more result fields.old }
{
    let uses = fields.number()?;
    let steps = fields.last_number()?;
    Some(BodyLine::Dream { uses, steps })
}

fn end_in(fields: &mut Fields<'_>) -> Option<BodyLine>
    ensures { (version : ℕ) → Finds (IsBodyLineOf version End) body_more result fields.old }
{
    let number = fields.last_number()?;
    Some(BodyLine::Single(Entry::End { number }))
}

fn pick_in(fields: &mut Fields<'_>) -> Option<BodyLine>
    ensures { (version : ℕ) → Finds (IsBodyLineOf version Pick) body_more result fields.old }
{
    let number = fields.last_number()?;
    Some(BodyLine::Single(Entry::Pick(number)))
}

fn retire_in(fields: &mut Fields<'_>) -> Option<BodyLine>
    ensures { (version : ℕ) → Finds (IsBodyLineOf version Retire) body_more result fields.old }
{
    let number = fields.last_number()?;
    Some(BodyLine::Single(Entry::Retire(number)))
}

fn plan_in(fields: &mut Fields<'_>) -> Option<BodyLine>
    ensures { (version : ℕ) → Finds (IsBodyLineOf version Plan) body_more result fields.old }
{
    let steps = fields.last_number()?;
    Some(BodyLine::Ends(Ending::Plan(steps)))
}

fn no_plan_in(fields: &mut Fields<'_>) -> Option<BodyLine>
    ensures { (version : ℕ) → Finds (IsBodyLineOf version No) body_more result fields.old }
{
    if fields.begin_with(b"plan") && fields.are_over() {
        Some(BodyLine::Ends(Ending::NoPlan))
    } else {
        None
    }
}

fn limit_in(fields: &mut Fields<'_>) -> Option<BodyLine>
    ensures { (version : ℕ) → Finds (IsBodyLineOf version Limit) body_more result fields.old }
{
    let kind = kind_in(fields.next()?)?;
    if fields.are_over() {
        Some(BodyLine::Ends(Ending::Limit(kind)))
    } else {
        None
    }
}

/// The limit that this word names.
fn kind_in(field: &[u8]) -> Option<LimitKind>
    ensures { MatchOption result ((kind : LimitKind) → ¬ (limit_word kind ≡ field.now))
        (λ kind. limit_word kind ≡ field.now) }
{
    if field == b"calls".as_slice() {
        return Some(LimitKind::Calls);
    }
    if field == b"states".as_slice() {
        return Some(LimitKind::States);
    }
    if field == b"instances".as_slice() {
        return Some(LimitKind::Instances);
    }
    None
}

fn level_in(fields: &Fields<'_>) -> Option<BodyLine>
    ensures { (version : ℕ) → Finds (IsBodyLineOf version Level) body_more result fields.now }
{
    if fields.are_over() {
        Some(BodyLine::Single(Entry::Level))
    } else {
        None
    }
}

fn nothing_in(fields: &Fields<'_>) -> Option<BodyLine>
    ensures { (version : ℕ) → Finds (IsBodyLineOf version Nothing) body_more result fields.now }
{
    if fields.are_over() {
        Some(BodyLine::Single(Entry::Nothing))
    } else {
        None
    }
}

fn reset_in(fields: &Fields<'_>) -> Option<BodyLine>
    ensures { (version : ℕ) → Finds (IsBodyLineOf version Reset) body_more result fields.now }
{
    if fields.are_over() {
        Some(BodyLine::Single(Entry::Reset))
    } else {
        None
    }
}
