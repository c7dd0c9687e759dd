//! The tuples of an answer.
ghost use Rattle.std.specs.Prelude.{◌≡◌, ◌≤◌, IfOk, length, count_by};
ghost use Rattle.report_text.specs.Forms.{AreTuples};
ghost use Rattle.report_text.specs.Texts.{tuple_fields};
ghost use Rattle.report_reader.specs.Finding.{Finds};
ghost use Rattle.report_reader.specs.Tuples.{is_bar_field, AreBars, IsShape, TakesValues, TakesTuples};

use crate::fields::Fields;
use crate::objects::copied;
use gen_lines::{YIELD_TUPLES, is_value};
use std::alloc::{AllocError, Global};
use task_model::{Name, Seq};

/// The tuples of an answer.
#[derive(Drop)]
pub(crate) struct Tuples {
    /// How many.
    pub(crate) tuples: u8,
    /// The values of all in order.
    pub(crate) values: Seq<Name>,
}

/// How tuples are written.
#[derive(Clone, Copy, Debug)]
struct Shape {
    /// How many bars part them.
    bars: usize,
    /// How many values each has.
    width: usize,
}

/// The tuples that the fields write which are left.
pub(crate) fn tuples_in(
    alloc: Global,
    version: u8,
    fields: &mut Fields<'_>,
) -> Result<Option<Tuples>, AllocError>
    ensures { IfOk result (λ found. Finds (λ t. AreTuples version t.tuples t.values)
        (λ t. tuple_fields t.tuples t.values) found fields.old) }
{
    let Some(Shape { bars, width }) = shape_of(version, fields) else {
        return Ok(None);
    };
    let mut values = Vec::with_capacity(alloc, fields.len())?;
    if !take_tuples(alloc, fields, width, bars, &mut values)? {
        return Ok(None);
    }
    Ok(Some(Tuples {
        tuples: (bars + 1) as u8,
        values: Seq::from_vec(values),
    }))
}

/// How the tuples are written, going by the numbers of bars and of other fields.
fn shape_of(version: u8, fields: &Fields<'_>) -> Option<Shape>
    ensures { IsShape version result fields.now }
{
    let bars = bars_of(version, fields);
    if bars >= YIELD_TUPLES as usize {
        return None;
    }
    let many = fields.len() - bars;
    if many % (bars + 1) != 0 {
        return None;
    }
    let width = many / (bars + 1);
    if width == 0 && bars > 0 {
        return None;
    }
    Some(Shape { bars, width })
}

/// How many fields part tuples in this version.
fn bars_of(version: u8, fields: &Fields<'_>) -> usize
    ensures bars { AreBars version result fields.now }
    ensures few { result ≤ length fields.now }
{
    if version == 1 { 0 } else { bars_in(fields) }
}

/// How many fields are bars.
fn bars_in(fields: &Fields<'_>) -> usize
    ensures { result ≡ count_by is_bar_field fields.now }
{
    let mut bars = 0;
    let mut rest = fields.again();
    let most = rest.len();
    while let Some(field) = rest.next() {
        if field == b"|".as_slice() && bars < most {
            bars += 1;
        }
    }
    bars
}

/// Whether the fields that are left are tuples of so many values, with so many bars between them.
/// Puts the values behind the others.
fn take_tuples(
    alloc: Global,
    fields: &mut Fields<'_>,
    width: usize,
    bars: usize,
    values: &mut Vec<Name>,
) -> Result<bool, AllocError>
    ensures { IfOk result (λ yes. TakesTuples width bars yes values.old.items values.new.items
        fields.old) }
{
    if !take_values(alloc, fields, width, values)? {
        return Ok(false);
    }
    if bars == 0 {
        return Ok(fields.are_over());
    }
    if !fields.begin_with(b"|") {
        return Ok(false);
    }
    take_tuples(alloc, fields, width, bars - 1, values)
}

/// Whether the next fields are so many values. Puts them behind the others.
fn take_values(
    alloc: Global,
    fields: &mut Fields<'_>,
    width: usize,
    values: &mut Vec<Name>,
) -> Result<bool, AllocError>
    ensures { IfOk result (λ yes. TakesValues width yes values.old.items values.new.items fields.old
        fields.new) }
{
    for _ in 0..width {
        let Some(field) = fields.next() else {
            return Ok(false);
        };
        if !is_value(field) {
            return Ok(false);
        }
        values.push(copied(alloc, field)?)?;
    }
    Ok(true)
}
