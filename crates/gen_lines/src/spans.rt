//! Where the values of a yield stand.
ghost use Rattle.std.specs.Prelude.{◌≡◌, ◌*◌, ◌≤◌, length, drop};
ghost use Rattle.gen_lines.specs.Reply.{fields, joined_tuples, parted, parts_here};
ghost use Rattle.gen_lines.specs.Told.{Marks, tuple_count};
ghost use Rattle.gen_lines.specs.declared.line_buf.TheConstants.{LINE_LENGTH};

use crate::fields::field_from;
use crate::values::{is_bar, is_value};

/// The most tuples that a yield may hold.
pub const YIELD_TUPLES: u8 = 16;

/// Where the values of a yield stand in its line.
#[derive(Clone, Copy)]
pub struct Spans {
    /// How many tuples there are, 1 to [`YIELD_TUPLES`].
    pub tuples: u8,
    /// How many values each tuple has, at most 8.
    pub width: u8,
    /// The start of each value in the line and the place after its last byte, tuple after tuple.
    pub at: [(u16, u16); 128],
}

impl Spans {
    ghost use Rattle.std.specs.Prelude.{◌<◌, Some, slice_get};
    ghost use Rattle.gen_lines.specs.Told.{LieIn, texts, value_count};

    /// How many values there are in all tuples together.
    pub fn count(&self) -> usize
        ensures { result ≡ value_count self.now }
    {
        usize::from(self.tuples) * usize::from(self.width)
    }

    /// The bytes of a value of the line that the spans are of. Values count from 0, tuple after
    /// tuple.
    pub fn text<'a>(&self, line: &'a [u8], value: usize) -> &'a [u8]
        requires line { LieIn line.now self.now }
        requires value { value < value_count self.now }
        ensures { slice_get (texts line.now self.now) value ≡ Some result.now }
    {
        let (start, end) = self.at[value];
        &line[usize::from(start)..usize::from(end)]
    }
}

/// How many tuples the fields from a place on make, if each has this many values and there aren't
/// too many.
pub(crate) fn count_tuples(line: &[u8], from: usize, width: usize, bars: bool) -> Option<u8>
    requires { from ≤ length line.now }
    ensures { result ≡ tuple_count width (parted bars (fields (drop from line.now))) }
{
    let mut at = from;
    let mut tuples = 1;
    let mut values = 0;
    'fields: while let Some(field) = field_from(line, at) {
        at = field.end;
        if parts_here(bars, &line[field.start..field.end]) {
            if values != width || tuples == YIELD_TUPLES {
                return None;
            }
            tuples += 1;
            values = 0;
        } else {
            if values == width {
                return None;
            }
            values += 1;
        }
    }
    if values == width { Some(tuples) } else { None }
}

/// Where the values stand among the fields from a place on, if each is a value.
pub(crate) fn mark_values(
    line: &[u8],
    from: usize,
    bars: bool,
    tuples: u8,
    width: u8,
) -> Option<Spans>
    requires from { from ≤ length line.now }
    requires line { length line.now ≤ LINE_LENGTH }
    requires few { tuples * width ≤ 128 }
    requires count { length (joined_tuples (parted bars (fields (drop from line.now)))) ≡ tuples * width }
    ensures { Marks line.now (joined_tuples (parted bars (fields (drop from line.now)))) tuples width
        result }
{
    let mut places = [(0, 0); 128];
    let mut count = 0;
    let mut at = from;
    'fields: while let Some(field) = field_from(line, at) {
        at = field.end;
        let text = &line[field.start..field.end];
        if parts_here(bars, text) {
            continue;
        }
        if !is_value(text) {
            return None;
        }
        places[count] = (field.start as u16, field.end as u16);
        count += 1;
    }
    Some(Spans {
        tuples,
        width,
        at: places,
    })
}

/// Whether a field parts two tuples.
fn parts_here(bars: bool, field: &[u8]) -> bool
    ensures { result ≡ parts_here bars field.now }
{
    bars && is_bar(field)
}
