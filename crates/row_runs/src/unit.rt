//! Copies of a text, in which numbers are counted.
use crate::word::{first_word, number};
use std::alloc::AllocError;

/// Adds what stands behind a `<`: the number `A + B * count` for `A B>`, and what follows it.
fn add_counted(text: &mut Vec<u8>, part: &[u8], count: usize) -> Result<(), AllocError> {
    let Some(end) = part.iter().position(|byte| *byte == b'>') else {
        return text.extend_from_slice(part);
    };
    let (first, step) = first_word(&part[..end]);
    let value = number(step).wrapping_mul(count).wrapping_add(number(first));
    let digits = format!(in *text.allocator(); "{value}")?;
    text.extend_from_slice(digits.as_bytes())?;
    text.extend_from_slice(&part[end + 1..])
}

/// Adds the copy of this number, from 0: for each `<A B>` of the unit stands `A + B * count`.
pub(crate) fn add_copy(text: &mut Vec<u8>, unit: &[u8], count: usize) -> Result<(), AllocError> {
    for (place, part) in unit.split(|byte| *byte == b'<').enumerate() {
        if place == 0 {
            text.extend_from_slice(part)?;
        } else {
            add_counted(text, part, count)?;
        }
    }
    Ok(())
}
