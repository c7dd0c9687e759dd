//! The names, values and objects that a report may show.
ghost use Rattle.std.specs.Prelude.{◌≡◌, ◌↔◌, true, IfOk, position};
ghost use Rattle.gen_lines.specs.Reply.{is_value};
ghost use Rattle.report_text.specs.Forms.{IsGenerated, IsObject, IsPlaceholder};
ghost use Rattle.report_reader.specs.Objects.{AreTwoPlaces, IsArgument, IsPlaceNumber, is_dot};

use crate::bytes::{before, behind};
use crate::numbers::number_in;
use gen_lines::is_value;
use std::alloc::{AllocError, Global};
use task_model::{LARGEST_COUNT, Name, is_name};

/// Which objects may stand in a call.
#[derive(Clone, Copy, PartialEq, Eq, Debug)]
pub(crate) enum Objects {
    /// Declared and generated ones.
    Real,
    /// Those, and placeholders.
    Supposed,
}

/// Whether this is `#` and a value.
fn is_generated(field: &[u8]) -> bool
    ensures { (result ≡ true) ↔ IsGenerated field.now }
{
    match field.split_first() {
        Some((first, value)) => *first == b'#' && is_value(value),
        None => false,
    }
}

/// Whether this is a declared or a generated object.
pub(crate) fn is_object(field: &[u8]) -> bool
    ensures { (result ≡ true) ↔ IsObject field.now }
{
    is_name(field) || is_generated(field)
}

/// Whether this is `@j.i`, both numbers from 1.
fn is_placeholder(field: &[u8]) -> bool
    ensures { (result ≡ true) ↔ IsPlaceholder field.now }
{
    match field.split_first() {
        Some((first, rest)) => *first == b'@' && are_two_places(rest),
        None => false,
    }
}

/// Whether this is two numbers from 1 with a dot between them.
fn are_two_places(field: &[u8]) -> bool
    ensures { (result ≡ true) ↔ AreTwoPlaces field.now }
{
    let Some(dot) = first_dot(field) else {
        return false;
    };
    is_place(before(field, dot)) && is_place(behind(field, dot + 1))
}

fn first_dot(field: &[u8]) -> Option<usize>
    ensures { result ≡ position is_dot field.now }
{
    field.iter().position(|b| *b == b'.')
}

/// Whether this is a number from 1.
fn is_place(field: &[u8]) -> bool
    ensures { (result ≡ true) ↔ IsPlaceNumber field.now }
{
    match number_in(field) {
        Some(number) => number >= 1 && number <= LARGEST_COUNT as u64,
        None => false,
    }
}

/// Whether this may stand for an object.
pub(crate) fn is_argument(field: &[u8], objects: Objects) -> bool
    ensures { (result ≡ true) ↔ IsArgument objects field.now }
{
    match objects {
        Objects::Real => is_object(field),
        Objects::Supposed => is_object(field) || is_placeholder(field),
    }
}

/// The field as a name.
pub(crate) fn copied(alloc: Global, field: &[u8]) -> Result<Name, AllocError>
    ensures { IfOk result (λ name. name ≡ field.now) }
{
    Name::from_slice(alloc, field)
}
