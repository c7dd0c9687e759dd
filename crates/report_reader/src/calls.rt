//! Lists of names, and calls.
ghost use Rattle.std.specs.Prelude.{IfOk, All};
ghost use Rattle.report_text.specs.Forms.{IsFormedCall, IsName};
ghost use Rattle.report_text.specs.Texts.{call_fields};
ghost use Rattle.report_reader.specs.Finding.{Finds};
ghost use Rattle.report_reader.specs.Objects.{IsArgument};

use crate::fields::Fields;
use crate::objects::{Objects, copied, is_argument};
use std::alloc::{AllocError, Global};
use task_model::{Name, Seq, is_name};
use transcript_model::Call;

/// The fields that are left, if all may stand for objects.
#[tactic(auto, using(crate::proofs::FindingLemmas::push_row, crate::proofs::FindingLemmas::all_push, crate::proofs::FindingLemmas::spoiled))]
fn arguments_in(
    alloc: Global,
    fields: &mut Fields<'_>,
    objects: Objects,
) -> Result<Option<Seq<Name>>, AllocError>
    ensures { IfOk result (λ found. Finds (All (IsArgument objects)) (λ names. names) found
        fields.old) }
{
    let mut names = Vec::with_capacity(alloc, fields.len())?;
    while let Some(field) = fields.next() {
        if !is_argument(field, objects) {
            return Ok(None);
        }
        names.push(copied(alloc, field)?)?;
    }
    Ok(Some(Seq::from_vec(names)))
}

/// The fields that are left, if all are names.
#[tactic(auto, using(crate::proofs::FindingLemmas::push_row, crate::proofs::FindingLemmas::all_push, crate::proofs::FindingLemmas::spoiled))]
pub(crate) fn names_in(
    alloc: Global,
    fields: &mut Fields<'_>,
) -> Result<Option<Seq<Name>>, AllocError>
    ensures { IfOk result (λ found. Finds (All IsName) (λ names. names) found fields.old) }
{
    let mut names = Vec::with_capacity(alloc, fields.len())?;
    while let Some(field) = fields.next() {
        if !is_name(field) {
            return Ok(None);
        }
        names.push(copied(alloc, field)?)?;
    }
    Ok(Some(Seq::from_vec(names)))
}

/// The call that the fields write which are left.
pub(crate) fn call_in(
    alloc: Global,
    fields: &mut Fields<'_>,
    objects: Objects,
) -> Result<Option<Call>, AllocError>
    ensures { IfOk result (λ found. Finds (IsFormedCall (IsArgument objects)) call_fields found
        fields.old) }
{
    let Some(head) = fields.next() else {
        return Ok(None);
    };
    if !is_name(head) {
        return Ok(None);
    }
    let name = copied(alloc, head)?;
    let Some(args) = arguments_in(alloc, fields, objects)? else {
        return Ok(None);
    };
    Ok(Some(Call { name, args }))
}
