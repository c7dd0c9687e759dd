//! Plans, from bytes.
ghost use Rattle.std.specs.Prelude.{◌≡◌, ◌+◌, ◌≤◌, length, IfOk, IfErr, OnOk};
ghost use Rattle.task_reader.specs.Refusals.{Refuses};
ghost use Rattle.plan_reader.specs.Plans.{AddsStep, RefusesPlan, SpellsPlan, refusal_at};
ghost use Rattle.plan_reader.specs.Steps.{LineFails, said_by};

use crate::fault::LineFault;
use crate::line::{Cut, cut_line};
use crate::step::said_by;
use std::alloc::Global;
use task_reader::InputRefusal;
use transcript_model::Call;

/// The longest text of a plan, in bytes: 32 MiB (this project's).
pub const PLAN_BYTES: usize = 33_554_432;

/// The refusal of a plan whose line at this place has the fault.
fn refused(fault: LineFault, place: usize) -> InputRefusal
    ensures { result ≡ refusal_at fault place }
{
    match fault {
        LineFault::Wrong(kind) => InputRefusal::At { kind, place },
        LineFault::Memory => InputRefusal::Memory,
    }
}

/// Puts the step behind the others that the line says, if it says one. For want of memory the steps
/// may be as they were.
fn add_said(alloc: Global, calls: &mut Vec<Call>, line: &[u8]) -> Result<(), LineFault>
    ensures added { OnOk result (AddsStep calls.old.items line.now calls.new.items) }
    ensures few { length calls.new.items ≤ length calls.old.items + 1 }
    ensures wrong { IfErr result (λ fault. LineFails fault (said_by line.now)) }
{
    if let Some(call) = said_by(alloc, line)? {
        calls.push(call)?;
    }
    Ok(())
}

/// The steps of a plan's text, a step a line, as planners write them.
///
/// A step is the name of an action and the names of its objects in parentheses, in any case. A
/// number with a `:` may stand in front of it, as `3:` or `0.003:`, and something in brackets
/// behind it, as `[1]`; both are passed over. A comment runs from `;` to the line's end; lines with
/// nothing else are passed over.
///
/// # Errors
///
/// - `At`: a line is no step. The place is that of the first byte of the first such line, in bytes
///   from the text's beginning, and the kind is what is wrong with it: a byte that may not stand, a
///   list that isn't closed, something in front of it or behind it, or a list without a name or
///   with a list in it (`Shape`).
/// - `Memory`: memory ran out, which says nothing of the text.
pub fn plan_in(alloc: Global, text: &[u8]) -> Result<Vec<Call>, InputRefusal>
    ensures read { IfOk result (λ calls. SpellsPlan text.now calls.items) }
    ensures refused { IfErr result (Refuses (RefusesPlan text.now)) }
    // There are at most as many steps as lines.
    ensures few { IfOk result (λ calls. length calls.items ≤ length text.now + 1) }
{
    let mut calls = Vec::new(alloc);
    let mut left = Some(text);
    'lines: while let Some(rest) = left {
        let Cut { line, rest: behind } = cut_line(rest);
        match add_said(alloc, &mut calls, line) {
            Ok(()) => left = behind,
            Err(fault) => return Err(refused(fault, text.len() - rest.len())),
        }
    }
    Ok(calls)
}
