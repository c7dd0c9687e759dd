//! The text of an order: its counts, its steps, its pairs and its stages.
ghost use Rattle.std.specs.Prelude.{◌≡◌, ◌++◌, ◌+◌, IfOk, OnOk, map};
ghost use Rattle.std.specs.Fmt.{decimal};
ghost use Rattle.lemmas.specs.Lists.{numbers_from};
ghost use Rattle.order_text.specs.Texts.{before_line, order_line, order_text, stage_line, steps_of_stage};
ghost use Rattle.plan_deorder.specs.Orders.{greatest};
ghost use Rattle.report_text.specs.Texts.{do_line, fields_text, line_text, lines_text};

use crate::fields::{put_number, put_step};
use plan_deorder::Order;
use std::alloc::{AllocError, Global};
use transcript_model::Call;

/// The greatest of some stages, and 0 of none.
fn greatest(stages: &[u32]) -> u32
    ensures { result ≡ greatest stages.now }
{
    let mut most = 0;
    for stage in stages {
        most = (*stage).max(most);
    }
    most
}

/// Puts the line of the counts behind the text.
fn put_counts(text: &mut Vec<u8>, calls: &[Call], order: &Order) -> Result<(), AllocError>
    ensures { OnOk result (text.new.items
        ≡ text.old.items ++ line_text (order_line calls.now order.now)) }
{
    text.extend_from_slice(b"order")?;
    put_number(text, calls.len())?;
    put_number(text, order.pairs.len())?;
    put_number(text, greatest(order.stages.as_slice()) as usize)?;
    text.extend_from_slice(b"\n")
}

/// Puts the lines of the steps behind the text.
fn put_steps(text: &mut Vec<u8>, calls: &[Call]) -> Result<(), AllocError>
    ensures { OnOk result (text.new.items
        ≡ text.old.items ++ lines_text (map do_line calls.now)) }
{
    for call in calls {
        put_step(text, call)?;
    }
    Ok(())
}

/// Puts the line of a pair behind the text.
fn put_pair(text: &mut Vec<u8>, first: u32, second: u32) -> Result<(), AllocError>
    ensures { OnOk result (text.new.items
        ≡ text.old.items ++ line_text (before_line (first, second))) }
{
    text.extend_from_slice(b"before")?;
    put_number(text, first as usize)?;
    put_number(text, second as usize)?;
    text.extend_from_slice(b"\n")
}

/// Puts the lines of the pairs behind the text.
fn put_pairs(text: &mut Vec<u8>, pairs: &[(u32, u32)]) -> Result<(), AllocError>
    ensures { OnOk result (text.new.items
        ≡ text.old.items ++ lines_text (map before_line pairs.now)) }
{
    for (first, second) in pairs {
        put_pair(text, *first, *second)?;
    }
    Ok(())
}

/// Puts the numbers of a stage's steps behind the text.
fn put_members(text: &mut Vec<u8>, stages: &[u32], stage: u32) -> Result<(), AllocError>
    ensures { OnOk result (text.new.items ≡ text.old.items
        ++ fields_text (map decimal (steps_of_stage stages.now stage))) }
{
    for (place, other) in stages.iter().enumerate() {
        if stage == *other {
            put_number(text, place + 1)?;
        }
    }
    Ok(())
}

/// Puts the line of a stage behind the text.
fn put_stage(text: &mut Vec<u8>, stages: &[u32], stage: u32) -> Result<(), AllocError>
    ensures { OnOk result (text.new.items
        ≡ text.old.items ++ line_text (stage_line stages.now stage)) }
{
    text.extend_from_slice(b"stage")?;
    put_number(text, stage as usize)?;
    put_members(text, stages, stage)?;
    text.extend_from_slice(b"\n")
}

/// Puts the lines of the stages behind the text.
fn put_stages(text: &mut Vec<u8>, stages: &[u32]) -> Result<(), AllocError>
    ensures { OnOk result (text.new.items ≡ text.old.items
        ++ lines_text (map (stage_line stages.now) (numbers_from 1 (greatest stages.now)))) }
{
    for below in 0..greatest(stages) {
        put_stage(text, stages, below + 1)?;
    }
    Ok(())
}

/// Puts the lines of an order behind the text.
fn put_order(text: &mut Vec<u8>, calls: &[Call], order: &Order) -> Result<(), AllocError>
    ensures { OnOk result (text.new.items ≡ text.old.items ++ order_text calls.now order.now) }
{
    put_counts(text, calls, order)?;
    put_steps(text, calls)?;
    put_pairs(text, order.pairs.as_slice())?;
    put_stages(text, order.stages.as_slice())?;
    text.extend_from_slice(b"done\n")
}

/// The lines of the order of a plan with these steps: how many steps, pairs and stages there are;
/// the steps as a report shows them; for each pair the step that stays before another; for each
/// stage its steps; and `done`. Steps and stages are numbered from 1. Fails only where memory is
/// wanting.
pub fn order_text(alloc: Global, calls: &[Call], order: &Order) -> Result<Vec<u8>, AllocError>
    ensures { IfOk result (λ text. text.items ≡ order_text calls.now order.now) }
{
    let mut text = Vec::new(alloc);
    put_order(&mut text, calls, order)?;
    Ok(text)
}
