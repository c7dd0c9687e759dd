//! Fields of lines, put behind a text.
ghost use Rattle.std.specs.Prelude.{◌≡◌, ◌∷◌, ◌++◌, OnOk};
ghost use Rattle.std.specs.Fmt.{decimal};
ghost use Rattle.report_text.specs.Texts.{do_line, fields_text, line_text};

use itoa::Buffer;
use std::alloc::AllocError;
use task_model::Name;
use transcript_model::Call;

/// Puts a space and a field behind the text.
fn put_field(text: &mut Vec<u8>, field: &[u8]) -> Result<(), AllocError>
    ensures { OnOk result (text.new.items ≡ text.old.items ++ 32 ∷ field.now) }
{
    text.push(b' ')?;
    text.extend_from_slice(field)
}

/// Puts a space and a number behind the text.
pub(crate) fn put_number(text: &mut Vec<u8>, number: usize) -> Result<(), AllocError>
    ensures { OnOk result (text.new.items ≡ text.old.items ++ 32 ∷ decimal number) }
{
    let mut digits = Buffer::new();
    put_field(text, digits.format(number).as_bytes())
}

/// Puts each name behind the text, with a space before it.
fn put_names(text: &mut Vec<u8>, names: &[Name]) -> Result<(), AllocError>
    ensures { OnOk result (text.new.items ≡ text.old.items ++ fields_text names.now) }
{
    for name in names {
        put_field(text, name.bytes())?;
    }
    Ok(())
}

/// Puts the line of a step behind the text, as a report shows it.
pub(crate) fn put_step(text: &mut Vec<u8>, call: &Call) -> Result<(), AllocError>
    ensures { OnOk result (text.new.items ≡ text.old.items ++ line_text (do_line call.now)) }
{
    text.extend_from_slice(b"do")?;
    put_field(text, call.name.bytes())?;
    put_names(text, call.args.as_slice())?;
    text.extend_from_slice(b"\n")
}
