//! The inputs of a request, of which each stream has its number.
ghost use Rattle.std.specs.Prelude.{◌≡◌, option_map};
ghost use Rattle.gen_lines.specs.Reply.{fields};
ghost use Rattle.grid_world.specs.Inputs as specs;

use grid_text::first_field;

/// One field and nothing more.
pub(crate) fn one_field(line: &[u8]) -> Option<&[u8]>
    ensures { option_map (λ f. f.now) result ≡ specs.one_of (fields line.now) }
{
    let (first, rest) = first_field(line)?;
    if let Some(_) = first_field(rest) {
        return None;
    }
    Some(first)
}

/// Two fields and nothing more.
pub(crate) fn two_fields(line: &[u8]) -> Option<(&[u8], &[u8])>
    ensures { option_map (λ f. (f.0.now, f.1.now)) result ≡ specs.two_of (fields line.now) }
{
    let (first, rest) = first_field(line)?;
    let (second, rest) = first_field(rest)?;
    if let Some(_) = first_field(rest) {
        return None;
    }
    Some((first, second))
}

/// Three fields and nothing more.
pub(crate) fn three_fields(line: &[u8]) -> Option<(&[u8], &[u8], &[u8])>
    ensures { option_map (λ f. (f.0.now, f.1.now, f.2.now)) result
        ≡ specs.three_of (fields line.now) }
{
    let (first, rest) = first_field(line)?;
    let (second, rest) = first_field(rest)?;
    let (third, rest) = first_field(rest)?;
    if let Some(_) = first_field(rest) {
        return None;
    }
    Some((first, second, third))
}
