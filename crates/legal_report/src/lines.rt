//! The lines of entries.
ghost use Rattle.std.specs.Prelude.{◌≡◌, ◌<◌, ◌^◌, length};
ghost use Rattle.std.specs.List.{flat_map};
ghost use Rattle.report_text.specs.Texts.{entry_lines};

use transcript_model::Entry;

/// How many lines an entry has.
fn line_count(entry: &Entry) -> usize
    requires { length (entry_lines entry.now) < 2 ^ 31 }
    ensures { result ≡ length (entry_lines entry.now) }
{
    match entry {
        Entry::Dream { uses, steps } => 1 + uses.len() + steps.len(),
        _ => 1,
    }
}

/// How many lines these entries have, fewer than 2^31.
pub fn lines_of(entries: &[Entry]) -> usize
    requires { length (flat_map entry_lines entries.now) < 2 ^ 31 }
    ensures { result ≡ length (flat_map entry_lines entries.now) }
{
    let mut lines = 0;
    for entry in entries {
        lines += line_count(entry);
    }
    lines
}
