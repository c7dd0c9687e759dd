//! Writing of entries.
ghost use Rattle.std.specs.Prelude.{◌≡◌, IfErr};
ghost use Rattle.io_world.specs.Faults.{last_count, HasCause};
ghost use Rattle.report_text.specs.Prints.{Prints};
ghost use Rattle.report_text.specs.Texts.{text_of_entry};
ghost use Rattle.round_run.specs.declared.fault.RunFault.TheVariants.{Write};

use crate::fault::RunFault;
use io_world::Sink;
use report_text::put_entry;
use transcript_model::Entry;

/// Writes the lines of an entry.
///
/// # Errors
/// `Write` where the sink took no more, and only where its count of faults rose; the first bytes
/// may have been written.
pub(crate) fn print_entry<O: Sink>(out: &mut O, entry: &Entry) -> Result<(), RunFault>
    ensures told { Prints result (O.taken out.old) (O.taken out.new) (text_of_entry entry.now) }
    ensures only { IfErr result (λ fault. fault ≡ Write) }
    ensures cause { HasCause Write last_count (O.faults out.old) (O.faults out.new) result }
{
    put_entry(out, entry)?;
    Ok(())
}
