//! Entries that are neither requests nor answers.
ghost use Rattle.std.specs.Prelude.{◌≡◌, true, false};
ghost use Rattle.round_run.specs.Desk.{MarksEntry};
ghost use Rattle.session_core.specs.Session.{IsLearnt};
ghost use Rattle.transcript_model.specs.Legal.{is_mark};

use crate::entry_print::print_entry;
use crate::fault::RunFault;
use io_world::Sink;
use session_core::Session;
use transcript_model::Entry;

/// Puts an entry behind the transcript that is neither a request nor an answer, and writes its
/// lines. Memory is taken before the first of them is written.
///
/// # Errors
/// `Write` only where the sink's count of faults rose in this call; `Memory`, and then nothing was
/// written.
pub(crate) fn mark<O: Sink>(
    session: &mut Session,
    out: &mut O,
    entry: Entry,
) -> Result<(), RunFault>
    requires mark { is_mark entry ≡ true }
    requires working { session.old.failed ≡ false }
    requires learnt { IsLearnt session.old }
    ensures marks { MarksEntry entry session.old session.new (O.taken out.old) (O.taken out.new)
        (O.faults out.old) (O.faults out.new) result }
{
    session.mark(entry)?;
    match session.entries().last() {
        Some(last) => print_entry(out, last),
        None => unreachable!(),
    }
}
