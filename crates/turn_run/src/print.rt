//! Writing of the report's first lines and of its last.
ghost use Rattle.std.specs.Prelude.{◌≡◌, IfErr};
ghost use Rattle.io_world.specs.Faults.{last_count, HasCause};
ghost use Rattle.turn_run.specs.Reports.{AreStreamsOf, text_of_end};
ghost use Rattle.report_text.specs.Prints.{Prints};
ghost use Rattle.report_text.specs.Texts.{text_of_head};
ghost use Rattle.round_run.specs.declared.fault.RunFault.TheVariants.{Write};

use io_world::{Sink, write_all};
use report_text::{put_head, put_outcome};
use round_run::RunFault;
use task_model::Task;
use transcript_model::{Head, Outcome};

/// Writes the head.
pub(crate) fn print_head<O: Sink>(task: &Task, head: &Head, out: &mut O) -> Result<(), RunFault>
    requires streams { AreStreamsOf task.now head.now }
    ensures told { Prints result (O.taken out.old) (O.taken out.new)
        (text_of_head task.now head.now) }
    ensures only { IfErr result (λ fault. fault ≡ Write) }
    ensures cause { HasCause Write last_count (O.faults out.old) (O.faults out.new) result }
{
    put_head(out, task, head)?;
    Ok(())
}

/// Writes the outcome, and that the report is done.
pub(crate) fn print_end<O: Sink>(
    out: &mut O,
    outcome: &Outcome,
    version: u8,
) -> Result<(), RunFault>
    ensures told { Prints result (O.taken out.old) (O.taken out.new)
        (text_of_end version outcome.now) }
    ensures only { IfErr result (λ fault. fault ≡ Write) }
    ensures cause { HasCause Write last_count (O.faults out.old) (O.faults out.new) result }
{
    put_outcome(out, outcome, version)?;
    write_all(out, b"done\n")?;
    Ok(())
}
