//! All batches of a dream.
ghost use Rattle.transcript_model.specs.declared.head.Mode.TheVariants.{Binding};

use crate::batches::Needs;
use crate::behind::run_behind;
use crate::dream_turns::DreamBatches;
use crate::dreamless::turned;
use crate::dreamt::LinedDream;
use io_world::{Host, Sink};
use optimistic_set::Tried;
use turn_run::{Desk, RunFault, Turned};

/// Binding mode asks all that a dream needs, batch by batch.
#[derive(Drop)]
pub(crate) struct AllBatches;

impl DreamBatches for AllBatches {
    ghost mode = { Binding };

    fn ask<H: Host, O: Sink>(
        &self,
        desk: &mut Desk<'_>,
        host: &mut H,
        out: &mut O,
        tried: &mut Tried,
        dream: LinedDream,
    ) -> Result<Turned, RunFault> {
        let LinedDream { line, entries } = dream;
        let real = desk.session().facts().name_count();
        let entries = entries.as_slice();
        let needs = Needs { entries, real };
        let ended = run_behind(desk, host, out, tried, line, &needs)?;
        Ok(turned(ended))
    }

    ghost falls_back = { tt };
}
