//! The first batch of a dream alone.
ghost use Rattle.transcript_model.specs.declared.head.Mode.TheVariants.{Focused};

use crate::dream_turns::DreamBatches;
use crate::dreamless::turned;
use crate::dreamt::LinedDream;
use dream_asks::first_asks;
use io_world::{Host, Sink};
use optimistic_set::Tried;
use turn_run::{Desk, RunFault, Turned, ask_behind};

/// Focused mode asks what a dream needs first.
#[derive(Drop)]
pub(crate) struct FirstBatch;

impl DreamBatches for FirstBatch {
    ghost mode = { Focused };

    fn ask<H: Host, O: Sink>(
        &self,
        desk: &mut Desk<'_>,
        host: &mut H,
        out: &mut O,
        tried: &mut Tried,
        dream: LinedDream,
    ) -> Result<Turned, RunFault> {
        let facts = desk.session().facts();
        let queue = desk.session().queue();
        let real = facts.name_count();
        let needs = dream.entries.as_slice();
        let asks = first_asks(desk.alloc(), desk.task(), facts, queue, needs, real)?;
        tried.join(asks.as_slice())?;
        let ended = ask_behind(desk, host, out, dream.line, asks.as_slice())?;
        Ok(turned(ended))
    }

    ghost falls_back = { tt };
}
