//! The entries of a report, one after another.
ghost use Rattle.std.specs.Prelude.{[], All, IfOk};
ghost use Rattle.replay_check.specs.Standings.{AreBounds, IsStanding};
ghost use Rattle.replay_check.specs.Walks.{CanTake, IsEntryTaken, IsWalked};
ghost use Rattle.report_text.specs.Forms.{IsFormedEntry};

use crate::bounds::Bounds;
use crate::finding::Finding;
use crate::standing::Standing;
use crate::verdict::BreachKind;
use learning::answered;
use legal_report::Request;
use std::alloc::AllocError;
use transcript_model::Entry;

impl Standing {
    /// Takes the entry at this place, and answers what is found of it.
    fn take(
        &mut self,
        bounds: &Bounds<'_>,
        entries: &[Entry],
        place: usize,
    ) -> Result<Finding, AllocError>
        requires can { CanTake bounds.now entries.now place self.old }
        ensures { IfOk result (IsEntryTaken bounds.now entries.now place self.new) }
    {
        let entry = &entries[place];
        if let Some(number) = answered(entry) {
            return self.take_answer(bounds, number, entries, place);
        }
        match entry {
            Entry::Ask { number, turn, call } => {
                let (number, turn) = (*number, *turn);
                self.take_ask(bounds, &Request { number, turn, call }, entries, place)
            }
            Entry::Level => self.take_level(bounds, entries, place),
            Entry::Dream { uses, steps } => {
                self.take_dream(bounds, uses.as_slice(), steps.as_slice(), entries, place)
            }
            Entry::Nothing => self.take_none(bounds, entries, place),
            Entry::Reset => Ok(self.take_reset(bounds, entries, place)),
            Entry::Pick(number) => self.take_pick(bounds, *number, entries, place),
            Entry::Retire(number) => Ok(self.take_retire(bounds, *number, entries, place)),
            _ => Ok(Finding::Breaks(0, BreachKind::Order)),
        }
    }
}

/// What entries come to.
#[derive(Clone, Copy)]
pub(crate) enum Walked {
    /// The entry at this place, from 0, is wrong, first in this line, from 0 for its own first;
    /// nothing before it is.
    Breaks(usize, usize, BreachKind),
    /// The claim of the entry at this place, from 0, can't be decided, and nothing before it is
    /// wrong.
    Open(usize),
    /// None is wrong.
    Ends,
}

/// Takes all entries, up to the first that is wrong or whose claim can't be decided. The standing is
/// that before the first entry.
pub(crate) fn walk(
    bounds: &Bounds<'_>,
    standing: &mut Standing,
    entries: &[Entry],
) -> Result<Walked, AllocError>
    requires bounds { AreBounds bounds.now }
    requires formed { All (IsFormedEntry bounds.now.version) entries.now }
    requires standing { IsStanding bounds.now [] standing.old }
    ensures { IfOk result (IsWalked bounds.now entries.now standing.new) }
{
    for place in 0..entries.len() {
        match standing.take(bounds, entries, place)? {
            Finding::Holds => {}
            Finding::Breaks(line, kind) => return Ok(Walked::Breaks(place, line, kind)),
            Finding::Open => return Ok(Walked::Open(place)),
        }
    }
    Ok(Walked::Ends)
}
