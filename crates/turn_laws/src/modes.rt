//! Laws of the definitions in `specs/`, each the contract of a function that does nothing.
ghost use Rattle.turn_laws.specs.ModeLaws.{BatchesExist, CallsAreKept, FrontsAreBegun, FrontsAreLazy, TurnsAreOfTheMode, WholeTurnsLead};

/// The turns of a mode are the turns of the one family.
pub fn turns_are_of_the_mode()
    ensures { TurnsAreOfTheMode }
{}

/// A transcript stops between two turns exactly where whole turns lead through it.
pub fn whole_turns_lead()
    ensures { WholeTurnsLead }
{}

/// The front of a list of turns is one, whatever its mode carries.
pub fn fronts_are_begun()
    ensures { FrontsAreBegun }
{}

/// Behind any transcript the batches of a dream's entries have an end, where each pool has a
/// worker.
pub fn batches_exist()
    ensures { BatchesExist }
{}

/// No mode makes more requests than the limit allows.
pub fn calls_are_kept()
    ensures { CallsAreKept }
{}

/// A front of a lazy transcript is lazy.
pub fn fronts_are_lazy()
    ensures { FrontsAreLazy }
{}
