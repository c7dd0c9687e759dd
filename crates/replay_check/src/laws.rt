//! Laws of the definitions in `specs/`, each the contract of a function that does nothing.
ghost use Rattle.replay_check.specs.Laws.{RightReportsAreValid, VerdictsAreUnique};

/// Of the text of a report that is right, and whose claim is decided within the limit, a replay
/// says nothing but that it is valid.
pub fn right_reports_are_valid()
    ensures { RightReportsAreValid }
{}

/// Of one text, with one limit, a replay says one thing.
pub fn verdicts_are_unique()
    ensures { VerdictsAreUnique }
{}
