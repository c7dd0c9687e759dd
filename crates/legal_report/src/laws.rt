//! Laws of the definitions in `specs/`, each the contract of a function that does nothing.
ghost use Rattle.legal_report.specs.Laws.{LegalReportsAreNotRefused, ReportsAreRefusedOnce, TextsHaveOneTranscript};

/// A text has one legal transcript at most.
pub fn texts_have_one_transcript()
    ensures { TextsHaveOneTranscript }
{}

/// A text with a legal transcript is refused for nothing.
pub fn legal_reports_are_not_refused()
    ensures { LegalReportsAreNotRefused }
{}

/// A text is refused in one line, for one flaw.
pub fn reports_are_refused_once()
    ensures { ReportsAreRefusedOnce }
{}
