//! Laws of the definitions in `specs/`, each the contract of a function that does nothing.
ghost use Rattle.report_text.specs.Laws.{TextsDetermineReports};

/// The text of a report determines it: reports whose names, values and numbers have the stated
/// forms differ only where their texts do.
pub fn texts_determine_reports()
    ensures { TextsDetermineReports }
{}
