//! Laws of readings, each the contract of a function that does nothing.
ghost use Rattle.reader_laws.specs.Laws.{EachTextIsRead, FaultsAreLeast, TreesAreSpelled};

/// A text is read as the one tree that it spells, and else as its least fault.
pub fn texts_are_read_as_they_are_spelled()
    ensures trees { TreesAreSpelled }
    ensures faults { FaultsAreLeast }
    ensures either { EachTextIsRead }
{}
