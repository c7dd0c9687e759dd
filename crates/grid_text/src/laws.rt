//! Laws of the definitions in `specs/`, each the contract of a function that does nothing.
ghost use Rattle.grid_text.specs.Laws.{MeetingIsByCells, ReadHasCells, ReadIsAscii, WithinIsByCells};

/// Comparing corners says whether all cells of a rectangle are cells of another.
pub fn within_is_by_cells()
    ensures { WithinIsByCells }
{}

/// Comparing corners says whether two rectangles have a cell in common.
pub fn meeting_is_by_cells()
    ensures { MeetingIsByCells }
{}

/// A text that is read as a grid has ASCII bytes alone.
pub fn read_is_ascii()
    ensures { ReadIsAscii }
{}

/// Each block, region and obstacle of a grid that is read has a cell.
pub fn read_has_cells()
    ensures { ReadHasCells }
{}
