//! Laws of the definitions in `specs/`, each the contract of a function that does nothing.
ghost use Rattle.grid_world.specs.Laws.{PlacesAreByCells, PoseWordsAreSpelled};

/// The poses of a block in a region are exactly those with which, cell by cell, it lies in the
/// region and in no obstacle.
pub fn places_are_by_cells()
    ensures { PlacesAreByCells }
{}

/// A pose word with `#` is the decimal spelling of its corner, and each corner below 2^32 has one.
pub fn pose_words_are_spelled()
    ensures { PoseWordsAreSpelled }
{}
