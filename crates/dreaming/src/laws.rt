//! Laws of dreams, each the contract of a function that does nothing.
ghost use Rattle.dreaming.specs.Laws.{PlaceholdersAreOwn, SureIsNone};

/// Where `dream` answers `Empty` there is no dream, as the line `none` of a report says it.
pub fn sure_is_none()
    ensures { SureIsNone }
{}

/// No placeholder has the name of another object.
pub fn placeholders_are_own()
    ensures { PlaceholdersAreOwn }
{}
