//! Laws of the definitions in `specs/`, each the contract of a function that does nothing.
ghost use Rattle.course_check.specs.Laws.{LeftIsOne, LevelCoursesAreOne, LevelCoursesAreTurns, ModeCoursesAreOne, ModeCoursesAreTurns, TurnsAreLevelCourses, TurnsAreModeCourses};

/// Entries that may come one after another are turns of the mode, the last of which may stop at any
/// entry.
pub fn courses_are_turns()
    ensures { ModeCoursesAreTurns }
{}

/// The entries of such turns may come one after another.
pub fn turns_are_courses()
    ensures { TurnsAreModeCourses }
{}

/// The same entries lead to one place.
pub fn courses_are_one()
    ensures { ModeCoursesAreOne }
{}

/// What is carried behind whole turns is what the place keeps where they lead.
pub fn left_is_one()
    ensures { LeftIsOne }
{}

/// Levels alone, one after another, are turns of incremental mode, the last of which may stop at
/// any entry.
pub fn level_courses_are_turns()
    ensures { LevelCoursesAreTurns }
{}

/// The entries of turns of incremental mode may come one after another, as levels.
pub fn turns_are_level_courses()
    ensures { TurnsAreLevelCourses }
{}

/// The same entries of levels lead to one place.
pub fn level_courses_are_one()
    ensures { LevelCoursesAreOne }
{}
