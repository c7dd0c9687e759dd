//! Laws of plans that are acted out on the grid, each the contract of a function that does nothing.
ghost use Rattle.play_laws.specs.Laws.{NumbersAreGridProblems, TruePlansAreSafe, TrueReportsPlaySafely};

/// A plan that a legal transcript certifies, with the grid's own answers on a problem that tells
/// the grid, is acted out without a fault.
pub fn true_plans_are_safe()
    ensures { TruePlansAreSafe }
{}

/// The plan of a valid report, with the grid's own answers on such a problem, is acted out safely.
pub fn true_reports_play_safely()
    ensures { TrueReportsPlaySafely }
{}

/// The task of each number, from 1 to 12, is a problem that tells its grid.
pub fn numbers_are_grid_problems()
    ensures { NumbersAreGridProblems }
{}
