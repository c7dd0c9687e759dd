//! Laws of the first worked task, each the contract of a function that does nothing.
ghost use Rattle.witness_laws.specs.Laws.{FirstTaskIsBounded, FirstTaskIsSpelled};
ghost use Rattle.witness_laws.specs.Level.{IsFirstRun};

/// The three texts of the first worked task spell it.
pub fn the_first_task_is_spelled()
    ensures { FirstTaskIsSpelled }
{}

/// No transcript that agrees with the first worked task's table has more than two requests, and
/// over what it knows no more than eight states are reached.
pub fn the_first_task_is_bounded()
    ensures { FirstTaskIsBounded }
{}

/// A transcript of the task is legal and one whole level, which began where no plan existed, and
/// behind it a plan of two steps is true.
pub fn the_first_task_is_solved()
    ensures { IsFirstRun }
{}
