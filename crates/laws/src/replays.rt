//! What a run writes, a replay finds valid. These are laws, each the contract of a function that
//! does nothing.
ghost use Rattle.laws.specs.Migrated.{MigratedReportsAreFormed, MigratedReportsAreJudgedAlike};
ghost use Rattle.laws.specs.Solved.{CheapestReportsAreNotWrong, SolvedReportsAreValid};
ghost use Rattle.laws.specs.Written.{OnePoolIsOfReports, WrittenReportsAreValid};

/// What the program writes of a run with an outcome it finds valid where it judges it with the same
/// three texts and with a limit of at least the run's states, and where it doesn't judge the cost.
pub fn solved_reports_are_valid()
    ensures { SolvedReportsAreValid }
{}

/// What the program writes of a run with an outcome that was asked for the cheapest plan it doesn't
/// find wrong where it judges the cost too, with the same three texts and with a limit of at least
/// the run's states: it says that the report is valid, or that its limit doesn't decide it.
pub fn cheapest_reports_are_not_wrong()
    ensures { CheapestReportsAreNotWrong }
{}

/// Of a whole report that a run wrote a replay with the same task, and with a limit of at least the
/// run's states, says nothing but that it is valid.
pub fn written_reports_are_valid()
    ensures { WrittenReportsAreValid }
{}

/// The one pool of a run without a map, which serves all streams of the task, is such as that law
/// asks for.
pub fn one_pool_is_of_reports()
    ensures { OnePoolIsOfReports }
{}

/// A report has the stated forms in version 2 too.
pub fn migrated_reports_are_formed()
    ensures { MigratedReportsAreFormed }
{}

/// Of the text of a report of version 1 a replay says what it says of its text in version 2,
/// whatever the task and the limit: the same is wrong, in the same lines, and the same claims
/// aren't decided.
pub fn migrated_reports_are_judged_alike()
    ensures { MigratedReportsAreJudgedAlike }
{}
