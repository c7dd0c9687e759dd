//! Laws of plain runs, each the contract of a function that does nothing.
ghost use Rattle.turn_laws.specs.PlainLaws.{AnsweredRunsArePlain, BoundedRunsSettle, NoStreamsAreBounded, PlainRunsAreOne, PoolsDoNotMatter, SaidIsKnown, TranscriptsHaveTables};

/// What is known, noted and counted after a transcript depends on its requests and its answers
/// alone, each in one order.
pub fn said_is_known()
    ensures { SaidIsKnown }
{}

/// To one table of answers there is one plain run.
pub fn plain_runs_are_one()
    ensures { PlainRunsAreOne }
{}

/// A run in incremental mode whose generators answer by a table makes the requests of the plain run
/// over that table, in its order, knows the same in the end, and ends in the same way, whatever its
/// pools and whenever its answers come. Nothing is said of a run that ends with the limit of
/// states.
pub fn answered_runs_are_plain()
    ensures { AnsweredRunsArePlain }
{}

/// Runs over one table with the same limit of calls make the same requests in the same order, know
/// the same in the end and end in the same way, whatever their pools, unless one of them ends with
/// the limit of states.
pub fn pools_do_not_matter()
    ensures { PoolsDoNotMatter }
{}

/// Where every transcript that agrees with the table stays within the limits of calls and of
/// states, a run in any mode ends with a plan, or with none.
pub fn bounded_runs_settle()
    ensures { BoundedRunsSettle }
{}

/// Every table keeps a task without streams within the limits, where no more states are reached at
/// first than the limit allows.
pub fn no_streams_are_bounded()
    ensures { NoStreamsAreBounded }
{}

/// What is answered in a legal transcript is a table, and the transcript agrees with it; so there
/// is a table to each run.
pub fn transcripts_have_tables()
    ensures { TranscriptsHaveTables }
{}
