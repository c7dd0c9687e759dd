//! Laws of runs whose children are started again, each the contract of a function that does
//! nothing.
ghost use Rattle.restart_runs.specs.Laws.{AgainDialoguesAgree, AgainRunsAreTabled, BrokenCallsAreBrought, OuterCallsAreBrought, OuterRunsAreTabled, RestartsChangeNothing, RestartsDoNotMatter};

/// Where each child answers by a table in each of its lives, the answers of the transcript are the
/// table's, in any mode.
pub fn again_dialogues_agree()
    ensures { AgainDialoguesAgree }
{}

/// A run over a host that starts its children again leaves on the host below the calls of such a run: each request is
/// brought whole, and each answer's line is fetched, at the place of its request in one life of its child.
pub fn outer_calls_are_brought()
    ensures { OuterCallsAreBrought }
{}

/// A run over such a host that stops before it has an outcome leaves there the calls of such a run,
/// up to where it broke off: tries of one entry more, for a fault of a generator; and for a line
/// that is no answer, that line at the place of its request in one life of its child.
pub fn broken_calls_are_brought()
    ensures { BrokenCallsAreBrought }
{}

/// So it comes to what runs do whose children are started again.
pub fn outer_runs_are_tabled()
    ensures { OuterRunsAreTabled }
{}

/// A run whose children answer by a table in each of their lives is as the plain run over it, in
/// incremental mode; and it ends with a plan or with none, in any mode, where all transcripts that
/// agree with the table stay within its limits.
pub fn again_runs_are_tabled()
    ensures { AgainRunsAreTabled }
{}

/// A run whose children are started again says and comes to the same as one whose children aren't,
/// where both answer by the same table, with the same limit of calls, whatever their pools and
/// their workers, unless one of them ends with the limit of states.
pub fn restarts_do_not_matter()
    ensures { RestartsDoNotMatter }
{}

/// A run whose children are started again has the transcript of the run without faults, entry by
/// entry, where both have one head and their children answer by the same table, in incremental
/// mode, unless one of them ends with the limit of states.
pub fn restarts_change_nothing()
    ensures { RestartsChangeNothing }
{}
