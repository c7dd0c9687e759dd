//! Laws of runs over tables, each the contract of a function that does nothing.
ghost use Rattle.table_runs.specs.Laws.{AgreeingDialoguesSpeak, AnswersAreFew, DialoguesAgree, NamesArePrinted, RequestsGoToPools, RequestsHaveLines, TalkedRunsAreTabled, WorkersDoNotMatter};

/// The names of a legal transcript are printed: none is empty, and all bytes are from `!` to `~`.
pub fn names_are_printed()
    ensures { NamesArePrinted }
{}

/// A legal transcript has at most as many answers as requests.
pub fn answers_are_few()
    ensures { AnswersAreFew }
{}

/// Among the lines that are written to a child each of its requests has its own, which asks what
/// the request asks.
pub fn requests_have_lines()
    ensures { RequestsHaveLines }
{}

/// Where each child that is asked answers by a table, the answers of the transcript are the
/// table's, in any mode.
pub fn dialogues_agree()
    ensures { DialoguesAgree }
{}

/// Where all requests are answered, and each child that is asked tells what was said with it, they
/// answer by each table with which the transcript agrees, as that of its own answers.
pub fn agreeing_dialogues_speak()
    ensures { AgreeingDialoguesSpeak }
{}

/// A run whose children answer by a table is as the plain run over it, in incremental mode; and it
/// ends with a plan or with none, in any mode, where all transcripts that agree with the table stay
/// within its limits.
pub fn talked_runs_are_tabled()
    ensures { TalkedRunsAreTabled }
{}

/// Two runs whose children answer by the same table, with the same limit of calls, make the same
/// requests and hear the same answers, each in one order, know the same in the end and end in the
/// same way, whatever their pools and their workers, unless one of them ends with the limit of
/// states.
pub fn workers_do_not_matter()
    ensures { WorkersDoNotMatter }
{}

/// Each request of whole turns, of any mode, goes to a child of the pools.
pub fn requests_go_to_pools()
    ensures { RequestsGoToPools }
{}
