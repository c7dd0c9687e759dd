//! Laws of whole runs, each the contract of a function that does nothing.
ghost use Rattle.laws.specs.Memory.{BatchesLoseNoAnswer};
ghost use Rattle.laws.specs.Reports.{ReportsOfRunsAreFormed, TextsNameRuns};
ghost use Rattle.laws.specs.RunTables.{EarlierTalksStay, TablesNameRuns};

use io_world::{Host, Sink};

/// The report of a run of any mode has the forms of a report.
pub fn reports_of_runs_are_formed()
    ensures { ReportsOfRunsAreFormed }
{}

/// What a run of any mode writes names its transcript and its outcome.
pub fn texts_name_runs()
    ensures { TextsNameRuns }
{}

/// Two runs in incremental mode whose children answer by one table, with the same limit of calls,
/// make the same requests and hear the same answers, each in one order, know the same in the end
/// and end in the same way, whatever their pools and their workers, unless one of them ends with
/// the limit of states.
pub fn tables_name_runs()
    ensures { TablesNameRuns }
{}

/// What a generator said by a table in protocol 1 says in protocol 2 what it said, and the table is
/// one of protocol 2 too.
pub fn earlier_talks_stay()
    ensures { EarlierTalksStay }
{}

/// A batch that stops where memory is wanting loses no answer to a request that it has printed: none
/// waits for its answer, or the last call on a child was refused for want of memory.
pub fn batches_lose_no_answer<H: Host, O: Sink>()
    ensures { BatchesLoseNoAnswer H.Host O.Sink }
{}
