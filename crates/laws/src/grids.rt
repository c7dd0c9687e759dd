//! Laws of runs over the grid's answers, each the contract of a function that does nothing.
ghost use Rattle.laws.specs.GridLaws.{GridRunsArePlain, GridTablesAnswer, GridTalksAreTheGrid, GridTasksHaveStreams, GridsAnswerMadeRuns, MadeRunsAskOneChild};

/// What was said with the grid's generator speaks by the grid's answers, for each task that has the
/// grid's streams.
pub fn grid_talks_are_the_grid()
    ensures { GridTalksAreTheGrid }
{}

/// The tasks that are made for numbers have the grid's streams.
pub fn grid_tasks_have_streams()
    ensures { GridTasksHaveStreams }
{}

/// In a run of `generate` child 16, which is the grid's generator, is the only one that is asked.
pub fn made_runs_ask_one_child()
    ensures { MadeRunsAskOneChild }
{}

/// Where each child that was asked is the grid's generator with the number's grid, the children of
/// a run of `generate` speak by that grid's answers.
pub fn grids_answer_made_runs()
    ensures { GridsAnswerMadeRuns }
{}

/// A run of `generate` whose children speak by the grid's answers is as the plain run over them,
/// and prints that one's end and numbers, unless it ends with the limit of states.
pub fn grid_runs_are_plain()
    ensures { GridRunsArePlain }
{}

/// A table whose rows are the grid's answers, with a row for each request, answers as the grid
/// does.
pub fn grid_tables_answer()
    ensures { GridTablesAnswer }
{}
