//! Laws of what names a run, each the contract of a function that does nothing.
ghost use Rattle.laws.specs.TextLaws.{OneTextOneRun};
ghost use Rattle.laws.specs.Spelled.{OneTalkOneMadeRun, OneTalkOneRun, OneWorkerSpellsOneRun};

/// Two runs of the program that solve tasks and write the same report have the same transcript,
/// outcome, mode and limits, whatever their words, their files and their children.
pub fn one_text_one_run()
    ensures { OneTextOneRun }
{}

/// Two runs over one task, with one head, in incremental mode and with one worker, have the same
/// transcript if the same was said with this worker.
pub fn one_worker_spells_one_run()
    ensures { OneWorkerSpellsOneRun }
{}

/// Two runs of the program over one task, with heads that differ in nothing but the words that
/// start their children, in incremental mode and with one worker, have the same transcript if the
/// same talk is told of this worker.
pub fn one_talk_one_run()
    ensures { OneTalkOneRun }
{}

/// Two runs of `generate` for one number have the same transcript if the same talk is told of
/// child 16, which is the grid's generator.
pub fn one_talk_one_made_run()
    ensures { OneTalkOneMadeRun }
{}
