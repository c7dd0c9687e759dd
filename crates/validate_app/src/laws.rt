//! Laws of the definitions in `specs/`, each the contract of a function that does nothing.
ghost use Rattle.validate_app.specs.Laws.{OutcomesAreUnique, SpelledPlansAreJudged};

/// Of words and told files one outcome is right, unless memory is wanting or a file failed: one
/// verdict with one claim, or one fault at one place of one file.
pub fn outcomes_are_unique()
    ensures { OutcomesAreUnique }
{}

/// Where the files spell a task, a legal transcript and a plan, a verdict holds.
pub fn spelled_plans_are_judged()
    ensures { SpelledPlansAreJudged }
{}
