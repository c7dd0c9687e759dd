//! Laws of the definitions in `specs/`, each the contract of a function that does nothing.
ghost use Rattle.task_reader.specs.Fitness.{SpelledTasksAreFit};
ghost use Rattle.task_reader.specs.Spelled.{SpelledTextsAreNotRefused, TextsSpellOneTask};

/// The task that three texts of at most 4 MiB spell is fit.
pub fn spelled_tasks_are_fit()
    ensures { SpelledTasksAreFit }
{}

/// Three texts spell one task at most.
pub fn texts_spell_one_task()
    ensures { TextsSpellOneTask }
{}

/// Where three texts spell a task, none of them is refused.
pub fn spelled_texts_are_not_refused()
    ensures { SpelledTextsAreNotRefused }
{}
