//! Laws of the definitions in `specs/`, each the contract of a function that does nothing.
ghost use Rattle.shown_plan.specs.Laws.{ValidPlansHaveNames, ShownPlansAreTrue};

/// The steps of a valid plan have actions of the task, and objects with names.
pub fn valid_plans_have_names()
    ensures { ValidPlansHaveNames }
{}

/// An outcome that shows a valid plan is true.
pub fn shown_plans_are_true()
    ensures { ShownPlansAreTrue }
{}
