//! Laws of the definitions in `specs/`, each the contract of a function that does nothing.
ghost use Rattle.task_model.specs.Examples.{WorkedExamples};
ghost use Rattle.task_model.specs.Laws.{TruthIgnoresOtherSlots, EffectsAreExact, PartsMakeTheWhole, ExecutionIsDetermined, InitialStateIsReached, MoreIsMoreThanFewer, FactsAreDecided, FactsStayDistinct};

/// Truth depends only on the slots that stand in the condition's terms.
pub fn truth_ignores_other_slots()
    ensures { TruthIgnoresOtherSlots }
{}

/// An atom is there after an action exactly where it is added, or was there and isn't deleted (PDDL
/// 2.1).
pub fn effects_are_exact()
    ensures { EffectsAreExact }
{}

/// To execute a list of steps is to execute its front and then the rest.
pub fn parts_make_the_whole()
    ensures { PartsMakeTheWhole }
{}

/// The state to which a list of steps leads, and its cost, are determined.
pub fn execution_is_determined()
    ensures { ExecutionIsDetermined }
{}

/// The initial state is reached by no steps.
pub fn initial_state_is_reached()
    ensures { InitialStateIsReached }
{}

/// Where more than some number of states are reached, more than any smaller number are.
pub fn more_is_more_than_fewer()
    ensures { MoreIsMoreThanFewer }
{}

/// Whether a fact is in a list is decided.
pub fn facts_are_decided()
    ensures { FactsAreDecided }
{}

/// To put facts behind others, each once, keeps distinct facts distinct and adds nothing else.
pub fn facts_stay_distinct()
    ensures { FactsStayDistinct }
{}

/// The worked examples of the definitions hold.
pub fn examples_hold()
    ensures { WorkedExamples }
{}
