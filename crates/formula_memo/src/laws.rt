//! A law of the definitions, the contract of a function that does nothing.
ghost use Rattle.formula_memo.specs.Laws.{DeeperLimitsChangeNoTruth};

/// In a fit task no derived predicate depends on itself, so a deeper limit on derived predicates
/// than their number of items changes no truth (PDDL 2.2).
pub fn deeper_limits_change_no_truth()
    ensures { DeeperLimitsChangeNoTruth }
{}
