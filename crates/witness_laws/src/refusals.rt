//! What the definitions refuse, at the first worked task, each the contract of a function that does
//! nothing.
ghost use Rattle.witness_laws.specs.Refusals.{AnswersNeedOpenRequests, DomainFactsAreNeeded, GreaterCostsAreFalse, LevelsAskForAll, OpenRequestsArentRepeated, PlaceholdersMakeNoPlan, RoundsAreFull, TurnsBehindPlansArentLazy};

/// A level that asks for nothing, where an instance is due, is none.
pub fn levels_ask_for_all()
    ensures { LevelsAskForAll }
{}

/// A transcript in which a turn begins behind a plan isn't lazy.
pub fn turns_behind_plans_are_not_lazy()
    ensures { TurnsBehindPlansArentLazy }
{}

/// A placeholder that is left in a plan makes it no plan over what is certified.
pub fn placeholders_make_no_plan()
    ensures { PlaceholdersMakeNoPlan }
{}

/// A plan isn't true at a cost that is greater by one.
pub fn greater_costs_are_false()
    ensures { GreaterCostsAreFalse }
{}

/// An answer to a request that isn't open isn't legal.
pub fn answers_need_open_requests()
    ensures { AnswersNeedOpenRequests }
{}

/// A request that is open isn't made again.
pub fn open_requests_are_not_repeated()
    ensures { OpenRequestsArentRepeated }
{}

/// An instance isn't due where its domain fact isn't known.
pub fn domain_facts_are_needed()
    ensures { DomainFactsAreNeeded }
{}

/// A round of one isn't the round where two workers are free for two requests.
pub fn rounds_are_full()
    ensures { RoundsAreFull }
{}
