//! What holds of what is asked of dreams, each the contract of a function that does nothing.
ghost use Rattle.dream_asks.specs.Laws.{FirstAsksAreSentFirst, ValuesStay};

/// What is asked first of a dream, whose entries have instances of their own, is what the turns of
/// a mode ask first.
pub fn first_asks_are_sent_first()
    ensures { FirstAsksAreSentFirst }
{}

/// What an answered request gave stays where a transcript grows.
pub fn values_stay()
    ensures { ValuesStay }
{}
