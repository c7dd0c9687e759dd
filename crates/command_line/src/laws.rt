//! Laws of the definitions in `specs/`, each the contract of a function that does nothing.
ghost use Rattle.command_line.specs.Ranges.{WordsAreInRange};

/// Of every command that words mean, all numbers are in their ranges: calls 1 to 100,000, states 1
/// to 200,000, depth 1 to 8, workers 1 to 16, restarts 0 to 1,000, the number of `generate` 1 to 12. No program
/// stands beside a map, and the cheapest plan is asked for in incremental mode alone.
pub fn words_are_in_range()
    ensures { WordsAreInRange }
{}
