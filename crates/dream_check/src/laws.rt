//! Laws of what is said of dreams, each the contract of a function that does nothing.
ghost use Rattle.dream_check.specs.Laws.{DreamsHaveNoWrongLine};

/// No line of a dream is wrong. So `judge_dream` answers `Right` wherever the uses and steps are a
/// dream, and where it answers otherwise they are none.
pub fn dreams_have_no_wrong_line()
    ensures { DreamsHaveNoWrongLine }
{}
