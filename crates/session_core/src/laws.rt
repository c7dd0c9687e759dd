//! Laws of sessions, each the contract of a function that does nothing.
ghost use Rattle.session_core.specs.Events.{AnswersAreOwn, EachSaysOne, OrderDoesNotMatter};

/// In whatever order the events of a round come, sends and lines of its children, the answers of
/// the round are those that each due's own child gave in its line, in the order of the dues.
pub fn answers_are_own()
    ensures { AnswersAreOwn }
{}

/// Two orders of the events of a round in which each child says the same leave the same round, and
/// so the same entries.
pub fn order_does_not_matter()
    ensures { OrderDoesNotMatter }
{}

/// Each child of a round says exactly one line, in whatever order the events come.
pub fn each_says_one()
    ensures { EachSaysOne }
{}
