//! What is wrong with a report, and what a replay says.
ghost use Rattle.std.specs.Prelude.{◌≡◌};
ghost use Rattle.replay_check.specs.Judgings.{verdict_of};
ghost use Rattle.replay_check.specs.Kinds.{breach_number};

use fact_store::Facts;
use transcript_model::Report;

/// What is wrong with a line of a report, in the order in which the kinds of one line are told
/// (this project's).
#[derive(Clone, Copy, PartialEq, Eq, Debug)]
pub enum BreachKind {
    /// The line isn't of a form at its place.
    Text,
    /// A number of the head is out of its range, or its pools don't serve the task's streams.
    Head,
    /// The request can't be made: its number, its instance or its turn is wrong.
    Ask,
    /// The answer answers no open request, or isn't what the request's stream may give.
    Answer,
    /// The line may not stand here.
    Order,
    /// No dream goes on so.
    Dream,
    /// The step can't be taken, or the plan doesn't reach the goal.
    Plan,
    /// The plan costs another sum.
    Cost,
    /// The origin isn't the one that is due.
    From,
    /// What the line claims is false.
    Outcome,
}

impl BreachKind {
    /// The kind's number, 1 to 10.
    pub fn number(self) -> u8
        ensures { result ≡ breach_number self }
    {
        match self {
            BreachKind::Text => 1,
            BreachKind::Head => 2,
            BreachKind::Ask => 3,
            BreachKind::Answer => 4,
            BreachKind::Order => 5,
            BreachKind::Dream => 6,
            BreachKind::Plan => 7,
            BreachKind::Cost => 8,
            BreachKind::From => 9,
            BreachKind::Outcome => 10,
        }
    }
}

/// What a replay says of a text.
#[derive(Clone, Copy, PartialEq, Eq, Debug)]
pub enum Verdict {
    /// It is a report of the task, and all that it says is right.
    Valid,
    /// It is wrong.
    Invalid {
        /// The first line that is wrong, from 1.
        line: u32,
        /// What is wrong with it.
        kind: BreachKind,
    },
    /// A claim of it can't be decided within the limit of states, and nothing is wrong before it.
    Limit,
}

/// A right report, and what its answers certify.
#[derive(Drop)]
pub struct RightReport {
    /// The report.
    pub report: Report,
    /// What is known at its end.
    pub facts: Facts,
}

/// What a replay says of a text, with the report where that is right.
#[derive(Drop)]
pub enum Judged {
    /// It is this report of the task, and all that it says is right.
    Valid(RightReport),
    /// It is wrong.
    Invalid {
        /// The first line that is wrong, from 1.
        line: u32,
        /// What is wrong with it.
        kind: BreachKind,
    },
    /// A claim of it can't be decided within the limit of states, and nothing is wrong before it.
    Limit,
}

impl Judged {
    /// What is said, without the report.
    pub fn verdict(&self) -> Verdict
        ensures { result ≡ verdict_of self.now }
    {
        match self {
            Judged::Valid(_) => Verdict::Valid,
            Judged::Invalid { line, kind } => Verdict::Invalid {
                line: *line,
                kind: *kind,
            },
            Judged::Limit => Verdict::Limit,
        }
    }
}
