//! What came of a run.
use crate::entry::Call;
use task_model::{Name, Seq};

/// Which limit was reached.
#[derive(Clone, Copy, PartialEq, Eq, Debug)]
pub enum LimitKind {
    /// The limit of calls.
    Calls,
    /// The limit of states.
    States,
    /// More than 1,000,000 instances were due.
    Instances,
}

/// The call from which a generated object came.
#[derive(Drop)]
pub struct Origin {
    /// The object, `#` and a value.
    pub object: Name,
    /// The number of the first request whose answer has the value.
    pub number: u32,
    /// The number, from 1, of the first tuple of that answer that has it.
    pub tuple: u8,
}

/// What came of a run.
#[derive(Drop)]
pub enum Outcome {
    /// A plan.
    Plan {
        /// Its steps.
        steps: Seq<Call>,
        /// What it costs.
        cost: u64,
        /// Where its generated objects came from.
        from: Seq<Origin>,
    },
    /// There is no plan, and every instance that can be asked has finished.
    NoPlan,
    /// A limit was reached.
    Limit(LimitKind),
}
