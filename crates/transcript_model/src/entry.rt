//! The entries of a transcript.
use task_model::{Name, Seq};

/// A stream or an action with the names of its objects.
#[derive(Drop)]
pub struct Call {
    /// The stream or the action.
    pub name: Name,
    /// The objects: declared names, `#` and a value, or placeholders `@j.i`.
    pub args: Seq<Name>,
}

/// An entry that a dream uses.
#[derive(Drop)]
pub struct DreamUse {
    /// Its place in the list of supposed entries, from 1.
    pub number: u32,
    /// The entry.
    pub call: Call,
}

/// What happened in a run, one thing after another.
#[derive(Drop)]
pub enum Entry {
    /// A whole level follows.
    Level,
    /// A request.
    Ask {
        /// Its number, from 1.
        number: u32,
        /// How many tuples its instance has given before.
        turn: u32,
        /// Its stream and inputs.
        call: Call,
    },
    /// A yield that answers a request.
    Got {
        /// The request's number.
        number: u32,
        /// How many tuples it has.
        tuples: u8,
        /// The values of all tuples in order, without `#`.
        values: Seq<Name>,
    },
    /// The value that answers a request to a cost stream.
    Value {
        /// The request's number.
        number: u32,
        /// The value, at most 1,000,000.
        value: u32,
    },
    /// That nothing more comes of a request's instance.
    End {
        /// The request's number.
        number: u32,
    },
    /// A dream: the entries that it uses, and its plan.
    Dream {
        /// The entries.
        uses: Seq<DreamUse>,
        /// The steps.
        steps: Seq<Call>,
    },
    /// No dream was found.
    Nothing,
    /// All tried instances may be supposed again.
    Reset,
    /// The skeleton of this number, from 1, is taken up.
    Pick(u32),
    /// The skeleton of this number is given up.
    Retire(u32),
}
