//! What can be wrong with a domain, a problem or a stream file, and which fault is answered.
ghost use Rattle.std.specs.Prelude.{◌≡◌, Option};
ghost use Rattle.form_reader.specs.Faults as specs;

use std::alloc::AllocError;
use thiserror::Error;

/// What kind of fault it is. The kinds, their numbers and their order are this project's.
#[derive(Clone, Copy, Debug, PartialEq, Eq)]
pub enum InputKind {
    /// A word or a list that can't stand where it stands, or a list that ends too soon.
    Shape = 1,
    /// A form of PDDL or of PDDLStream that this project leaves out.
    Unsupported = 2,
    /// A name or a variable that isn't there.
    Unknown = 3,
    /// An atom or a function term with another number of arguments than declared.
    Arity = 4,
    /// A second one of what may be there once.
    Duplicate = 5,
    /// A type that is its own supertype.
    TypeCycle = 6,
    /// A derived predicate that depends on itself.
    DerivedCycle = 7,
    /// A predicate that is derived, or of a stream one that changes, where such a one may not
    /// stand.
    EffectOnStatic = 8,
    /// A word in the place of a number that isn't a number of at most 1,000,000.
    Number = 9,
    /// More arguments, variables or derived predicates than there may be.
    TooMany = 10,
    /// A stream that leads to itself.
    StreamCycle = 11,
}

impl InputKind {
    /// The kind's number, from 1.
    pub fn number(self) -> u8
        ensures { result ≡ specs.kind_number self }
    {
        self as u8
    }

    /// The kind's place in the order of faults at one place: `Shape` is the last, the others go by
    /// number.
    fn rank(self) -> u8
        ensures { result ≡ specs.rank_of self }
    {
        match self {
            InputKind::Shape => 12,
            other => other.number(),
        }
    }
}

/// A fault of a text with its place, in bytes from the text's beginning.
#[derive(Clone, Copy, Debug, PartialEq, Eq)]
pub struct Fault {
    /// Where it is.
    pub place: usize,
    /// What it is.
    pub kind: InputKind,
}

impl Fault {
    /// A `Shape` fault at this place.
    pub fn shape(place: usize) -> Fault
        ensures { result ≡ specs.shape place }
    {
        Fault {
            place,
            kind: InputKind::Shape,
        }
    }

    /// An `Unsupported` fault at this place.
    pub fn unsupported(place: usize) -> Fault
        ensures { result ≡ specs.unsupported place }
    {
        Fault {
            place,
            kind: InputKind::Unsupported,
        }
    }

    /// A `Number` fault at this place.
    pub fn number(place: usize) -> Fault
        ensures { result ≡ specs.number place }
    {
        Fault {
            place,
            kind: InputKind::Number,
        }
    }

    /// Whether this fault is answered rather than the other one: it has the lesser place, or at one
    /// place the smaller number, `Shape` being last there.
    pub fn comes_first(self, other: Fault) -> bool
        ensures { result ≡ specs.comes_first self other }
    {
        self.place < other.place
            || self.place == other.place && self.kind.rank() <= other.kind.rank()
    }
}

/// Of the fault so far, if there is one, and one more the one that is answered.
pub fn sooner(so_far: Option<Fault>, fault: Fault) -> Option<Fault>
    ensures { result ≡ specs.sooner so_far fault }
{
    match so_far {
        Some(earlier) if earlier.comes_first(fault) => Some(earlier),
        _ => Some(fault),
    }
}

/// Why a text was not read.
#[derive(Clone, Copy, Debug, PartialEq, Eq, Error)]
pub enum InputFault {
    /// The text has this fault, and no other comes before it.
    #[error("fault {kind:?} at byte {place}")]
    At { place: usize, kind: InputKind },
    /// Memory ran out, which says nothing of the text.
    #[error("memory ran out")]
    Memory,
}

impl From<AllocError> for InputFault {
    ghost use Rattle.form_reader.specs.declared.fault.InputFault.TheVariants.{Memory};

    ghost from_gives = { λ _ r. r ≡ Memory };

    fn from(_: AllocError) -> InputFault {
        InputFault::Memory
    }
}
