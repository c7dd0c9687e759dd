//! Why a text was refused.
ghost use Rattle.std.specs.Prelude.{◌≡◌};
ghost use Rattle.task_reader.specs.Kinds.{input_word, kind_word};
ghost use Rattle.task_reader.specs.Refusals as specs;

use form_reader::{InputFault, InputKind};
use sexpr_text::TextFault;
use thiserror::Error;

/// What kind of fault it is. The kinds are this project's.
#[derive(Clone, Copy, Debug, PartialEq, Eq)]
pub enum FaultKind {
    /// A byte outside comments that is neither white space nor one of `!` to `~`.
    BadByte,
    /// The text ends before its list is closed, or it has no list at all.
    Unclosed,
    /// A word or parenthesis before or after the list.
    Extra,
    /// A `(` that would stand in 64 lists.
    TooDeep,
    /// A fault of form or of names, in a text that is one list.
    Input(InputKind),
}

impl FaultKind {
    /// The kind's name, as it is printed: in lower case, with `-` between its parts.
    pub fn word(self) -> &'static [u8]
        ensures { result.now ≡ kind_word self }
    {
        match self {
            FaultKind::BadByte => b"bad-byte",
            FaultKind::Unclosed => b"unclosed",
            FaultKind::Extra => b"extra",
            FaultKind::TooDeep => b"too-deep",
            FaultKind::Input(kind) => word_of(kind),
        }
    }
}

/// The name of a kind of form or names.
fn word_of(kind: InputKind) -> &'static [u8]
    ensures { result.now ≡ input_word kind }
{
    match kind {
        InputKind::Shape => b"shape",
        InputKind::Unsupported => b"unsupported",
        InputKind::Unknown => b"unknown",
        InputKind::Arity => b"arity",
        InputKind::Duplicate => b"duplicate",
        InputKind::TypeCycle => b"type-cycle",
        InputKind::DerivedCycle => b"derived-cycle",
        InputKind::EffectOnStatic => b"effect-on-static",
        InputKind::Number => b"number",
        InputKind::TooMany => b"too-many",
        InputKind::StreamCycle => b"stream-cycle",
    }
}

/// Why a text was not read.
#[derive(Clone, Copy, Debug, PartialEq, Eq, Error)]
pub enum InputRefusal {
    /// The text has this fault, and no other comes before it. The place is in bytes from the text's
    /// beginning.
    #[error("fault {kind:?} at byte {place}")]
    At { kind: FaultKind, place: usize },
    /// Memory ran out, which says nothing of the text.
    #[error("memory ran out")]
    Memory,
}

impl From<TextFault> for InputRefusal {
    ghost from_gives = { λ fault r. r ≡ specs.of_text fault };

    fn from(fault: TextFault) -> InputRefusal {
        match fault {
            TextFault::BadByte(place) => refused(FaultKind::BadByte, place),
            TextFault::Unclosed(place) => refused(FaultKind::Unclosed, place),
            TextFault::Extra(place) => refused(FaultKind::Extra, place),
            TextFault::TooDeep(place) => refused(FaultKind::TooDeep, place),
            TextFault::Memory => InputRefusal::Memory,
        }
    }
}

/// The refusal for a fault of this kind at this place.
fn refused(kind: FaultKind, place: usize) -> InputRefusal
    ensures { result ≡ specs.refused kind place }
{
    InputRefusal::At { kind, place }
}

impl From<InputFault> for InputRefusal {
    ghost from_gives = { λ fault r. r ≡ specs.of_input fault };

    fn from(fault: InputFault) -> InputRefusal {
        match fault {
            InputFault::At { place, kind } => refused(FaultKind::Input(kind), place),
            InputFault::Memory => InputRefusal::Memory,
        }
    }
}
