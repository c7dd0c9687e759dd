//! The lines of a text, one after another.
ghost use Rattle.std.specs.Prelude.{◌≡◌, ℕ, [], ◌∷◌, List, drop, length, MatchOption, position, count_by};
ghost use Rattle.gen_lines.specs.Lines.{is_feed};
ghost use Rattle.report_reader.specs.Splits.{field_lines};

use crate::bytes::{before, behind};
use crate::fields::Fields;
use std::marker::Model;

/// What is left of a text. Contracts see its lines that end with a line feed, each as its fields.
#[derive(Drop)]
pub(crate) struct Lines<'a> {
    rest: &'a [u8],
}

impl<'a> Model for Lines<'a> {
    ghost Value = { List (List (List ℕ)) };

    ghost view = { λ l. field_lines l.rest.now };
}

impl<'a> Lines<'a> {
    /// The lines of the whole text.
    pub(crate) fn of(bytes: &'a [u8]) -> Lines<'a>
        ensures { result ≡ field_lines bytes.now }
    {
        Lines { rest: bytes }
    }

    /// The fields of the next line; None where no line is left.
    #[tactic(auto, using(crate::proofs::SplitsCutLemmas::lines_some, crate::proofs::SplitsCutLemmas::lines_none))]
    pub(crate) fn front(&self) -> Option<Fields<'a>>
        ensures { MatchOption result (self.now ≡ [])
            (λ fields. self.now ≡ fields ∷ drop 1 self.now) }
    {
        let end = first_feed(self.rest)?;
        Some(Fields::of(before(self.rest, end)))
    }

    /// Goes on behind the next line.
    #[tactic(auto, using(crate::proofs::SplitsCutLemmas::lines_some, crate::proofs::SplitsCutLemmas::lines_none))]
    pub(crate) fn advance(&mut self)
        ensures { self.new ≡ drop 1 self.old }
    {
        if let Some(end) = first_feed(self.rest) {
            self.rest = behind(self.rest, end + 1);
        }
    }

    /// How many lines are left.
    #[tactic(auto, using(crate::proofs::SplitsCutLemmas::lines_count))]
    pub(crate) fn count(&self) -> usize
        ensures { result ≡ length self.now }
    {
        feeds(self.rest)
    }
}

/// Where the first line feed stands.
fn first_feed(bytes: &[u8]) -> Option<usize>
    ensures { result ≡ position is_feed bytes.now }
{
    bytes.iter().position(|b| *b == b'\n')
}

/// How many line feeds there are.
fn feeds(bytes: &[u8]) -> usize
    ensures { result ≡ count_by is_feed bytes.now }
{
    bytes.iter().filter(|b| **b == b'\n').count()
}
