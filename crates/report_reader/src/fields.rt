//! The fields of a line, with a single space between each two.
ghost use Rattle.std.specs.Prelude.{ℕ, ◌≡◌, ◌≤◌, [], ◌∷◌, List, MatchBool, MatchOption, true, position, length};
ghost use Rattle.std.specs.List.{slice_split};
ghost use Rattle.std.specs.Fmt.{decimal};
ghost use Rattle.gen_lines.specs.Reply.{is_space};
ghost use Rattle.report_text.specs.Forms.{IsNumber, IsSmall};
ghost use Rattle.report_reader.specs.Finding.{Finds, TakesFields};
ghost use Rattle.report_reader.specs.Splits.{fields_left};

use crate::bytes::{before, behind};
use crate::numbers::number_in;
use std::marker::Model;
use task_model::LARGEST_COUNT;

/// What is left of a line. Contracts see the list of its fields.
#[derive(Drop)]
pub(crate) struct Fields<'a> {
    rest: Option<&'a [u8]>,
}

impl<'a> Model for Fields<'a> {
    ghost Value = { List (List ℕ) };

    ghost view = { λ f. fields_left f.rest };
}

impl<'a> Fields<'a> {
    /// All fields of the line.
    pub(crate) fn of(line: &'a [u8]) -> Fields<'a>
        ensures { result ≡ slice_split is_space line.now }
    {
        Fields { rest: Some(line) }
    }

    /// The same fields once more.
    pub(crate) fn again(&self) -> Fields<'a>
        ensures { result ≡ self.now }
    {
        Fields { rest: self.rest }
    }

    /// The next field.
    #[tactic(auto, using(crate::proofs::SplitsCutLemmas::cut_some, crate::proofs::SplitsCutLemmas::cut_none))]
    pub(crate) fn next(&mut self) -> Option<&'a [u8]>
        ensures { MatchOption result (self.old ≡ []) (λ field. self.old ≡ field.now ∷ self.new) }
    {
        let rest = self.rest?;
        match first_space(rest) {
            Some(end) => {
                self.rest = Some(behind(rest, end + 1));
                Some(before(rest, end))
            }
            None => {
                self.rest = None;
                Some(rest)
            }
        }
    }

    /// How many fields are left.
    pub(crate) fn len(&self) -> usize
        ensures { result ≡ length self.now }
    {
        match self.rest {
            Some(rest) => parts(rest),
            None => 0,
        }
    }

    /// Whether no field is left.
    #[tactic(auto, using(crate::proofs::SplitsCutLemmas::never_empty))]
    pub(crate) fn are_over(&self) -> bool
        ensures { MatchBool result (self.now ≡ []) (¬ (self.now ≡ [])) }
    {
        match self.rest {
            Some(_) => false,
            None => true,
        }
    }

    /// Whether the next field is this word. It is taken, whatever it is.
    pub(crate) fn begin_with(&mut self, word: &[u8]) -> bool
        ensures { MatchBool result (self.old ≡ word.now ∷ self.new)
            ((more : List (List ℕ)) → ¬ (self.old ≡ word.now ∷ more)) }
    {
        match self.next() {
            Some(field) => field == word,
            None => false,
        }
    }

    /// The number that the next field writes, where that is at most this.
    pub(crate) fn number_upto(&mut self, most: u64) -> Option<u64>
        ensures { TakesFields (λ n. n ≤ most) decimal result self.old self.new }
    {
        let number = number_in(self.next()?)?;
        if number <= most { Some(number) } else { None }
    }

    /// The number of at most 32 bits that the next field writes.
    pub(crate) fn number(&mut self) -> Option<u32>
        ensures { TakesFields IsNumber decimal result self.old self.new }
    {
        let number = self.number_upto(LARGEST_COUNT as u64)?;
        Some(number as u32)
    }

    /// The number of at most 8 bits that the next field writes.
    pub(crate) fn small(&mut self) -> Option<u8>
        ensures { TakesFields IsSmall decimal result self.old self.new }
    {
        let number = self.number_upto(u8::MAX as u64)?;
        Some(number as u8)
    }

    /// The number of at most 32 bits that the only field which is left writes.
    pub(crate) fn last_number(&mut self) -> Option<u32>
        ensures { Finds IsNumber (λ n. decimal n ∷ []) result self.old }
    {
        let number = self.number()?;
        if self.are_over() { Some(number) } else { None }
    }
}

fn first_space(bytes: &[u8]) -> Option<usize>
    ensures { result ≡ position is_space bytes.now }
{
    bytes.iter().position(|b| *b == b' ')
}

/// How many parts spaces cut these bytes into.
fn parts(bytes: &[u8]) -> usize
    ensures { result ≡ length (slice_split is_space bytes.now) }
{
    bytes.split(|b| *b == b' ').count()
}
