//! The words and parentheses of a text, one after the other.
ghost use Rattle.std.specs.Prelude.{◌≡◌, ℕ, ◌+◌, ◌<◌, ◌≤◌, ◌++◌, List, false, drop, take, length, IfOk};
ghost use Rattle.std.below.core.specs.declared.int.usize.TheConstants.{MAX};
ghost use Rattle.sexpr_text.specs.Tokens as specs;
ghost use Rattle.sexpr_text.specs.Tokens.{Token, tokens, tokens_of};
ghost use Rattle.sexpr_text.specs.Scanning.{IsAtToken, BeginsWith, TakesToken, folded_word};

use crate::class::{Class, begins_token, class_of, folded, is_letter, is_low};
use crate::text::Text;
use smallvec::SmallVec;
use std::alloc::{AllocError, Global};
use std::marker::Model;

/// A word, a parenthesis, or a byte that may not stand.
#[derive(Debug, Drop)]
pub enum Lexeme {
    /// A word, in lower case.
    Word(Text),
    /// A `(`.
    Left,
    /// A `)`.
    Right,
    /// A byte that may not stand.
    Bad,
}

/// A lexeme with the place of its first byte.
#[derive(Debug, Drop)]
pub struct Placed {
    /// What it is.
    pub lexeme: Lexeme,
    /// Where it begins, in bytes from the text's beginning.
    pub place: usize,
}

/// What is left of a text, and where it begins. Contracts see the tokens that are left.
#[derive(Drop)]
pub struct Scanner<'a> {
    rest: &'a [u8],
    place: usize,
}

impl<'a> Model for Scanner<'a> {
    ghost Value = { List Token };

    ghost view = { λ s. tokens false s.place s.rest.now };

    ghost invariant = { λ s. s.place + length s.rest.now ≤ MAX };
}

impl<'a> Scanner<'a> {
    /// The scanner of a whole text.
    pub fn new(bytes: &'a [u8]) -> Scanner<'a>
        ensures { result ≡ tokens_of bytes.now }
    {
        Scanner {
            rest: bytes,
            place: 0,
        }
    }

    /// Takes the next token, if there is one. After an error the scanner may be anywhere.
    #[inline(always)]
    pub fn next(&mut self, alloc: Global) -> Result<Option<Placed>, AllocError>
        ensures { IfOk result (λ found. TakesToken self.old found self.new) }
    {
        let blanks = blanks_before(self.rest);
        let rest = &self.rest[blanks..];
        let place = self.place + blanks;
        if rest.is_empty() {
            self.rest = rest;
            self.place = place;
            return Ok(None);
        }
        let (lexeme, length) = first_lexeme(alloc, rest)?;
        self.rest = &rest[length..];
        self.place = place + length;
        Ok(Some(Placed { lexeme, place }))
    }
}

/// How many bytes stand before the first token: white space and comments. Mostly there is none, or
/// one space.
fn blanks_before(rest: &[u8]) -> usize
    ensures within { result ≤ length rest.now }
    ensures same { (place : ℕ) → tokens false place rest.now
        ≡ tokens false (place + result) (drop result rest.now) }
    ensures stops { IsAtToken (drop result rest.now) }
{
    match rest {
        [first, ..] if begins_token(*first) => 0,
        [first, next, ..] if *first == b' ' && begins_token(*next) => 1,
        _ => all_blanks_before(rest),
    }
}

/// The same, byte by byte.
#[inline(never)]
fn all_blanks_before(rest: &[u8]) -> usize
    ensures within { result ≤ length rest.now }
    ensures same { (place : ℕ) → tokens false place rest.now
        ≡ tokens false (place + result) (drop result rest.now) }
    ensures stops { IsAtToken (drop result rest.now) }
{
    let mut in_comment = false;
    for (blanks, byte) in rest.iter().enumerate() {
        if in_comment {
            in_comment = *byte != b'\n';
        } else {
            match class_of(*byte) {
                Class::Blank => {}
                Class::Semicolon => in_comment = true,
                _ => return blanks,
            }
        }
    }
    rest.len()
}

/// The token at the front of these bytes, and how many bytes it has.
fn first_lexeme(alloc: Global, rest: &[u8]) -> Result<(Lexeme, usize), AllocError>
    requires some { 0 < length rest.now }
    requires begins { IsAtToken rest.now }
    ensures { IfOk result (λ (lexeme, taken). BeginsWith lexeme taken rest.now) }
{
    match class_of(rest[0]) {
        Class::Letter => {
            let word = first_word(alloc, rest)?;
            let length = word.bytes().len();
            Ok((Lexeme::Word(word), length))
        }
        Class::Left => Ok((Lexeme::Left, 1)),
        Class::Right => Ok((Lexeme::Right, 1)),
        _ => Ok((Lexeme::Bad, 1)),
    }
}

/// How many bytes at the front of these belong to a word and stand for themselves.
fn low_length(rest: &[u8]) -> usize
    ensures within { result ≤ length rest.now }
    ensures same { folded_word rest.now
        ≡ take result rest.now ++ folded_word (drop result rest.now) }
{
    for (length, byte) in rest.iter().enumerate() {
        if !is_low(*byte) {
            return length;
        }
    }
    rest.len()
}

/// Whether a letter stands first.
fn begins_word(rest: &[u8]) -> bool
    ensures { result ≡ specs.begins_word rest.now }
{
    match rest {
        [] => false,
        [first, ..] => is_letter(*first),
    }
}

/// The letters at the front of these bytes, in lower case. Where all are so, they are copied.
fn first_word(alloc: Global, rest: &[u8]) -> Result<Text, AllocError>
    ensures { IfOk result (λ word. word ≡ folded_word rest.now) }
{
    let length = low_length(rest);
    if begins_word(&rest[length..]) {
        return any_word(alloc, rest);
    }
    let letters = SmallVec::from_slice(alloc, &rest[..length])?;
    Ok(Text::new(letters))
}

/// The letters at the front of these bytes, each in lower case.
#[inline(never)]
fn any_word(alloc: Global, rest: &[u8]) -> Result<Text, AllocError>
    ensures { IfOk result (λ word. word ≡ folded_word rest.now) }
{
    let mut letters = SmallVec::new(alloc);
    for byte in rest {
        if !is_letter(*byte) {
            return Ok(Text::new(letters));
        }
        letters.push(folded(*byte))?;
    }
    Ok(Text::new(letters))
}
