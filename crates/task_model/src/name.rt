//! Names.
ghost use Rattle.std.specs.Prelude.{◌≡◌, IfOk, length, ◌≤◌, IsOk, nat_eq, [], ◌∷◌};
ghost use Rattle.std.specs.Cmp.{nat_eq_equiv, partial_equiv_from_equiv};
ghost use Rattle.std.specs.Cmp.Lexicographic.{pointwise, lists_per, lists_equiv};
ghost use Rattle.std.specs.Hash.{same_Alike};
ghost use Rattle.std.specs.List.{list_all};
ghost use Rattle.std.proofs.lemmas.Slice.Eq.{bytes_eq-Decides};
ghost use Rattle.task_model.specs.Fit as fit;

use std::alloc::{AllocError, Global};
use std::hash::{Hash, Hasher};
use std::marker::Model;

/// The longest name of a task, in bytes.
const NAME_BYTES: usize = 255;

/// How many bytes of a name lie in its value.
const SHORT: usize = 30;

/// A name, which contracts see as a list of bytes. The bytes are free: a task's names are words in
/// lower case, and a generated object's name is `#` and the value that a generator gave.
///
/// Up to 30 bytes lie in the value itself, which takes 32.
#[derive(Debug, Drop)]
pub struct Name {
    form: Form,
}

/// How the bytes lie in memory.
#[derive(Debug, Drop)]
enum Form {
    /// So many, with others behind them.
    Short { length: u8, bytes: [u8; SHORT] },
    /// More.
    Long(Vec<u8>),
}

impl Model for Name {
    ghost use Rattle.std.specs.Prelude.{ℕ, List};
    ghost use Rattle.task_model.specs.Names.{IsShort, bytes_of};

    ghost Value = { List ℕ };

    ghost view = { λ n. bytes_of n.form };

    ghost invariant = { λ n. IsShort n.form };
}

impl Name {
    /// The name with these bytes, whose memory it keeps where there are more than 30.
    pub fn new(bytes: Vec<u8>) -> Name
        ensures { result ≡ bytes.items }
    {
        if bytes.len() <= SHORT {
            return Name::short(bytes.as_slice());
        }
        Name {
            form: Form::Long(bytes),
        }
    }

    /// The name with these bytes. Fails only where memory is wanting, and never for 30 bytes or
    /// fewer, which take none.
    pub fn from_slice(alloc: Global, bytes: &[u8]) -> Result<Name, AllocError>
        ensures name { IfOk result (λ name. name ≡ bytes.now) }
        ensures inline { length bytes.now ≤ 30 → IsOk result }
    {
        if bytes.len() <= SHORT {
            return Ok(Name::short(bytes));
        }
        let bytes = Vec::from_slice(alloc, bytes)?;
        Ok(Name {
            form: Form::Long(bytes),
        })
    }

    /// The name with these bytes, all of which lie in the value.
    fn short(bytes: &[u8]) -> Name
        requires { length bytes.now ≤ 30 }
        ensures { result ≡ bytes.now }
    {
        let mut held = [0; SHORT];
        held[..bytes.len()].copy_from_slice(bytes);
        Name {
            form: Form::Short {
                length: bytes.len() as u8,
                bytes: held,
            },
        }
    }

    /// The bytes.
    pub fn bytes(&self) -> &[u8]
        ensures { result.now ≡ self.now }
    {
        match &self.form {
            Form::Short { length, bytes } => &bytes[..*length as usize],
            Form::Long(bytes) => bytes.as_slice(),
        }
    }

    /// An equal name. Fails only where memory is wanting.
    pub fn copy(&self, alloc: Global) -> Result<Name, AllocError>
        ensures { IfOk result (λ name. name ≡ self.now) }
    {
        Name::from_slice(alloc, self.bytes())
    }
}

impl PartialEq for Name {
    ghost eq = { pointwise nat_eq };

    ghost laws = { lists_per (partial_equiv_from_equiv nat_eq_equiv) };

    fn eq(&self, other: &Name) -> bool {
        self.bytes() == other.bytes()
    }
}

impl Eq for Name {
    ghost laws = { lists_equiv nat_eq_equiv };
}

impl Hash for Name {
    ghost hash_input = { λ n. n ∷ [] };

    ghost respects_eq = { (same_Alike (λ n. n ∷ []) bytes_eq-Decides).fed };

    /// Hashes the bytes at once: with no other list behind it a name needs no length.
    fn hash<H: Hasher>(&self, state: &mut H) {
        state.write(self.bytes());
    }
}

/// Whether the word is a name in lower case: a letter and then letters, digits, `-` and `_`, at
/// most 255 bytes (PDDL 2.1; the length is this project's).
pub fn is_name(word: &[u8]) -> bool
    ensures { result ≡ fit.is_name word.now }
{
    match word {
        [] => false,
        [first, rest @ ..] => {
            is_letter(*first) && are_name_bytes(rest) && rest.len() < NAME_BYTES
        }
    }
}

fn are_name_bytes(bytes: &[u8]) -> bool
    ensures { result ≡ list_all fit.is_name_byte bytes.now }
{
    bytes.iter().all(|b| is_name_byte(*b))
}

fn is_name_byte(byte: u8) -> bool
    ensures { result ≡ fit.is_name_byte byte }
{
    is_letter(byte) || byte.is_ascii_digit() || byte == b'-' || byte == b'_'
}

fn is_letter(byte: u8) -> bool
    ensures { result ≡ fit.is_letter byte }
{
    byte.is_ascii_lowercase()
}
