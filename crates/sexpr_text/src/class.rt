//! What a byte does in a text.
ghost use Rattle.std.specs.Prelude.{◌≡◌};
ghost use Rattle.sexpr_text.specs.Scanning as scanning;
ghost use Rattle.sexpr_text.specs.Tokens as specs;

/// What a byte outside comments does.
#[derive(Clone, Copy, Debug, PartialEq, Eq)]
pub enum Class {
    /// White space: a tab, a line feed, a CR or a space.
    Blank,
    /// A `;`, which begins a comment.
    Semicolon,
    /// A `(`.
    Left,
    /// A `)`.
    Right,
    /// Any other byte of `!` to `~`, which belongs to a word.
    Letter,
    /// A byte that may not stand.
    Bad,
}

/// What this byte does outside comments.
#[inline(always)]
#[tactic(auto, unfolding(crate::specs::Tokens::class_of))]
pub fn class_of(byte: u8) -> Class
    ensures { result ≡ specs.class_of byte }
{
    match byte {
        b'\t' | b'\n' | b'\r' | b' ' => Class::Blank,
        b';' => Class::Semicolon,
        b'(' => Class::Left,
        b')' => Class::Right,
        b'!'..=b'~' => Class::Letter,
        _ => Class::Bad,
    }
}

/// Whether this byte belongs to a word, outside comments.
#[tactic(auto, unfolding(crate::specs::Tokens::class_of))]
pub fn is_letter(byte: u8) -> bool
    ensures { result ≡ specs.is_letter_class (specs.class_of byte) }
{
    b'!' <= byte && byte <= b'~' && byte != b'(' && byte != b')' && byte != b';'
}

/// Whether a word or a parenthesis begins with this byte, outside comments.
#[tactic(auto, unfolding(crate::specs::Tokens::class_of))]
pub fn begins_token(byte: u8) -> bool
    ensures { result ≡ scanning.is_word_or_parenthesis (specs.class_of byte) }
{
    b'!' <= byte && byte <= b'~' && byte != b';'
}

/// Whether this byte belongs to a word, outside comments, and is no letter `A` to `Z`.
pub fn is_low(byte: u8) -> bool
    ensures { result ≡ scanning.is_low byte }
{
    is_letter(byte) && folded(byte) == byte
}

/// The byte, and in place of `A` to `Z` the letter in lower case.
#[tactic(auto, unfolding(crate::specs::Tokens::folded))]
pub fn folded(byte: u8) -> u8
    ensures { result ≡ specs.folded byte }
{
    byte.to_ascii_lowercase()
}
