//! What words there are, and what a list's first word makes of the list.
ghost use Rattle.std.specs.Prelude.{◌≡◌};
ghost use Rattle.std.specs.Char.{is_ascii_digit};
ghost use Rattle.std.specs.Str.{bytes_eq};
ghost use Rattle.form_reader.specs.Words as specs;

use task_model::is_name;

/// What kind of word has to stand in a place.
#[derive(Clone, Copy, Debug, PartialEq, Eq)]
pub enum WordSort {
    /// Any word.
    Any,
    /// A name: a letter and then letters, digits, `-` and `_`, at most 255 bytes.
    Name,
    /// A name that a predicate may have.
    Predicate,
    /// `?` and a name.
    Variable,
    /// A name or a variable.
    Term,
}

impl WordSort {
    /// Whether the word, which is in lower case, is of this sort.
    pub fn has(self, word: &[u8]) -> bool
        ensures { result ≡ specs.is_of self word.now }
    {
        match self {
            WordSort::Any => true,
            WordSort::Name => is_name(word),
            WordSort::Predicate => is_predicate_name(word),
            WordSort::Variable => is_variable(word),
            WordSort::Term => is_name(word) || is_variable(word),
        }
    }
}

/// Whether two words are the same. Most that aren't have two lengths, or two first letters.
#[inline(always)]
pub(crate) fn is_word(word: &[u8], other: &[u8]) -> bool
    ensures { result ≡ bytes_eq word.now other.now }
{
    word.len() == other.len() && (word.is_empty() || word[0] == other[0]) && word == other
}

/// Whether the word is `?` and a name (PDDL 2.1).
pub fn is_variable(word: &[u8]) -> bool
    ensures { result ≡ specs.is_variable word.now }
{
    match word {
        [] => false,
        [first, rest @ ..] => *first == b'?' && is_name(rest),
    }
}

/// Whether the word is a name that a predicate may have: none of the words that head conditions and
/// effects in PDDL.
pub fn is_predicate_name(word: &[u8]) -> bool
    ensures { result ≡ specs.is_predicate_name word.now }
{
    is_name(word) && !is_connective(word) && !is_change(word)
}

#[tactic(auto, unfolding(crate::specs::Words::is_connective))]
fn is_connective(word: &[u8]) -> bool
    ensures { result ≡ specs.is_connective word.now }
{
    is_word(word, b"and")
        || is_word(word, b"or")
        || is_word(word, b"not")
        || is_word(word, b"exists")
        || is_word(word, b"forall")
        || is_word(word, b"imply")
        || is_word(word, b"when")
        || is_word(word, b"preference")
}

#[tactic(auto, unfolding(crate::specs::Words::is_change))]
fn is_change(word: &[u8]) -> bool
    ensures { result ≡ specs.is_change word.now }
{
    is_word(word, b"increase")
        || is_word(word, b"decrease")
        || is_word(word, b"assign")
        || is_word(word, b"scale-up")
        || is_word(word, b"scale-down")
        || is_word(word, b"either")
}

/// Whether the word begins with `:`.
pub fn is_keyword(word: &[u8]) -> bool
    ensures { result ≡ specs.is_keyword word.now }
{
    match word {
        [] => false,
        [first, ..] => *first == b':',
    }
}

/// Whether the word begins with a digit.
pub(crate) fn begins_with_digit(word: &[u8]) -> bool
    ensures { result ≡ specs.begins_with_digit word.now }
{
    match word {
        [] => false,
        [first, ..] => first.is_ascii_digit(),
    }
}

/// What a list is in the place of a condition, by its first word (PDDL 2.1).
#[derive(Clone, Copy, Debug, PartialEq, Eq)]
pub enum ConditionHead {
    /// `and`, which takes conditions.
    And,
    /// `or`, which takes conditions.
    Or,
    /// `not`, which takes one condition.
    Not,
    /// `exists`, which takes variables and a condition.
    Exists,
    /// `=`, which takes two terms.
    Equal,
    /// A head that this project leaves out.
    Refused,
    /// Any other word, as the name of a predicate.
    Atom,
}

/// What the first word makes of a condition.
#[tactic(auto, unfolding(crate::specs::Words::condition_head_of))]
pub fn condition_head_of(word: &[u8]) -> ConditionHead
    ensures { result ≡ specs.condition_head_of word.now }
{
    if is_word(word, b"and") {
        return ConditionHead::And;
    }
    if is_word(word, b"or") {
        return ConditionHead::Or;
    }
    if is_word(word, b"not") {
        return ConditionHead::Not;
    }
    if is_word(word, b"exists") {
        return ConditionHead::Exists;
    }
    if is_word(word, b"=") {
        return ConditionHead::Equal;
    }
    if is_refused_condition(word) {
        return ConditionHead::Refused;
    }
    ConditionHead::Atom
}

#[tactic(auto, unfolding(crate::specs::Words::is_refused_condition))]
fn is_refused_condition(word: &[u8]) -> bool
    ensures { result ≡ specs.is_refused_condition word.now }
{
    is_word(word, b"forall")
        || is_word(word, b"imply")
        || is_word(word, b"when")
        || is_word(word, b"preference")
        || is_word(word, b"<")
        || is_word(word, b">")
        || is_word(word, b"<=")
        || is_word(word, b">=")
}

/// What a list is in the place of an effect, by its first word (PDDL 2.1, IPC 2008).
#[derive(Clone, Copy, Debug, PartialEq, Eq)]
pub enum EffectHead {
    /// `and`, which takes effects.
    And,
    /// `not`, which takes an atom.
    Not,
    /// `increase`, which takes `(total-cost)` and a cost.
    Increase,
    /// A head that this project leaves out.
    Refused,
    /// Any other word, as the name of a predicate.
    Atom,
}

/// What the first word makes of an effect.
#[tactic(auto, unfolding(crate::specs::Words::effect_head_of))]
pub fn effect_head_of(word: &[u8]) -> EffectHead
    ensures { result ≡ specs.effect_head_of word.now }
{
    if is_word(word, b"and") {
        return EffectHead::And;
    }
    if is_word(word, b"not") {
        return EffectHead::Not;
    }
    if is_word(word, b"increase") {
        return EffectHead::Increase;
    }
    if is_refused_effect(word) {
        return EffectHead::Refused;
    }
    EffectHead::Atom
}

#[tactic(auto, unfolding(crate::specs::Words::is_refused_effect))]
fn is_refused_effect(word: &[u8]) -> bool
    ensures { result ≡ specs.is_refused_effect word.now }
{
    is_word(word, b"forall")
        || is_word(word, b"when")
        || is_word(word, b"assign")
        || is_word(word, b"decrease")
        || is_word(word, b"scale-up")
        || is_word(word, b"scale-down")
}

/// Whether no list in a stream's atoms may have this head (this project's profile).
#[tactic(auto, unfolding(crate::specs::Words::is_refused_in_atoms))]
pub(crate) fn is_refused_in_atoms(word: &[u8]) -> bool
    ensures { result ≡ specs.is_refused_in_atoms word.now }
{
    is_word(word, b"not")
        || is_word(word, b"or")
        || is_word(word, b"exists")
        || is_word(word, b"forall")
        || is_word(word, b"=")
}
