//! The words that begin a line among the entries.
ghost use Rattle.std.specs.Prelude.{◌≡◌, MatchOption, false, true};
ghost use Rattle.report_reader.specs.Body.{is_of_dialogue, spelled_word};
ghost use Rattle.report_reader.specs.declared.body_word.Word.{Word};

/// The word that begins a line among the entries, or the line that ends them.
#[derive(Clone, Copy, PartialEq, Eq, Debug)]
pub(crate) enum Word {
    /// `level`
    Level,
    /// `ask`
    Ask,
    /// `got`
    Got,
    /// `value`
    Value,
    /// `end`
    End,
    /// `dream`
    Dream,
    /// `none`
    Nothing,
    /// `reset`
    Reset,
    /// `pick`
    Pick,
    /// `retire`
    Retire,
    /// `plan`
    Plan,
    /// `no`
    No,
    /// `limit`
    Limit,
}

/// The word that this field is.
pub(crate) fn word_of(field: &[u8]) -> Option<Word>
    ensures { MatchOption result ((w : Word) → ¬ (spelled_word w ≡ field.now))
        (λ w. spelled_word w ≡ field.now) }
{
    match dialogue_word(field) {
        Some(word) => Some(word),
        None => other_word(field),
    }
}

/// The word of a request or an answer that this field is.
fn dialogue_word(field: &[u8]) -> Option<Word>
    ensures { MatchOption result ((w : Word) → is_of_dialogue w ≡ true → ¬ (spelled_word w ≡ field.now))
        (λ w. spelled_word w ≡ field.now) }
{
    if field == b"ask".as_slice() {
        return Some(Word::Ask);
    }
    if field == b"got".as_slice() {
        return Some(Word::Got);
    }
    if field == b"value".as_slice() {
        return Some(Word::Value);
    }
    if field == b"end".as_slice() {
        return Some(Word::End);
    }
    None
}

/// The other word that this field is.
fn other_word(field: &[u8]) -> Option<Word>
    ensures { MatchOption result ((w : Word) → is_of_dialogue w ≡ false → ¬ (spelled_word w ≡ field.now))
        (λ w. spelled_word w ≡ field.now) }
{
    if field == b"level".as_slice() {
        return Some(Word::Level);
    }
    if field == b"dream".as_slice() {
        return Some(Word::Dream);
    }
    if field == b"none".as_slice() {
        return Some(Word::Nothing);
    }
    if field == b"reset".as_slice() {
        return Some(Word::Reset);
    }
    if field == b"pick".as_slice() {
        return Some(Word::Pick);
    }
    if field == b"retire".as_slice() {
        return Some(Word::Retire);
    }
    if field == b"plan".as_slice() {
        return Some(Word::Plan);
    }
    if field == b"no".as_slice() {
        return Some(Word::No);
    }
    if field == b"limit".as_slice() {
        return Some(Word::Limit);
    }
    None
}
