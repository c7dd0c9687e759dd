//! A pool as a text gives it.
ghost use Rattle.std.specs.Prelude.{◌≡◌, map, string_bytes};
ghost use Rattle.stream_map.specs.Spelled.{begins_grid, is_grid_word, is_program};

use task_model::{Name, Seq};

/// A pool before its streams are looked up.
#[derive(Drop)]
pub(crate) struct PoolText {
    /// The words that start each worker, 1 to 64.
    pub(crate) run: Seq<String>,
    /// How many workers; a negative number counts as 0.
    pub(crate) workers: u64,
    /// The names of the streams, in lower case.
    pub(crate) streams: Seq<Name>,
}

/// Whether the word stands for the generator in the process.
#[tactic(auto, unfolding(crate::specs::Spelled::is_grid_word))]
fn is_grid_word(word: &str) -> bool
    ensures { result ≡ is_grid_word word.now }
{
    word == "@grid"
}

/// Whether the words are for the generator in the process.
pub(crate) fn begins_grid(words: &[String]) -> bool
    ensures { result ≡ begins_grid (map string_bytes words.now) }
{
    match words {
        [word, ..] => is_grid_word(word.as_str()),
        [] => false,
    }
}

/// Whether the words are a program's: 1 to 64, and two where they begin with `@grid`.
pub(crate) fn is_program(words: &[String]) -> bool
    ensures { result ≡ is_program (map string_bytes words.now) }
{
    1 <= words.len() && words.len() <= 64 && (!begins_grid(words) || words.len() == 2)
}
