//! The file of the generator in the process.
ghost use Rattle.std.specs.Prelude.{◌≡◌, ℕ, List, map, option_map, string_bytes, IfSome, IfNone};
ghost use Rattle.stream_map.specs.Children.{IsGridPlace, file_in, grid_file, plain, with_second, with_text};

use crate::pool_text::begins_grid;
use task_model::Seq;
use transcript_model::Pool;

/// The second word, where there is one.
fn second_word(words: &[String]) -> Option<&str>
    ensures { option_map (λ s. s.now) result ≡ file_in (map string_bytes words.now) }
{
    match words {
        [_, file, ..] => Some(file.as_str()),
        _ => None,
    }
}

/// The path of the grid's file, where a pool begins with `@grid`: the word behind that.
pub fn grid_path(pools: &[Pool]) -> Option<&str>
    ensures { option_map (λ file. file.now) result ≡ grid_file (map plain pools.now) }
{
    for pool in pools {
        if begins_grid(pool.argv.as_slice()) {
            return second_word(pool.argv.as_slice());
        }
    }
    None
}

/// The words with this text in the place of the second.
fn with_second(words: Seq<String>, text: String) -> Seq<String>
    ensures { map string_bytes result ≡ with_second (string_bytes text) (map string_bytes words) }
{
    let mut words = words.into_vec();
    if words.len() >= 2 {
        words[1] = text;
    }
    Seq::from_vec(words)
}

/// Where the first pool that begins with `@grid` stands.
fn grid_place(pools: &[Pool]) -> Option<usize>
    ensures first { IfSome result (IsGridPlace pools.now) }
    ensures none { IfNone result ((text : List ℕ)
        → with_text text (map plain pools.now) ≡ map plain pools.now) }
{
    for (place, pool) in pools.iter().enumerate() {
        if begins_grid(pool.argv.as_slice()) {
            return Some(place);
        }
    }
    None
}

/// The same pools with the grid's text in the place of its path, so that they can be started. It
/// takes no memory.
pub fn with_grid(pools: Seq<Pool>, text: String) -> Seq<Pool>
    ensures { map plain result ≡ with_text (string_bytes text) (map plain pools) }
{
    let mut pools = pools.into_vec();
    if let Some(place) = grid_place(pools.as_slice()) {
        let Pool {
            first,
            workers,
            streams,
            argv,
        } = pools.remove(place);
        let argv = with_second(argv, text);
        match pools.insert(
            place,
            Pool {
                first,
                workers,
                streams,
                argv,
            },
        ) {
            Ok(()) => {}
            Err(_) => unreachable!(),
        }
    }
    Seq::from_vec(pools)
}
