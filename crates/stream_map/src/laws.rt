//! Laws of the definitions in `specs/`, each the contract of a function that does nothing.
ghost use Rattle.stream_map.specs.Laws.{AcceptedMapsAreWhole, AcceptedWordsAreWhole, TextsKeepPoolsWhole};

/// The pools of an accepted map serve each stream once and have children of their own.
pub fn accepted_maps_are_whole()
    ensures { AcceptedMapsAreWhole }
{}

/// So does the pool of accepted words.
pub fn accepted_words_are_whole()
    ensures { AcceptedWordsAreWhole }
{}

/// The grid's text in the place of its path changes nothing of that.
pub fn texts_keep_pools_whole()
    ensures { TextsKeepPoolsWhole }
{}
