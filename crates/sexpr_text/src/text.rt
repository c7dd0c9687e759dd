//! The letters of a word.
ghost use Rattle.std.specs.Prelude.{◌≡◌, ℕ, List};

use smallvec::SmallVec;
use std::marker::Model;

/// The letters of a word, which contracts see as a list of bytes. Up to 22 lie in the value itself.
#[derive(Debug, Drop)]
pub struct Text {
    bytes: SmallVec<u8, 22>,
}

impl Model for Text {
    ghost Value = { List ℕ };

    ghost view = { λ t. t.bytes.items };
}

impl Text {
    /// The word of these letters. It takes no memory.
    pub fn new(bytes: SmallVec<u8, 22>) -> Text
        ensures { result ≡ bytes.items }
    {
        Text { bytes }
    }

    /// The letters, in order.
    pub fn bytes(&self) -> &[u8]
        ensures { result.now ≡ self.now }
    {
        self.bytes.as_slice()
    }
}
