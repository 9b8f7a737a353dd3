//! Values that a line and a reply name by a word.
ghost use Rattle.std.specs.Prelude.{◌≡◌, ℕ, List, Option};

/// What a line and a reply say by a word.
pub trait Keyword {
    // The word of a value.
    ghost word_of: { Self → List ℕ };

    // What a word means, if anything.
    ghost meaning: { List ℕ → Option Self };

    /// Returns the word of the value.
    fn word(self) -> &'static str
        ensures { result.now ≡ word_of self };

    /// Returns the value of a word, if it is one of the words.
    fn from_word(word: &str) -> Option<Self>
        ensures { result ≡ meaning word.now };
}
