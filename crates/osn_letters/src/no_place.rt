//! Why a letter has no territory.
ghost use Rattle.std.specs.Prelude.{◌≡◌};
ghost use Rattle.osn_letters.specs.Remarks as spec;

/// Why the place of a letter is that of no territory.
#[derive(Clone, Copy, Debug, PartialEq, Eq)]
pub enum NoPlace {
    /// No territory has that code or that name.
    Unknown,
    /// Several territories have that code or that name.
    Ambiguous,
    /// The place is not UTF-8.
    NotUtf8,
}

impl NoPlace {
    /// Returns the reason in words.
    pub(crate) fn words(self) -> &'static str
        ensures { result.now ≡ spec.place_words self }
    {
        match self {
            NoPlace::Unknown => "unknown place",
            NoPlace::Ambiguous => "ambiguous place",
            NoPlace::NotUtf8 => "not UTF-8",
        }
    }
}
