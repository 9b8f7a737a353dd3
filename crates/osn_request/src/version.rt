//! The versions of the rules, and of the form of journals and scripts.
ghost use Rattle.std.specs.Prelude.{◌≡◌};
ghost use Rattle.osn_territory.specs.StyleWords.{has_style};
ghost use Rattle.osn_request.specs.Version as spec;

use osn_territory::Style;

/// A version of the rules and of the form of journals and scripts.
#[derive(Clone, Copy, Debug, PartialEq, Eq)]
pub enum Version {
    /// The first version, which does not change any more.
    First,
    /// The second version: two styles more.
    Second,
    /// Version 4: an edit may give a source. No version has the number 3, and a head with it is
    /// refused.
    Fourth,
}

impl Version {
    /// Returns the version by which requests, questions and schedules are read.
    pub fn newest() -> Version
        ensures { result ≡ spec.newest_version }
    {
        Self::Fourth
    }

    /// Returns the version that is written if no source is given, and with which a new kept file
    /// begins.
    pub fn plain() -> Version
        ensures { result ≡ spec.plain_version }
    {
        Self::Second
    }

    /// Returns the number in a head.
    pub fn number(self) -> u32
        ensures { result ≡ spec.version_number self }
    {
        match self {
            Version::First => 1,
            Version::Second => 2,
            Version::Fourth => 4,
        }
    }

    /// Returns the version of a number, if any has it.
    pub fn from_number(number: i64) -> Option<Version>
        ensures { result ≡ spec.version_numbered number }
    {
        match number {
            1 => Some(Version::First),
            2 => Some(Version::Second),
            4 => Some(Version::Fourth),
            _ => None,
        }
    }

    /// Returns whether a line may have the style's word by the rules of this version.
    pub fn has_style(self, style: Style) -> bool
        ensures { result ≡ has_style (spec.rules_of self) style }
    {
        match self {
            Version::First => match style {
                Style::January | Style::Annunciation | Style::Nativity | Style::September => true,
                Style::Pisan | Style::Easter => false,
            },
            Version::Second | Version::Fourth => true,
        }
    }

    /// Returns whether an edit may give a source in a line of this version.
    pub fn has_sources(self) -> bool
        ensures { result ≡ spec.has_sources self }
    {
        match self {
            Version::First | Version::Second => false,
            Version::Fourth => true,
        }
    }
}
