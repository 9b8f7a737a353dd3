//! One Sunday letter, and how it is written.
ghost use Rattle.std.specs.Prelude.{◌≡◌, ◌<◌};
ghost use Rattle.osn_computus.specs.Letters.{letter_name, letter_number};

/// One of the seven letters of the days of the year in the calendar of the canons.
#[derive(Clone, Copy, Debug, PartialEq, Eq, Hash)]
pub enum Letter {
    A,
    B,
    C,
    D,
    E,
    F,
    G,
}

impl Letter {
    /// Returns the letter as it is written.
    pub fn name(self) -> &'static str
        ensures { result.now ≡ letter_name self }
    {
        match self {
            Letter::A => "A",
            Letter::B => "B",
            Letter::C => "C",
            Letter::D => "D",
            Letter::E => "E",
            Letter::F => "F",
            Letter::G => "G",
        }
    }

    /// Returns the letter that many places after A.
    pub(crate) fn at(number: u32) -> Letter
        requires { number < 7 }
        ensures { letter_number result ≡ number }
    {
        match number {
            0 => Letter::A,
            1 => Letter::B,
            2 => Letter::C,
            3 => Letter::D,
            4 => Letter::E,
            5 => Letter::F,
            _ => Letter::G,
        }
    }
}
