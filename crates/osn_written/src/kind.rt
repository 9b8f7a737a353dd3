//! What kind of date is written.
ghost use Rattle.std.specs.Prelude.{◌≡◌};
ghost use Rattle.osn_written.specs.Kind as spec;

use crate::any_date::{Extent, PartialDate};

/// What kind of date is written.
#[derive(Clone, Copy, Debug, PartialEq, Eq)]
pub enum Kind {
    Day,
    Month,
    Year,
    /// From one date to another one.
    Range,
    /// Before a date, or not after it.
    Before,
    /// After a date, or not before it.
    After,
    /// A part of a month or a year.
    Part,
    /// One of several dates.
    Set,
    /// A feast that is counted from Easter.
    Feast,
}

impl Kind {
    /// Returns the word of the kind: `day`, `month`, `year`, `range`, `before`, `after`, `part`,
    /// `set` or `feast`.
    pub fn word(self) -> &'static str
        ensures { result.now ≡ spec.kind_word self }
    {
        match self {
            Kind::Day => "day",
            Kind::Month => "month",
            Kind::Year => "year",
            Kind::Range => "range",
            Kind::Before => "before",
            Kind::After => "after",
            Kind::Part => "part",
            Kind::Set => "set",
            Kind::Feast => "feast",
        }
    }
}

/// Returns the kind of one date.
fn kind_of_date(date: PartialDate) -> Kind
    ensures { result ≡ spec.kind_of_date date }
{
    match date {
        PartialDate::Day { .. } => Kind::Day,
        PartialDate::Month { .. } => Kind::Month,
        PartialDate::Year(_) => Kind::Year,
    }
}

/// Returns the kind of what is written.
pub fn kind_of(extent: Extent) -> Kind
    ensures { result ≡ spec.kind_of extent }
{
    match extent {
        Extent::On(date) => kind_of_date(date),
        Extent::FromTo(_, _) | Extent::DaysOfYear { .. } => Kind::Range,
        Extent::Before(_) | Extent::NotAfter(_) => Kind::Before,
        Extent::After(_) | Extent::NotBefore(_) => Kind::After,
        Extent::Part(_, _) => Kind::Part,
        Extent::Feast { .. } => Kind::Feast,
    }
}
