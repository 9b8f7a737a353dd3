//! In a few words, why a text says nothing of a date, or why a date means no day.
ghost use Rattle.std.specs.Prelude.{◌≡◌};
ghost use Rattle.osn_written.specs.Words as spec;

use crate::absence::Absence;
use crate::finding::NoDay;
use crate::written_date::DateFault;

impl Absence {
    /// Returns why one date means no day, such as `skipped`.
    fn words(self) -> &'static str
        ensures { result.now ≡ spec.absence_words self }
    {
        match self {
            Absence::NotWithBothYears => "not with both years",
            Absence::NotOfItsCalendar => "no date of its calendar",
            Absence::OffTheLine => "off the line",
            Absence::Skipped => "skipped",
            Absence::NotInThatYear => "no such date in that year",
        }
    }

    /// Returns why the last date of a range means no day.
    fn words_of_last(self) -> &'static str
        ensures { result.now ≡ spec.last_absence_words self }
    {
        match self {
            Absence::NotWithBothYears => "last date: not with both years",
            Absence::NotOfItsCalendar => "last date: no date of its calendar",
            Absence::OffTheLine => "last date: off the line",
            Absence::Skipped => "last date: skipped",
            Absence::NotInThatYear => "last date: no such date in that year",
        }
    }
}

impl NoDay {
    /// Returns why a written date means no day, such as `skipped` or `first date after the last`.
    pub fn words(self) -> &'static str
        ensures { result.now ≡ spec.no_day_words self }
    {
        match self {
            NoDay::Absent(absence) => absence.words(),
            NoDay::LastAbsent(absence) => absence.words_of_last(),
            NoDay::OutOfOrder => "first date after the last",
            NoDay::OffTheLine => "off the line",
            NoDay::NoFeast => "no such feast in that year",
        }
    }
}

impl DateFault {
    /// Returns why a text says nothing of a date, such as `malformed date` or
    /// `open between day and month`.
    pub fn words(self) -> &'static str
        ensures { result.now ≡ spec.fault_words self }
    {
        match self {
            DateFault::Malformed => "malformed date",
            DateFault::LaterYear => "not the year that follows",
            DateFault::Year => "no year from 0 to 10000",
            DateFault::Month => "no month from 1 to 12",
            DateFault::Day => "no day from 1 to 31",
            DateFault::NoDate => "no date",
            DateFault::NotOneDay => "not one day",
            DateFault::Qualifier => "more than a day",
            DateFault::ShortYear => "year of one or two digits",
            DateFault::OpenYear => "year with an open digit",
            DateFault::DayOrMonth => "open between day and month",
            DateFault::BothCalendars => "day by both calendars",
            DateFault::TwoDays { .. } => "two days by both calendars",
            DateFault::NamedCalendar => "one calendar for the dates of both",
            DateFault::Feast => "a feast, not read",
            DateFault::RomanNumeral => "a Roman numeral, not read",
            DateFault::OpenPart => "an open part of a date, not read",
        }
    }
}
