//! Which dates are read back from their words.
ghost use Rattle.std.specs.Prelude.{◌≡◌};
ghost use Rattle.osn_grammar.specs.Simple as simple;
ghost use Rattle.osn_grammar.specs.WordsRead as spec;
ghost use Rattle.osn_grammar.specs.WordsRead.{AreWordsRead};

use osn_written::{AnyDate, Extent, PartialDate, Year};

/// Returns whether a number is from a least to a greatest one.
fn is_between(low: u8, high: u8, number: u8) -> bool
    ensures { result ≡ simple.is_between low high number }
{
    low <= number && number <= high
}

/// Returns whether the words of a year are read back.
fn is_writable_year(year: Year) -> bool
    ensures { result ≡ spec.is_writable_year year }
{
    year.first <= 10000 && !year.has_three_digits
}

/// Returns whether the words of a day, a month or a year are read back.
fn is_writable_date(date: PartialDate) -> bool
    ensures { result ≡ spec.is_writable_date date }
{
    match date {
        PartialDate::Day { year, month, day } => {
            is_writable_year(year) && is_between(1, 12, month) && is_between(1, 31, day)
        }
        PartialDate::Month { year, month } => is_writable_year(year) && is_between(1, 12, month),
        PartialDate::Year(year) => is_writable_year(year),
    }
}

/// Returns whether each year of a date is at most 10000 and is not written with three digits, each
/// month is 1 to 12 and each day 1 to 31, and the date is neither a part of a year nor a feast.
/// Then `read_date` reads the words of the date as that date, in each order of day and month.
#[tactic(auto, using(crate::proofs::WordsLaw::words_law))]
pub fn is_writable(date: AnyDate) -> bool
    ensures value { result ≡ spec.is_writable date }
    // as a law: the words of a date for which this is true are read as that date, in each order of
    // day and month
    ensures words { AreWordsRead }
{
    match date.extent {
        Extent::FromTo(first, last) => is_writable_date(first) && is_writable_date(last),
        Extent::DaysOfYear { first, last, year } => {
            is_writable_date(first.in_year(year)) && is_writable_date(last.in_year(year))
        }
        Extent::Part(_, _) | Extent::Feast { .. } => false,
        Extent::On(date)
        | Extent::Before(date)
        | Extent::NotAfter(date)
        | Extent::After(date)
        | Extent::NotBefore(date) => is_writable_date(date),
    }
}
