//! Days and months in digits whose last digit is open, as EDTF writes them: `1675-05-0X`.
ghost use Rattle.std.specs.Prelude.{◌≡◌};
ghost use Rattle.osn_grammar.specs.OpenDigits as spec;

use crate::order::is_month;
use crate::period::{day_in, end_of};
use crate::simple::{one, year_of};
use crate::token::Numeral;
use crate::token::Token::{self, Blank, Dash, Number, Tens};
use osn_written::{DateFault, Extent, PartialDate, Year};

/// Returns the months of a year from one to another.
fn from_month(year: Year, first: u8, last: u8) -> Extent
    ensures { result ≡ spec.from_month year first last }
{
    Extent::FromTo(
        PartialDate::Month { year, month: first },
        PartialDate::Month { year, month: last },
    )
}

/// Returns the months of a year that begin with a digit: 1 to 9, or 10 to 12.
fn months(year: Year, tens: u8) -> Option<Extent>
    ensures { result ≡ spec.months year tens }
{
    if tens == 0 {
        Some(from_month(year, 1, 9))
    } else if tens == 1 {
        Some(from_month(year, 10, 12))
    } else {
        None
    }
}

/// Returns the days of a month that begin with a digit.
fn days(year: Year, month: u8, tens: u8) -> Option<Extent>
    ensures { result ≡ spec.days year month tens }
{
    if tens == 0 {
        Some(Extent::FromTo(day_in(year, month, 1), day_in(year, month, 9)))
    } else if tens == 1 {
        Some(Extent::FromTo(day_in(year, month, 10), day_in(year, month, 19)))
    } else if month == 2 {
        if tens == 2 {
            Some(Extent::FromTo(day_in(year, month, 20), end_of(year, month)))
        } else {
            None
        }
    } else if tens == 2 {
        Some(Extent::FromTo(day_in(year, month, 20), day_in(year, month, 29)))
    } else {
        Some(Extent::FromTo(day_in(year, month, 30), end_of(year, month)))
    }
}

/// Returns the months of a year that begin with a digit, if the year is read.
fn months_of(year: Result<Year, DateFault>, tens: u8) -> Option<Extent>
    ensures { result ≡ spec.months_of year tens }
{
    match year {
        Ok(year) => months(year, tens),
        Err(_) => None,
    }
}

/// Returns the days of a month of a year whose numbers begin with this tens digit, if the year is
/// read.
fn days_of(year: Result<Year, DateFault>, month: u32, tens: u8) -> Option<Extent>
    ensures { result ≡ spec.days_of year month tens }
{
    match year {
        Ok(year) if is_month(month) => days(year, month as u8, tens),
        _ => None,
    }
}

/// Returns a year, of which nothing more is known.
fn year_alone(year: Result<Year, DateFault>) -> Option<Extent>
    ensures { result ≡ spec.year_alone year }
{
    match year {
        Ok(year) => Some(Extent::On(PartialDate::Year(year))),
        Err(_) => None,
    }
}

/// Returns a year of four digits.
fn year_alone_in(year: Numeral) -> Option<Extent>
    ensures { result ≡ spec.year_alone_in year }
{
    if year.digits == 4 {
        year_alone(year_of(one(year)))
    } else {
        None
    }
}

/// Returns the months of a year of four digits.
fn months_in(year: Numeral, tens: u8) -> Option<Extent>
    ensures { result ≡ spec.months_in year tens }
{
    if year.digits == 4 {
        months_of(year_of(one(year)), tens)
    } else {
        None
    }
}

/// Returns the days of a month of two digits in a year of four.
fn days_in(year: Numeral, month: Numeral, tens: u8) -> Option<Extent>
    ensures { result ≡ spec.days_in year month tens }
{
    if year.digits == 4 && month.digits == 2 {
        days_of(year_of(one(year)), month.value, tens)
    } else {
        None
    }
}

/// Returns what parts say after a year and a dash.
fn after_year(year: Numeral, rest: &[Token]) -> Option<Extent>
    ensures { result ≡ spec.after_year year rest.now }
{
    match rest {
        [Blank] => year_alone_in(year),
        [Tens(tens)] => months_in(year, *tens),
        [Number(month), Dash, Tens(tens)] => days_in(year, *month, *tens),
        _ => None,
    }
}

/// Returns the days, the months or the year that parts are, if the last digit or the month is open.
pub fn open_in(tokens: &[Token]) -> Option<Extent>
    ensures { result ≡ spec.open_in tokens.now }
{
    match tokens {
        [Number(year), Dash, rest @ ..] => after_year(*year, rest),
        _ => None,
    }
}
