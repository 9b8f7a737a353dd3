//! Parts of a month, a year, a decade or a century, and seasons and quarters of a year.
ghost use Rattle.std.specs.Prelude.{◌≡◌, ◌≤◌, IfSome};
ghost use Rattle.std.specs.List.{list_any};
ghost use Rattle.osn_grammar.specs.Period as spec;

use crate::forms::month_or_year;
use crate::simple::{month_of, one, whole_year, year_of};
use crate::token::Token::{self, Dash, Fraction, Nth, Number, Season};
use crate::token::{Fraction as Share, Nth as Place, Numeral, Years};
use crate::years::{by_word, one_in, or_years, range_of};
use osn_written::{DateFault, Extent, PartialDate, Portion, Year};

/// Returns the portion that a third or a half is, by its place, such as `first half`.
fn portion_of(place: Place, share: Share) -> Portion
    ensures { result ≡ spec.portion_of place share }
{
    match (place, share) {
        (Place::First, Share::Third) => Portion::FirstThird,
        (Place::Second, Share::Third) => Portion::MiddleThird,
        (Place::Last, Share::Third) => Portion::LastThird,
        (Place::First, Share::Half) => Portion::FirstHalf,
        (Place::Second | Place::Last, Share::Half) => Portion::SecondHalf,
    }
}

/// Returns the part of the years of a decade or a century. A third or a half that ends within a
/// year has the whole year.
fn part_of_years(portion: Portion, years: Years) -> Years
    ensures { result ≡ spec.part_of_years portion years }
{
    let Years { first, last } = years;
    let gap = u32::from(last.saturating_sub(first));
    match portion {
        Portion::FirstThird => Years {
            first,
            last: first + (gap / 3) as u16,
        },
        Portion::MiddleThird => Years {
            first: first + ((gap + 1) / 3) as u16,
            last: last - ((gap + 1) / 3) as u16,
        },
        Portion::LastThird => Years {
            first: last - (gap / 3) as u16,
            last,
        },
        Portion::FirstHalf => Years {
            first,
            last: first + (gap / 2) as u16,
        },
        Portion::SecondHalf => Years {
            first: last - (gap / 2) as u16,
            last,
        },
    }
}

/// Returns a day of a month.
pub fn day_in(year: Year, month: u8, day: u8) -> PartialDate
    ensures { result ≡ spec.day_in year month day }
{
    PartialDate::Day { year, month, day }
}

/// Returns the last day of a month, or the whole of February, whose last day differs.
pub fn end_of(year: Year, month: u8) -> PartialDate
    ensures { result ≡ spec.end_of year month }
{
    match month {
        2 => PartialDate::Month { year, month },
        4 | 6 | 9 | 11 => day_in(year, month, 30),
        _ => day_in(year, month, 31),
    }
}

/// Returns the days of a part of a month.
pub fn part_of_month(portion: Portion, year: Year, month: u8) -> Extent
    ensures { result ≡ spec.part_of_month portion year month }
{
    match portion {
        Portion::FirstThird => Extent::FromTo(day_in(year, month, 1), day_in(year, month, 10)),
        Portion::MiddleThird => Extent::FromTo(day_in(year, month, 11), day_in(year, month, 20)),
        Portion::LastThird => Extent::FromTo(day_in(year, month, 21), end_of(year, month)),
        Portion::FirstHalf => Extent::FromTo(day_in(year, month, 1), day_in(year, month, 15)),
        Portion::SecondHalf => Extent::FromTo(day_in(year, month, 16), end_of(year, month)),
    }
}

/// Returns the part of a month or a year.
fn part_of_date(portion: Portion, whole: Result<PartialDate, DateFault>) -> Option<Extent>
    ensures { result ≡ spec.part_of_date portion whole }
{
    match whole {
        Ok(PartialDate::Month { year, month }) => Some(part_of_month(portion, year, month)),
        Ok(PartialDate::Year(year)) => Some(Extent::Part(portion, PartialDate::Year(year))),
        _ => None,
    }
}

/// Returns the part of the month, the year, the decade or the century that parts are.
fn part_of(portion: Portion, whole: &[Token]) -> Option<Extent>
    ensures { result ≡ spec.part_of portion whole.now }
{
    match or_years(one_in(whole), by_word(whole)) {
        Some(years) => Some(range_of(part_of_years(portion, years))),
        None => part_of_date(portion, month_or_year(whole)),
    }
}

/// Returns the part of a month, a year, a decade or a century. Before the whole may be a dash, as
/// in `mid-1675`, or the word `third`.
fn part_after(portion: Portion, rest: &[Token]) -> Option<Extent>
    ensures { result ≡ spec.part_after portion rest.now }
{
    match rest {
        [Dash, whole @ ..] => part_of(portion, whole),
        [Fraction(Share::Third), whole @ ..] => part_of(portion, whole),
        _ => part_of(portion, rest),
    }
}

/// Returns three months of a year.
pub fn three_months(year: Result<Year, DateFault>, first: u8) -> Option<Extent>
    requires { first ≤ 10 }
    ensures { result ≡ spec.three_months year first }
{
    match year {
        Ok(year) => Some(Extent::FromTo(
            PartialDate::Month { year, month: first },
            PartialDate::Month {
                year,
                month: first + 2,
            },
        )),
        Err(_) => None,
    }
}

/// Returns the months of a season of a year. Which year a winter is of is open.
fn season_of(first: u8, year: Numeral) -> Option<Extent>
    ensures { result ≡ spec.season_of first year }
{
    if first <= 10 {
        three_months(year_of(one(year)), first)
    } else {
        None
    }
}

/// Returns the months of a season before its year.
fn season_in(first: u8, year: &[Token]) -> Option<Extent>
    ensures { result ≡ spec.season_in first year.now }
{
    match year {
        [Number(year)] => season_of(first, *year),
        _ => None,
    }
}

/// Returns the first month of a season or a quarter by its code in EDTF.
fn month_by_code(code: u32) -> Option<u8>
    ensures value { result ≡ spec.month_by_code code }
    ensures small { IfSome result (λ first. first ≤ 10) }
{
    match code {
        21 => Some(3),
        22 => Some(6),
        23 => Some(9),
        33 => Some(1),
        34 => Some(4),
        35 => Some(7),
        36 => Some(10),
        _ => None,
    }
}

/// Returns the season or the quarter of a code of two digits after its year. If the code may be the
/// last digits of a later year, as in `1521-33`, it is not sure.
fn part_of_code(year: Numeral, code: Numeral) -> Option<Extent>
    ensures { result ≡ spec.part_of_code year code }
{
    match month_by_code(code.value) {
        Some(first) if year.digits == 4 && code.digits == 2 && code.value <= year.value % 100 => {
            three_months(year_of(one(year)), first)
        }
        _ => None,
    }
}

/// Returns which one of some equal parts a number is.
fn nth_of(number: u32) -> Option<Place>
    ensures { result ≡ spec.nth_of number }
{
    match number {
        1 => Some(Place::First),
        2 => Some(Place::Second),
        _ => None,
    }
}

/// Returns the part of a time that a third or a half is, by its place.
fn nth_part(place: Option<Place>, share: Share, whole: &[Token]) -> Option<Extent>
    ensures { result ≡ spec.nth_part place share whole.now }
{
    match place {
        Some(place) => part_of(portion_of(place, share), whole),
        None => None,
    }
}

/// Returns the part of a time that a number and these parts after it are.
fn after_number(number: Numeral, rest: &[Token]) -> Option<Extent>
    ensures { result ≡ spec.after_number number rest.now }
{
    match rest {
        [Dash, Number(code)] => part_of_code(number, *code),
        [Token::Portion(portion)] => part_of_date(*portion, whole_year(one(number))),
        [Season(first)] => season_of(*first, number),
        [Fraction(share), whole @ ..] => nth_part(nth_of(number.value), *share, whole),
        _ => None,
    }
}

/// Returns the part of a month that is after it: `Feb. 1675 (early)`.
fn after_month(month: u8, rest: &[Token]) -> Option<Extent>
    ensures { result ≡ spec.after_month month rest.now }
{
    match rest {
        [Number(year), Token::Portion(portion)] => {
            part_of_date(*portion, month_of(one(*year), u32::from(month)))
        }
        _ => None,
    }
}

/// Returns the part of a decade or of the years of a century that is after it: `1580s, early`.
fn after_years(years: Years, rest: &[Token]) -> Option<Extent>
    ensures { result ≡ spec.after_years years rest.now }
{
    match rest {
        [Token::Portion(portion)] => Some(range_of(part_of_years(*portion, years))),
        _ => None,
    }
}

/// Returns the part of a time that parts are, if they are one: a part of a month, a year, a decade
/// or a century, a season or a quarter.
pub fn period_in(tokens: &[Token]) -> Option<Extent>
    ensures { result ≡ spec.period_in tokens.now }
{
    match tokens {
        [Token::Portion(portion), rest @ ..] => part_after(*portion, rest),
        [Nth(place), Fraction(share), whole @ ..] => nth_part(Some(*place), *share, whole),
        [Season(first), year @ ..] => season_in(*first, year),
        [Number(number), rest @ ..] => after_number(*number, rest),
        [Token::Month(month), rest @ ..] => after_month(*month, rest),
        [Token::Years(years), rest @ ..] => after_years(*years, rest),
        _ => None,
    }
}

/// Returns whether parts are the code of a winter after its year, and not a range such as
/// `1621-24`.
pub fn is_winter(tokens: &[Token]) -> bool
    ensures { result ≡ spec.is_winter tokens.now }
{
    match tokens {
        [Number(year), Dash, Number(code)] => {
            code.value == 24
                && year.digits == 4
                && code.digits == 2
                && code.value <= year.value % 100
        }
        _ => false,
    }
}

/// Returns whether a part names a part of a time.
pub fn has_period(tokens: &[Token]) -> bool
    ensures { result ≡ list_any spec.is_period tokens.now }
{
    tokens.iter().any(|token| matches!(token, Token::Portion(_) | Token::Season(_)))
}
