//! The forms in which a day, a month or a year is written.
ghost use Rattle.std.specs.Prelude.{◌≡◌};
ghost use Rattle.osn_grammar.specs.Forms as spec;

use crate::simple::{
    YearNumbers, around_month, day_in_digits, day_of_month, double_year_or_days, in_order,
    month_in_digits, month_of, month_or_double_year, one, three_numbers, two, whole_year,
    year_and_day, year_and_month, year_and_name, year_last,
};
use crate::text_reading::DateOrder;
use crate::token::Numeral;
use crate::token::Token::{self, Blank, Dash, Dot, Month, Number, Slash};
use osn_written::{DateFault, PartialDate};

/// Returns the numbers of a year that parts are: one, or two with a `/` between them.
pub fn year_numbers(tokens: &[Token]) -> Option<YearNumbers>
    ensures { result ≡ spec.year_numbers tokens.now }
{
    match tokens {
        [Number(y)] => Some(one(*y)),
        [Number(y), Slash, Number(l)] => Some(two(*y, *l)),
        _ => None,
    }
}

/// Returns the day of a month in a year, if there is a year.
fn day_in_year(
    years: Option<YearNumbers>,
    month: u8,
    day: Numeral,
) -> Result<PartialDate, DateFault>
    ensures { result ≡ spec.day_in_year years month day }
{
    match years {
        Some(years) => day_of_month(years, month, day),
        None => Err(DateFault::Malformed),
    }
}

/// Returns the month in a year, if there is a year.
fn month_in_year(years: Option<YearNumbers>, month: u8) -> Result<PartialDate, DateFault>
    ensures { result ≡ spec.month_in_year years month }
{
    match years {
        Some(years) => month_of(years, u32::from(month)),
        None => Err(DateFault::Malformed),
    }
}

/// Returns the date of two numbers with a `/` between them and these parts after them.
fn after_slash(
    order: DateOrder,
    first: Numeral,
    second: Numeral,
    rest: &[Token],
) -> Result<PartialDate, DateFault>
    ensures { result ≡ spec.after_slash order first second rest.now }
{
    match rest {
        [Slash, Number(c)] => three_numbers(order, first, second, *c),
        [Number(y)] => year_last(order, first, second, *y),
        [Dash, Number(m), Dash, Number(d)] => day_in_digits(two(first, second), *m, *d),
        _ => Err(DateFault::Malformed),
    }
}

/// Returns the date of two numbers with a full stop between them and these parts after them.
fn after_dot(day: Numeral, month: Numeral, rest: &[Token]) -> Result<PartialDate, DateFault>
    ensures { result ≡ spec.after_dot day month rest.now }
{
    match rest {
        [Dot, Number(y)] => in_order(DateOrder::DayMonth, day, month, *y),
        [Dot, Number(y), Slash, Number(l)] => day_in_digits(two(*y, *l), month, day),
        _ => Err(DateFault::Malformed),
    }
}

/// Returns a day in a form of numbers alone.
fn day_in_numbers(order: DateOrder, tokens: &[Token]) -> Result<PartialDate, DateFault>
    ensures { result ≡ spec.day_in_numbers order tokens.now }
{
    match tokens {
        [Number(a), Number(b), Number(c)] => three_numbers(order, *a, *b, *c),
        [Number(a), Dash, Number(b), Dash, Number(c)] => three_numbers(order, *a, *b, *c),
        [Number(a), Slash, Number(b), rest @ ..] => after_slash(order, *a, *b, rest),
        [Number(a), Dot, Number(b), rest @ ..] => after_dot(*a, *b, rest),
        _ => Err(DateFault::Malformed),
    }
}

/// Returns the day of a number and the name of a month with these parts after them.
fn after_name(first: Numeral, month: u8, rest: &[Token]) -> Result<PartialDate, DateFault>
    ensures { result ≡ spec.after_name first month rest.now }
{
    match rest {
        [Number(b)] => around_month(first, month, *b),
        [Number(y), Slash, Number(l)] => day_of_month(two(*y, *l), month, first),
        _ => Err(DateFault::Malformed),
    }
}

/// Returns the day of a number with these parts after it.
fn after_number(first: Numeral, rest: &[Token]) -> Result<PartialDate, DateFault>
    ensures { result ≡ spec.after_number first rest.now }
{
    match rest {
        [Month(m), rest @ ..] => after_name(first, *m, rest),
        [Number(d), Month(m)] => year_and_day(first, *d, *m),
        [Dash, Month(m), Dash, Number(b)] => around_month(first, *m, *b),
        [Slash, Month(m), Slash, Number(b)] => around_month(first, *m, *b),
        [Slash, Number(b), Month(m), Number(c)] => double_year_or_days(first, *b, *m, *c),
        _ => Err(DateFault::Malformed),
    }
}

/// Returns the day of the name of a month with these parts after it.
fn after_month(month: u8, rest: &[Token]) -> Result<PartialDate, DateFault>
    ensures { result ≡ spec.after_month month rest.now }
{
    match rest {
        [Number(d), Number(y)] => day_of_month(one(*y), month, *d),
        [Number(d), Number(y), Slash, Number(l)] => day_of_month(two(*y, *l), month, *d),
        [Number(d), Dot, year @ ..] => day_in_year(year_numbers(year), month, *d),
        _ => Err(DateFault::Malformed),
    }
}

/// Returns a day in a form with the name of its month.
fn day_in_words(tokens: &[Token]) -> Result<PartialDate, DateFault>
    ensures { result ≡ spec.day_in_words tokens.now }
{
    match tokens {
        [Number(a), rest @ ..] => after_number(*a, rest),
        [Month(m), rest @ ..] => after_month(*m, rest),
        _ => Err(DateFault::Malformed),
    }
}

/// Returns the year of which the month and the day are open, unless it may lack a digit.
fn year_without_day(year: Numeral) -> Result<PartialDate, DateFault>
    ensures { result ≡ spec.year_without_day year }
{
    if year.digits >= 4 {
        whole_year(one(year))
    } else {
        Err(DateFault::OpenYear)
    }
}

/// Returns the month or the year of a year with a dash and these parts after it.
fn after_dash(year: Numeral, rest: &[Token]) -> Result<PartialDate, DateFault>
    ensures { result ≡ spec.after_dash year rest.now }
{
    match rest {
        [Number(m)] => year_and_month(year, *m),
        [Number(m), Dash, Blank] => month_in_digits(one(year), *m),
        [Blank, Dash, Blank] => year_without_day(year),
        _ => Err(DateFault::Malformed),
    }
}

/// Returns the month or the year of two numbers with a `/` between them and these parts after them.
fn after_double_year(
    first: Numeral,
    second: Numeral,
    rest: &[Token],
) -> Result<PartialDate, DateFault>
    ensures { result ≡ spec.after_double_year first second rest.now }
{
    match rest {
        [] => month_or_double_year(first, second),
        [Month(m)] => month_of(two(first, second), u32::from(*m)),
        [Dash, Number(m)] => month_in_digits(two(first, second), *m),
        _ => Err(DateFault::Malformed),
    }
}

/// Returns a month or a year in a form that begins with a number, with these parts after it.
fn after_year(year: Numeral, rest: &[Token]) -> Result<PartialDate, DateFault>
    ensures { result ≡ spec.after_year year rest.now }
{
    match rest {
        [] => whole_year(one(year)),
        [Month(m)] => year_and_name(year, *m),
        [Dash, rest @ ..] => after_dash(year, rest),
        [Slash, Number(l), rest @ ..] => after_double_year(year, *l, rest),
        _ => Err(DateFault::Malformed),
    }
}

/// Returns a month or a year.
pub fn month_or_year(tokens: &[Token]) -> Result<PartialDate, DateFault>
    ensures { result ≡ spec.month_or_year tokens.now }
{
    match tokens {
        [Number(y), rest @ ..] => after_year(*y, rest),
        [Month(m), year @ ..] => month_in_year(year_numbers(year), *m),
        _ => Err(DateFault::Malformed),
    }
}

/// Returns a date in digits with its year first: a day, a month or a year.
pub fn date_in_digits(tokens: &[Token]) -> Result<PartialDate, DateFault>
    ensures { result ≡ spec.date_in_digits tokens.now }
{
    match tokens {
        [Number(y), Dash, Number(m), Dash, Number(d)] => day_in_digits(one(*y), *m, *d),
        [Number(y), Dash, Number(m)] => year_and_month(*y, *m),
        [Number(y)] => whole_year(one(*y)),
        _ => Err(DateFault::Malformed),
    }
}

/// Returns the date of parts that are one date.
pub fn partial_date(order: DateOrder, tokens: &[Token]) -> Result<PartialDate, DateFault>
    ensures { result ≡ spec.partial_date order tokens.now }
{
    match day_in_numbers(order, tokens) {
        Err(DateFault::Malformed) => {}
        read => return read,
    }
    match day_in_words(tokens) {
        Err(DateFault::Malformed) => month_or_year(tokens),
        read => read,
    }
}
