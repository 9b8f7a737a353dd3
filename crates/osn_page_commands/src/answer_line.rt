//! The answer of a page in JSON: the service's reply to each query of the page.
ghost use Rattle.std.specs.Prelude.{◌≡◌, ◌++◌, IfOk, OnOk, string_bytes};
ghost use Rattle.osn_core.specs.Edition.{edition_model};
ghost use Rattle.osn_grammar.specs.ReadDate.{reading_by};
ghost use Rattle.osn_grammar.specs.Reading.{members};
ghost use Rattle.osn_page_commands.specs.AnswerLine as spec;
ghost use Rattle.osn_register.specs.BorrowedQuery.{as_query};

use osn_core::Edition;
use osn_days::{Weekday, Year};
use osn_grammar::{TextReading, members_of};
use osn_pages::Page;
use osn_register::BorrowedQuery;
use osn_service::{Outcome, reply_text};
use osn_written::{
    AnyDate, DateFault, DateReading, Extent, Listing, PartialDate, Year as WrittenYear,
};
use std::alloc::{AllocError, Global};

/// The number of the reader who asks for a page.
const READER: u32 = 1;

/// Returns the line of the reply to a query of an edition.
pub(crate) fn query_line(
    alloc: Global,
    edition: &Edition,
    query: BorrowedQuery<'_>,
) -> Result<String, AllocError>
    ensures { IfOk result (λ line.
        string_bytes line
        ≡ spec.query_line (edition_model edition.now) (as_query query.entry)) }
{
    let reply = edition.ask_borrowed(query)?;
    let outcome = Outcome::Replied {
        reader: READER,
        reply,
    };
    reply_text(alloc, &outcome)
}

/// Returns a date without signs.
fn plain_date(date: PartialDate) -> AnyDate
    ensures { result ≡ spec.plain_date date }
{
    AnyDate {
        extent: Extent::On(date),
        weekday: None,
        reckoning: None,
        is_approximate: false,
        is_uncertain: false,
        is_supplied: false,
    }
}

/// Returns a year that is written whole, and not double.
fn plain_year(first: u16) -> WrittenYear
    ensures { result ≡ spec.plain_year first }
{
    WrittenYear {
        first,
        is_double: false,
        has_three_digits: false,
    }
}

/// Returns the line of the reply to the query that asks which days a date means.
fn written_line(
    alloc: Global,
    edition: &Edition,
    code: &str,
    text: &str,
    date: AnyDate,
    weekday: Option<Weekday>,
) -> Result<String, AllocError>
    ensures { IfOk result (λ line. string_bytes line
        ≡ spec.query_line (edition_model edition.now)
        (spec.query_of_date code.now text.now date weekday)) }
{
    let date = DateReading::Date(date);
    query_line(
        alloc,
        edition,
        BorrowedQuery::Written(code, text, &date, weekday),
    )
}

/// Returns the line of the reply to the query of a page on the territory of a code.
pub(crate) fn page_line(
    alloc: Global,
    edition: &Edition,
    code: &str,
    text: &str,
    page: &Page,
) -> Result<String, AllocError>
    ensures { IfOk result (λ line. string_bytes line
        ≡ spec.query_line (edition_model edition.now)
        (spec.query_of_page code.now text.now page.now)) }
{
    match *page {
        Page::Reading { date, weekday } => {
            written_line(alloc, edition, code, text, date, weekday)
        }
        Page::OfDay { day, .. } => {
            let day = i64::from(day.number());
            query_line(alloc, edition, BorrowedQuery::DayIn(code, day))
        }
        Page::Month { year, month } => {
            let year = plain_year(year);
            let date = plain_date(PartialDate::Month { year, month });
            written_line(alloc, edition, code, text, date, None)
        }
        Page::Periods => query_line(alloc, edition, BorrowedQuery::Periods(code)),
    }
}

/// Appends the line of the reply to a query of an edition.
fn push_query_line(
    lines: &mut String,
    alloc: Global,
    edition: &Edition,
    query: BorrowedQuery<'_>,
) -> Result<(), AllocError>
    ensures { OnOk result (string_bytes lines.new ≡ string_bytes lines.old
        ++ spec.query_line (edition_model edition.now) (as_query query.entry)) }
{
    let line = query_line(alloc, edition, query)?;
    lines.push_str(line.as_str())
}

/// Returns the lines of the replies to the queries of a year's page.
pub(crate) fn year_lines(
    alloc: Global,
    edition: &Edition,
    code: &str,
    text: &str,
    year: Year,
) -> Result<String, AllocError>
    ensures { IfOk result (λ lines. string_bytes lines
        ≡ spec.query_lines (edition_model edition.now)
        (spec.queries_of_year code.now text.now year)) }
{
    let number = i64::from(year.number());
    let date = plain_date(PartialDate::Year(plain_year(year.number() as u16)));
    let mut lines = written_line(alloc, edition, code, text, date, None)?;
    push_query_line(&mut lines, alloc, edition, BorrowedQuery::Changes(code))?;
    push_query_line(
        &mut lines,
        alloc,
        edition,
        BorrowedQuery::Feasts(code, number),
    )?;
    push_query_line(&mut lines, alloc, edition, BorrowedQuery::Exceptions(code))?;
    push_query_line(
        &mut lines,
        alloc,
        edition,
        BorrowedQuery::YearFigures(number),
    )?;
    Ok(lines)
}

/// Returns what was read of a text, for a query.
fn reading_by(
    alloc: Global,
    date: Result<TextReading, DateFault>,
    text: &str,
) -> Result<DateReading, AllocError>
    ensures { IfOk result (λ reading. reading ≡ reading_by (members text.now) date) }
{
    match date {
        Ok(TextReading::Date(date)) => Ok(DateReading::Date(date)),
        Ok(TextReading::Set) => Ok(DateReading::Set(Listing::new(members_of(alloc, text)?))),
        Ok(TextReading::NoDate) => Ok(DateReading::Fault(DateFault::NoDate)),
        Err(fault) => Ok(DateReading::Fault(fault)),
    }
}

/// Returns the line of the reply to the query of a text, by what was read from it.
pub(crate) fn read_line(
    alloc: Global,
    edition: &Edition,
    code: &str,
    text: &str,
    date: Result<TextReading, DateFault>,
    weekday: Option<Weekday>,
) -> Result<String, AllocError>
    ensures { IfOk result (λ line. string_bytes line
        ≡ spec.query_line (edition_model edition.now)
        (spec.query_of_read code.now text.now date weekday)) }
{
    let reading = reading_by(alloc, date, text)?;
    query_line(
        alloc,
        edition,
        BorrowedQuery::Written(code, text, &reading, weekday),
    )
}

/// Returns the line of the reply to the query of a set of dates.
pub(crate) fn set_line(
    alloc: Global,
    edition: &Edition,
    code: &str,
    text: &str,
    weekday: Option<Weekday>,
) -> Result<String, AllocError>
    ensures { IfOk result (λ line. string_bytes line
        ≡ spec.query_line (edition_model edition.now)
        (spec.query_of_set code.now text.now weekday)) }
{
    let dates = DateReading::Set(Listing::new(members_of(alloc, text)?));
    query_line(
        alloc,
        edition,
        BorrowedQuery::Written(code, text, &dates, weekday),
    )
}
