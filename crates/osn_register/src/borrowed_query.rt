//! A query whose texts are borrowed.
ghost use Rattle.std.specs.Prelude.{◌≡◌, true, IfOk, OnErr};
ghost use Rattle.osn_register.specs.Query.{names_territory};
ghost use Rattle.osn_register.specs.BorrowedQuery.{as_query};

use crate::query::Query;
use crate::text::Text;
use osn_days::{Calendar, Weekday};
use osn_written::DateReading;
use std::alloc::{AllocError, Global};

/// A `Query` whose texts are borrowed, so that it takes no memory. Its variants are those of
/// `Query`, with their members in the same order.
#[derive(Clone, Copy, Debug, Drop)]
pub enum BorrowedQuery<'a> {
    Read(&'a str, i64, i64, i64),
    DayIn(&'a str, i64),
    Easter(&'a str, i64),
    YearFigures(i64),
    Lands,
    Periods(&'a str),
    Exceptions(&'a str),
    Changes(&'a str),
    Feasts(&'a str, i64),
    Convert(&'a str, Calendar, i64, i64, i64),
    Written(&'a str, &'a str, &'a DateReading, Option<Weekday>),
}

impl<'a> BorrowedQuery<'a> {
    /// Returns the same query, with texts of its own.
    ///
    /// # Errors
    ///
    /// If memory runs out. A query that names no territory needs none.
    pub fn to_query(self, alloc: Global) -> Result<Query, AllocError>
        ensures value { IfOk result (λ q. q ≡ as_query self.entry) }
        ensures memory { OnErr result (names_territory (as_query self.entry) ≡ true) }
    {
        Ok(match self {
            BorrowedQuery::Read(code, year, month, day) => Query::Read {
                code: Text::from_str(alloc, code)?,
                year,
                month,
                day,
            },
            BorrowedQuery::DayIn(code, day) => Query::DayIn {
                code: Text::from_str(alloc, code)?,
                day,
            },
            BorrowedQuery::Easter(code, year) => Query::Easter {
                code: Text::from_str(alloc, code)?,
                year,
            },
            BorrowedQuery::YearFigures(year) => Query::YearFigures { year },
            BorrowedQuery::Lands => Query::Lands,
            BorrowedQuery::Periods(code) => Query::Periods {
                code: Text::from_str(alloc, code)?,
            },
            BorrowedQuery::Exceptions(code) => Query::Exceptions {
                code: Text::from_str(alloc, code)?,
            },
            BorrowedQuery::Changes(code) => Query::Changes {
                code: Text::from_str(alloc, code)?,
            },
            BorrowedQuery::Feasts(code, year) => Query::Feasts {
                code: Text::from_str(alloc, code)?,
                year,
            },
            BorrowedQuery::Convert(code, calendar, year, month, day) => Query::Convert {
                code: Text::from_str(alloc, code)?,
                calendar,
                year,
                month,
                day,
            },
            BorrowedQuery::Written(code, text, date, weekday) => Query::Written {
                code: Text::from_str(alloc, code)?,
                text: Text::from_str(alloc, text)?,
                date: date.copy(alloc)?,
                weekday,
            },
        })
    }
}
