//! The queries of a register.
ghost use Rattle.std.specs.Prelude.{◌≡◌, true, IfOk, OnErr};
ghost use Rattle.osn_register.specs.Query.{names_territory};
ghost use Rattle.osn_register.specs.BorrowedQuery.{as_query};

use crate::borrowed_query::BorrowedQuery;
use crate::text::Text;
use osn_days::{Calendar, Weekday};
use osn_written::DateReading;
use std::alloc::AllocError;

/// A question to the register.
#[derive(Debug, Drop)]
pub enum Query {
    /// Which days a date names in a territory. The year is as its documents count it, 0 to 10000,
    /// the month from 1 to 12 and the day from 1 to 31.
    Read {
        code: Text,
        year: i64,
        month: i64,
        day: i64,
    },
    /// How a territory names a day, and the period of its regime.
    DayIn {
        code: Text,
        day: i64,
    },
    /// Which days were Easter of a year from 1 to 9999 in a territory.
    Easter {
        code: Text,
        year: i64,
    },
    /// The figures and both Easters of a year from 1 to 9999.
    YearFigures {
        year: i64,
    },
    /// Which territories there are.
    Lands,
    /// Which periods a territory has.
    Periods {
        code: Text,
    },
    /// Which Easters a territory lists in place of the rule's.
    Exceptions {
        code: Text,
    },
    /// Which changes a territory has.
    Changes {
        code: Text,
    },
    /// Which principal feasts a territory dated in a year from 1 to 9999, as it counted the year.
    Feasts {
        code: Text,
        year: i64,
    },
    /// How a territory names the day that has a date by a calendar. The year is counted from
    /// 1 January, 0 to 10000, the month from 1 to 12 and the day from 1 to 31.
    Convert {
        code: Text,
        calendar: Calendar,
        year: i64,
        month: i64,
        day: i64,
    },
    /// Which days a date means in a territory, as the date is written, and whether they are on a
    /// weekday, if one is given. The answer depends on what was read of the text, and not on the
    /// text.
    Written {
        code: Text,
        text: Text,
        date: DateReading,
        weekday: Option<Weekday>,
    },
}

impl Query {
    /// Returns a query equal to this one.
    ///
    /// # Errors
    ///
    /// If memory runs out. A query that names no territory needs none.
    pub fn copy(&self) -> Result<Query, AllocError>
        ensures value { IfOk result (λ q. q ≡ self.now) }
        ensures memory { OnErr result (names_territory self.now ≡ true) }
    {
        match self {
            Query::YearFigures { year } => Ok(Query::YearFigures { year: *year }),
            Query::Lands => Ok(Query::Lands),
            Query::Read { code, .. }
            | Query::DayIn { code, .. }
            | Query::Easter { code, .. }
            | Query::Periods { code }
            | Query::Exceptions { code }
            | Query::Changes { code }
            | Query::Feasts { code, .. }
            | Query::Convert { code, .. }
            | Query::Written { code, .. } => self.borrow().to_query(code.allocator()),
        }
    }

    /// Returns this query, with its texts borrowed.
    pub fn borrow(&self) -> BorrowedQuery<'_>
        ensures { as_query result ≡ self.now }
    {
        match self {
            Query::Read {
                code,
                year,
                month,
                day,
            } => BorrowedQuery::Read(code.as_str(), *year, *month, *day),
            Query::DayIn { code, day } => BorrowedQuery::DayIn(code.as_str(), *day),
            Query::Easter { code, year } => BorrowedQuery::Easter(code.as_str(), *year),
            Query::YearFigures { year } => BorrowedQuery::YearFigures(*year),
            Query::Lands => BorrowedQuery::Lands,
            Query::Periods { code } => BorrowedQuery::Periods(code.as_str()),
            Query::Exceptions { code } => BorrowedQuery::Exceptions(code.as_str()),
            Query::Changes { code } => BorrowedQuery::Changes(code.as_str()),
            Query::Feasts { code, year } => BorrowedQuery::Feasts(code.as_str(), *year),
            Query::Convert {
                code,
                calendar,
                year,
                month,
                day,
            } => BorrowedQuery::Convert(code.as_str(), *calendar, *year, *month, *day),
            Query::Written {
                code,
                text,
                date,
                weekday,
            } => BorrowedQuery::Written(code.as_str(), text.as_str(), date, *weekday),
        }
    }
}
