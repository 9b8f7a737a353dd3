//! The query of a line's object, with texts borrowed from the object.
ghost use Rattle.std.specs.Prelude.{◌≡◌, true, IfOk, OnErr};
ghost use Rattle.osn_register.specs.Query.{names_territory};
ghost use Rattle.osn_request.specs.LineQuery as spec;
ghost use Rattle.osn_request.specs.LineQuery.{line_query};

use osn_days::Weekday;
use osn_grammar::date_reading;
use osn_register::{BorrowedQuery, Query, Text};
use std::alloc::{AllocError, Global};

/// A `Query` whose texts are borrowed. The text of a date is read once the query is asked.
#[derive(Clone, Copy, Debug, Drop)]
pub enum LineQuery<'a> {
    /// A query that has no text of a date.
    Plain(BorrowedQuery<'a>),
    /// `Query::Written`.
    Written {
        code: &'a str,
        date: &'a str,
        weekday: Option<Weekday>,
    },
}

/// Returns the query about a date as it is written, by what is read of its text.
fn written_query(
    alloc: Global,
    code: &str,
    date: &str,
    weekday: Option<Weekday>,
) -> Result<Query, AllocError>
    ensures { IfOk result (λ q. q ≡ spec.written_query code.now date.now weekday) }
{
    Ok(Query::Written {
        code: Text::from_str(alloc, code)?,
        text: Text::from_str(alloc, date)?,
        date: date_reading(alloc, date)?,
        weekday,
    })
}

impl<'a> LineQuery<'a> {
    /// Returns the query, with texts of its own.
    ///
    /// # Errors
    ///
    /// Returns `AllocError` if memory runs out. A query that names no territory takes no memory.
    pub fn to_query(self, alloc: Global) -> Result<Query, AllocError>
        ensures value { IfOk result (λ q. q ≡ line_query self.entry) }
        ensures memory { OnErr result (names_territory (line_query self.entry) ≡ true) }
    {
        match self {
            LineQuery::Plain(query) => query.to_query(alloc),
            LineQuery::Written {
                code,
                date,
                weekday,
            } => written_query(alloc, code, date, weekday),
        }
    }
}
