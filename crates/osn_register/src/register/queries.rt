//! What the register answers to queries.
ghost use Rattle.std.specs.Prelude.{◌≡◌, true, IfOk, OnErr, ◌<◌, length, map};
ghost use Rattle.osn_days.specs.Rules.{first_rules, newest_rules};
ghost use Rattle.osn_register.specs.Answer as spec;
ghost use Rattle.osn_register.specs.QueryRefusal as refusals;
ghost use Rattle.osn_register.specs.BorrowedQuery.{as_query};
ghost use Rattle.osn_register.specs.EarlierRules.{KeepsAnswer};
ghost use Rattle.osn_register.specs.Plain.{code_refusal};
ghost use Rattle.osn_register.specs.InsideQuery.{IsAnswered};

use crate::answer::{Answer, Land};
use crate::borrowed_query::BorrowedQuery;
use crate::change_answer::changes;
use crate::figures::figures;
use crate::numbers::{day_on_line, label_of_numbers, year_in_range};
use crate::query::Query;
use crate::query_fault::QueryFault;
use crate::refusal::Refusal;
use crate::register::Register;
use crate::territory_answer::{conversion, easters, exceptions, feasts, on_day, periods, reading};
use crate::text::Text;
use crate::written_answer::written_date;
use osn_days::{Calendar, Weekday};
use osn_written::{DateReading, Listing};
use std::alloc::{AllocError, Global};

/// Returns a territory as it is listed.
fn listing(alloc: Global, code: &str, name: &Text) -> Result<Land, AllocError>
    ensures { IfOk result (λ l. (l.code ≡ code.now) × (l.name ≡ name.now)) }
{
    Ok(Land {
        code: Text::from_str(alloc, code)?,
        name: name.copy()?,
    })
}

impl Register {
    /// Returns what the register answers to a query: `Answer::Refused` exactly if the query is
    /// refused.
    ///
    /// # Errors
    ///
    /// If memory runs out. A refusal, the figures of a year and an empty list of territories need
    /// none.
    pub fn answer(&self, query: &Query) -> Result<Answer, AllocError>
        ensures value { IfOk result
            (λ a. a ≡ spec.answer newest_rules self.now.territories query.now) }
        // as a law: only the definition's refusals refuse a query
        ensures refused { IfOk result
            (λ a. spec.refusal_in a
            ≡ refusals.query_refusal newest_rules self.now.territories query.now) }
        ensures memory { OnErr result
            (spec.takes_memory (spec.answer newest_rules self.now.territories query.now) ≡ true) }
        // as a law: if the first rules have the year or the day, the answer keeps what they answer
        ensures earlier_rules { IfOk result
            (KeepsAnswer first_rules self.now.territories query.now) }
    {
        self.answer_borrowed(query.borrow())
    }

    /// Answers a query with borrowed texts as `answer` does.
    ///
    /// # Errors
    ///
    /// As for `answer`.
    pub fn answer_borrowed(&self, query: BorrowedQuery<'_>) -> Result<Answer, AllocError>
        ensures value { IfOk result
            (λ a. a ≡ spec.answer newest_rules self.now.territories (as_query query.entry)) }
        ensures refused { IfOk result (λ a. spec.refusal_in a
            ≡ refusals.query_refusal newest_rules self.now.territories (as_query query.entry)) }
        ensures memory { OnErr result (spec.takes_memory
            (spec.answer newest_rules self.now.territories (as_query query.entry)) ≡ true) }
        ensures earlier_rules { IfOk result
            (KeepsAnswer first_rules self.now.territories (as_query query.entry)) }
    {
        match self.lawful_answer(query) {
            Ok(answer) => Ok(answer),
            Err(QueryFault::Refused(refusal)) => Ok(Answer::Refused(refusal)),
            Err(QueryFault::NoMemory) => Err(AllocError),
        }
    }

    fn lawful_answer(&self, query: BorrowedQuery<'_>) -> Result<Answer, QueryFault>
        ensures { IsAnswered
            (refusals.query_refusal newest_rules self.now.territories (as_query query.entry))
            (spec.answer newest_rules self.now.territories (as_query query.entry)) result }
    {
        match query {
            BorrowedQuery::Read(code, year, month, day) => self.read(code, year, month, day),
            BorrowedQuery::DayIn(code, day) => self.day_in(code, day),
            BorrowedQuery::Easter(code, year) => self.easter(code, year),
            BorrowedQuery::YearFigures(year) => Ok(figures(year_in_range(year)?)),
            BorrowedQuery::Lands => Ok(Answer::Lands(Listing::new(self.list_territories()?))),
            BorrowedQuery::Periods(code) => self.periods(code),
            BorrowedQuery::Exceptions(code) => self.exceptions(code),
            BorrowedQuery::Changes(code) => self.changes(code),
            BorrowedQuery::Feasts(code, year) => self.feasts(code, year),
            BorrowedQuery::Convert(code, calendar, year, month, day) => {
                self.convert(code, calendar, year, month, day)
            }
            BorrowedQuery::Written(code, _, date, weekday) => self.written_date(
                code, date, weekday,
            ),
        }
    }

    fn read(&self, code: &str, year: i64, month: i64, day: i64) -> Result<Answer, QueryFault>
        ensures { IsAnswered
            (refusals.read_refusal newest_rules self.now.territories code.now year month day)
            (spec.read_answer newest_rules self.now.territories code.now year month day) result }
    {
        let territory = self.known_territory(code)?;
        let label = label_of_numbers(year, month, day)?;
        Ok(reading(self.alloc, territory, label)?)
    }

    fn day_in(&self, code: &str, day: i64) -> Result<Answer, QueryFault>
        ensures { IsAnswered
            (refusals.day_refusal newest_rules self.now.territories code.now day)
            (spec.day_in_answer newest_rules self.now.territories code.now day) result }
    {
        let (territory, sources) = self.known_entry(code)?;
        let day = day_on_line(day)?;
        Ok(on_day(self.alloc, territory, sources, day)?)
    }

    fn easter(&self, code: &str, year: i64) -> Result<Answer, QueryFault>
        ensures { IsAnswered
            (refusals.easter_refusal newest_rules self.now.territories code.now year)
            (spec.easter_answer newest_rules self.now.territories code.now year) result }
    {
        let (territory, sources) = self.known_entry(code)?;
        let year = year_in_range(year)?;
        Ok(easters(self.alloc, territory, sources, year)?)
    }

    fn periods(&self, code: &str) -> Result<Answer, QueryFault>
        ensures { IsAnswered
            (code_refusal self.now.territories code.now)
            (spec.periods_in_answer newest_rules self.now.territories code.now) result }
    {
        let (territory, sources) = self.known_entry(code)?;
        Ok(periods(self.alloc, territory, sources)?)
    }

    fn exceptions(&self, code: &str) -> Result<Answer, QueryFault>
        ensures { IsAnswered
            (code_refusal self.now.territories code.now)
            (spec.exceptions_in_answer newest_rules self.now.territories code.now) result }
    {
        let (territory, sources) = self.known_entry(code)?;
        Ok(exceptions(self.alloc, territory, sources)?)
    }

    fn changes(&self, code: &str) -> Result<Answer, QueryFault>
        ensures { IsAnswered
            (code_refusal self.now.territories code.now)
            (spec.changes_in_answer newest_rules self.now.territories code.now) result }
    {
        let (territory, sources) = self.known_entry(code)?;
        Ok(changes(self.alloc, territory, sources)?)
    }

    fn feasts(&self, code: &str, year: i64) -> Result<Answer, QueryFault>
        ensures { IsAnswered
            (refusals.easter_refusal newest_rules self.now.territories code.now year)
            (spec.feasts_in_answer newest_rules self.now.territories code.now year) result }
    {
        let territory = self.known_territory(code)?;
        let year = year_in_range(year)?;
        Ok(feasts(self.alloc, territory, year)?)
    }

    fn convert(
        &self,
        code: &str,
        calendar: Calendar,
        year: i64,
        month: i64,
        day: i64,
    ) -> Result<Answer, QueryFault>
        ensures { IsAnswered
            (refusals.read_refusal newest_rules self.now.territories code.now year month day)
            (spec.convert_in_answer newest_rules self.now.territories code.now calendar
            year month day) result }
    {
        let territory = self.known_territory(code)?;
        let label = label_of_numbers(year, month, day)?;
        Ok(conversion(self.alloc, territory, calendar, label)?)
    }

    fn written_date(
        &self,
        code: &str,
        date: &DateReading,
        weekday: Option<Weekday>,
    ) -> Result<Answer, QueryFault>
        ensures { IsAnswered
            (code_refusal self.now.territories code.now)
            (spec.written_in_answer newest_rules self.now.territories code.now date.now weekday)
            result }
    {
        let territory = self.known_territory(code)?;
        Ok(written_date(self.alloc, territory, date, weekday)?)
    }

    /// Returns the territories with their names, in the order in which they were added.
    ///
    /// # Errors
    ///
    /// `AllocError` if there is no memory for them. An empty register needs none.
    pub fn list_territories(&self) -> Result<Vec<Land>, AllocError>
        ensures value { IfOk result (λ v. v.items ≡ map spec.land_of self.now.territories) }
        ensures memory { OnErr result (0 < length self.now.territories) }
    {
        let mut listed = Vec::with_capacity(self.alloc, self.territories.len())?;
        for (code, entry) in &self.territories {
            listed.push(listing(self.alloc, code.as_str(), &entry.name)?)?;
        }
        Ok(listed)
    }
}
