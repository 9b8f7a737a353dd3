//! What the register answers.
use crate::refusal::Refusal;
use crate::remarks::{DateRemarks, NearDays};
use crate::source::Source;
use crate::text::Text;
use osn_computus::{Epact, Letters};
use osn_days::{Day, Year};
use osn_territory::{Label, Period, Regime};
use osn_written::{DateFault, Feast, Kind, Listing, NoDay};

/// A day as a territory names it: its label and its dual text, under the regime in force on it.
#[derive(Debug, Drop)]
pub struct Found {
    pub day: Day,
    pub label: Label,
    pub dual: Text,
}

/// A territory's code and name.
#[derive(Debug, Drop)]
pub struct Land {
    pub code: Text,
    pub name: Text,
}

/// Days that were found, in ascending order.
pub type FoundList = Listing<Found>;

/// Days in ascending order.
pub type DayList = Listing<Day>;

/// Territories in the order in which they were added.
pub type LandList = Listing<Land>;

/// A period of a territory, and the source that states it, if one is given.
#[derive(Debug, Drop)]
pub struct PeriodAndSource {
    pub period: Period,
    pub source: Option<Source>,
}

/// The periods of a territory, in ascending order.
pub type PeriodList = Listing<PeriodAndSource>;

/// A year whose Easter a territory lists, the day that is listed, and the source that states it, if
/// one is given.
#[derive(Debug, Drop)]
pub struct Exception {
    pub year: Year,
    pub found: Found,
    pub source: Option<Source>,
}

/// The listed Easters of a territory, in ascending order of their years.
pub type ExceptionList = Listing<Exception>;

/// A change: the day before it and its first day, each as the territory names it.
#[derive(Debug, Drop)]
pub struct FoundChange {
    pub before: Found,
    pub found: Found,
    /// How many dates the change leaves out, or `None` if by the calendar before no day has the
    /// date of the first day.
    pub left_out: Option<u32>,
    /// How many dates come twice, or `None` for the same reason.
    pub twice: Option<u32>,
    /// The regime that ended.
    pub regime_before: Regime,
    /// The regime that began.
    pub regime: Regime,
    /// The source that states the change, if one is given.
    pub source: Option<Source>,
}

/// The changes of a territory, in ascending order.
pub type ChangeList = Listing<FoundChange>;

/// A principal feast of a territory, and the day that it fell on.
#[derive(Debug, Drop)]
pub struct FoundFeast {
    pub feast: Feast,
    /// The year counted from 1 January with the Easter that the feast is counted from.
    pub year: Year,
    pub found: Found,
}

/// The principal feasts that a territory dated in a year, in the order of their Easters.
pub type FeastList = Listing<FoundFeast>;

/// Days that follow one another, by the first and the last of them.
#[derive(Debug, Drop)]
pub struct FoundRun {
    pub first: Found,
    pub last: Found,
}

/// Runs of days, in ascending order.
pub type RunList = Listing<FoundRun>;

/// Why a text means no day in a territory.
#[derive(Clone, Copy, Debug, PartialEq, Eq, Drop)]
pub enum Reason {
    /// The text is not a date, or says that there is no date.
    NotRead(DateFault),
    /// The date means no day of the territory.
    NoDay(NoDay),
}

/// What a text means as a date in a territory.
#[derive(Debug, Drop)]
pub struct WrittenAnswer {
    /// What kind of date the text is, if it is one.
    pub kind: Option<Kind>,
    /// The text says that the date is approximate.
    pub is_approximate: bool,
    /// The text says that the date is uncertain.
    pub is_uncertain: bool,
    /// The text says that the date is supplied.
    pub is_supplied: bool,
    /// The date names a calendar, and means other days by it than by the territory's reckoning.
    pub is_by_other_calendar: bool,
    /// Why it means no day, if it means none.
    pub reason: Option<Reason>,
    /// The days that it means, by the calendar that it names, as the territory names them.
    pub runs: RunList,
    /// Whether one of the days is on each weekday that is named or given, if one is and the date is
    /// that of one day.
    pub is_on_weekday: Option<bool>,
    /// How the text was read, and what is remarked of it.
    pub remarks: DateRemarks,
    /// What is near the date, if no day has it.
    pub near: NearDays,
}

/// What the register answers to a query.
#[derive(Debug, Drop)]
pub enum Answer {
    /// The days that a date names, and the days of the changes at which it was skipped.
    Reading {
        found: FoundList,
        skipped: DayList,
    },
    /// A day as the territory names it, and the period that holds it.
    OnDay {
        found: Found,
        period: PeriodAndSource,
    },
    /// The days that were Easter of a year in a territory, whether a listed exception says so, and
    /// the source of that, if one is given.
    Easters {
        found: FoundList,
        listed: bool,
        source: Option<Source>,
    },
    /// The figures of a year, its Sunday letters in both calendars and its Easters by both rules.
    /// The golden number is from 1 to 19, the indiction from 1 to 15, an epact from 0 to 29.
    Figures {
        year: Year,
        golden: u8,
        indiction: u8,
        julian_epact: u8,
        gregorian_epact: Epact,
        julian_letters: Letters,
        gregorian_letters: Letters,
        julian_easter: Day,
        gregorian_easter: Day,
    },
    /// The territories.
    Lands(LandList),
    /// The periods of a territory.
    Periods(PeriodList),
    /// The listed Easters of a territory.
    Exceptions(ExceptionList),
    /// The changes of a territory.
    Changes(ChangeList),
    /// The principal feasts that a territory dated in a year.
    Feasts(FeastList),
    /// The day that has a date by a calendar, if the line has one.
    Converted(FoundList),
    /// What a date means as it is written.
    Written(WrittenAnswer),
    /// The query is refused.
    Refused(Refusal),
}
