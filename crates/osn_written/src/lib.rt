//! Written dates, once their texts are read: the days that a date means in a territory, and why it
//! means none. What the crate promises to those above is that each of these is its definition.
#![tactic(auto)]

mod absence;
mod any_date;
mod date_in_words;
mod date_reading;
mod double;
mod feast;
mod feast_days;
mod finding;
mod kind;
mod listing;
mod meaning;
mod missing_date;
mod nearest;
mod one_day;
mod portion;
mod runs;
mod set;
mod span;
mod union;
mod words;
mod written_date;
mod year_feasts;

pub use absence::{Absence, absence_of};
pub use any_date::{AnyDate, Extent, PartialDate, Reckoning, Year};
pub use date_in_words::DateInWords;
pub use date_reading::DateReading;
pub use double::is_extent_not_counted_double;
pub use feast::Feast;
pub use finding::{NoDay, by_reckoning, ends_of, find_runs, first_day_of, is_by_other_calendar};
pub use kind::{Kind, kind_of};
pub use listing::Listing;
pub use meaning::{dated_by, days_meant, has_weekday, is_not_counted_double, is_on};
pub use missing_date::{MissingDate, changes_over, days_like, missing_day, year_without};
pub use nearest::nearest_days;
pub use one_day::plain_day;
pub use portion::Portion;
pub use runs::runs_meant;
pub use set::{AbsentMember, find_set, is_set_approximate, is_set_uncertain};
pub use span::{NoSpan, ends_in_next_year, first_of, last_of, span_meant};
pub use written_date::{DateFault, MonthDay, WrittenDate, number_of, parts_at, weekday_named};
pub use year_feasts::{FeastDay, PRINCIPAL_FEASTS, feasts_of_year};
