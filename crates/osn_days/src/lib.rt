//! The line of days and the calendars on it. The line is the fixed dates of Reingold and
//! Dershowitz, *Calendrical Calculations* (chapter 1). The Gregorian (chapter 2), the Julian
//! (chapter 3) and the Swedish calendar are chains of dates. The words of calendars and the texts
//! of dates are here too. What the crate promises to those above is `date_of` and `day_of`: a
//! calendar's chain, both ways.
#![tactic(auto)]

mod calendar;
mod date;
mod day;
mod gregorian;
mod julian;
mod keyword;
mod month;
mod swedish;
mod weekday;
mod year;

pub use calendar::{Calendar, date_of, day_of};
pub use date::{Date, date_digits, date_text};
pub use day::{Day, HIGH};
pub use keyword::Keyword;
pub use month::{month_name, month_named};
pub use weekday::Weekday;
pub use year::Year;
