//! Pages: what a territory says of a date, a day, a month or a year, its periods, and the calendars
//! of a day, as texts that people read in place of JSON; and the almanac of a year, for those who
//! lay it beside dated letters. What the crate promises to those above is that a text is its
//! definition, line by line.
#![tactic(auto)]

mod almanac;
mod changes;
mod columns;
mod conversion;
mod date_lines;
mod easters;
mod figures;
mod grid;
mod heading;
mod month;
mod months;
mod page;
mod periods;
mod reading;
mod remarks;
mod runs;
mod set;
mod source_line;
mod territory;
mod territory_list;
mod territory_sources;
mod turn;
mod why;
mod words;
mod year_changes;
mod year_days;
mod year_feasts;
mod year_page;

pub use almanac::almanac_text;
pub use conversion::{conversion_page, day_of_written};
pub use date_lines::has_no_day;
pub use heading::{push_pending, push_territory_heading};
pub use month::dated_days;
pub use page::{Page, Publication, page_text};
pub use reading::push_day;
pub use runs::push_count;
pub use set::{set_has_no_day, set_page_text};
pub use source_line::push_source;
pub use territory_list::territories_page;
pub use turn::{push_gap, push_turned};
pub use words::{DayInCalendar, DaysAtChange, NamedDay, NumberedDay, YearEnds, push_empty_year};
pub use year_page::year_page_text;
