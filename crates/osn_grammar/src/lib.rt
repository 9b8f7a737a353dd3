//! The grammar of dates as people write them: from a text to the date that it says, without any
//! territory. What the crate promises to those above is that `read_date` is its definition.
#![tactic(auto)]

mod both_calendars;
mod dashed_years;
mod date_in_text;
mod date_pairs;
mod extent;
mod feast_names;
mod feast_reading;
mod feasts;
mod forms;
mod month_first;
mod more_names;
mod named_calendars;
mod names;
mod open_digits;
mod order;
mod other_names;
mod otherwise;
mod part_ranges;
mod period;
mod reading;
mod roman;
mod roman_year;
mod scan;
mod set;
mod signs;
mod simple;
mod text_reading;
mod token;
mod two_days;
mod words_read;
mod years;

pub use date_in_text::{date_reading, parse_day};
pub use reading::read_date;
pub use set::members_of;
pub use text_reading::{DateOrder, TextReading};
pub use words_read::is_writable;
