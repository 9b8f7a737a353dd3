//! The figures of a year and both Easters. They follow the cycles of the Julian reckoning, and the
//! epacts and the calendar of *Inter gravissimas* (1582) with its six canons. The arithmetic is
//! that of Reingold and Dershowitz, *Calendrical Calculations*, chapter "The Ecclesiastical
//! Calendars". What the crate promises to those above is each figure by its table, and Easter as
//! the first Sunday after the table's full moon. The words of the rules and the texts of epacts and
//! letters are beside their types.
#![tactic(auto)]

mod epact;
mod feast;
mod figures;
mod letter;
mod letters;
mod moon;
mod rule;
mod year_date;

pub use epact::{Epact, epact_text};
pub use feast::easter;
pub use figures::{golden_number, gregorian_epact, indiction, julian_epact};
pub use letter::Letter;
pub use letters::{Letters, letters_text, sunday_letters};
pub use rule::Rule;
