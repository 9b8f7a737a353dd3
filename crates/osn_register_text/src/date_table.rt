//! A day by its date in a calendar, as a table of TOML.
ghost use Rattle.std.specs.Prelude.{Some};
ghost use Rattle.osn_days.specs.DateText.{text_of_date};
ghost use Rattle.osn_register_text.specs.WrittenText.{date_table};

use osn_days::{Calendar, Date, Day, Keyword, date_of};
use std::fmt;

/// A date that prints as `1752-09-14`.
#[derive(Clone, Copy)]
struct DateText(Date);

impl fmt::Display for DateText {
    ghost output = { λ x. Some (text_of_date x.0) };

    fn fmt<W: fmt::Write>(&self, f: &mut fmt::Formatter<W>) -> fmt::Result {
        let date = self.0;
        write!(
            f,
            "{:04}-{:02}-{:02}",
            date.year.unsigned_abs(),
            date.month,
            date.day
        )
    }
}

/// A day that prints by its date in a calendar: `{ gregorian = "1752-09-14" }`.
#[derive(Clone, Copy)]
pub(crate) struct DateTable {
    pub(crate) calendar: Calendar,
    pub(crate) day: Day,
}

impl fmt::Display for DateTable {
    ghost output = { λ x. Some (date_table x.calendar x.day) };

    #[tactic(auto, unfolding(crate::specs::WrittenText::date_table))]
    fn fmt<W: fmt::Write>(&self, f: &mut fmt::Formatter<W>) -> fmt::Result {
        let date = DateText(date_of(self.calendar, self.day));
        write!(f, "{{ {} = \"{date}\" }}", self.calendar.word())
    }
}
