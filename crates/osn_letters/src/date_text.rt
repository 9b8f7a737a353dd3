//! A date in numbers.
ghost use Rattle.std.specs.Prelude.{Some};
ghost use Rattle.osn_days.specs.DateText.{text_of_date};

use osn_days::Date;
use std::fmt;

/// A date, such as `1732-02-22`.
#[derive(Clone, Copy)]
pub(crate) struct DateText(pub(crate) Date);

impl fmt::Display for DateText {
    ghost output = { λ x. Some (text_of_date x.0) };

    fn fmt<W: fmt::Write>(&self, f: &mut fmt::Formatter<W>) -> fmt::Result {
        let date = self.0;
        write!(
            f,
            "{:04}-{:02}-{:02}",
            date.year.unsigned_abs(),
            date.month,
            date.day
        )
    }
}
