//! What a text says of a date.

use osn_written::AnyDate;

/// What a text says.
#[derive(Clone, Copy, Debug, PartialEq, Eq)]
pub enum TextReading {
    /// The date is missing: the text says so, as `n.d.` does, or is empty.
    NoDate,
    Date(AnyDate),
    /// One of several dates, such as `[1543-04-11,1544-04-11]`: those of `members_of`.
    Set,
}

/// How a date of three numbers is read that may begin with its day or its month.
#[derive(Clone, Copy, Debug, PartialEq, Eq)]
pub enum DateOrder {
    /// It is refused.
    Unknown,
    /// `11/2/1731` is 11 February.
    DayMonth,
    /// `2/11/1731` is 11 February.
    MonthDay,
}
