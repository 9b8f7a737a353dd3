//! The members of a line's object, by their names.
ghost use Rattle.std.specs.Prelude.{◌≡◌};
ghost use Rattle.osn_request.specs.Member.{member_name};

/// A member of a line's object.
#[derive(Clone, Copy, Debug, PartialEq, Eq, Hash)]
pub enum Member {
    /// What the line asks for.
    Op,
    /// A territory's code.
    Code,
    /// A territory's name.
    Name,
    /// The calendar of a regime.
    Calendar,
    /// The style of a regime: when its year begins.
    Style,
    /// The rule of Easter of a regime.
    Rule,
    /// The source of what is added or altered, a text.
    Source,
    /// The number of the reader who asks, from 1.
    Reader,
    /// A year of a label, or one whose Easter or figures are meant.
    Year,
    /// A month of a label.
    Month,
    /// A day of a label, or a day of the line by its number.
    Day,
    /// A date as it is written.
    Date,
    /// A weekday that is given with a date.
    Weekday,
    /// The version of a journal, in its first line.
    Journal,
    /// The kind of step, in a line of a schedule.
    Step,
    /// The request of a query, in a line of a transcript.
    Ask,
    /// The reply to the query, in a line of a transcript.
    Reply,
    /// The edition that a reply names.
    Edition,
}

impl Member {
    /// Returns the name that the member has in a line.
    pub fn name(self) -> &'static str
        ensures { result.now ≡ member_name self }
    {
        match self {
            Member::Op => "op",
            Member::Code => "code",
            Member::Name => "name",
            Member::Calendar => "calendar",
            Member::Style => "style",
            Member::Rule => "rule",
            Member::Source => "source",
            Member::Reader => "reader",
            Member::Year => "year",
            Member::Month => "month",
            Member::Day => "day",
            Member::Date => "date",
            Member::Weekday => "weekday",
            Member::Journal => "journal",
            Member::Step => "step",
            Member::Ask => "ask",
            Member::Reply => "reply",
            Member::Edition => "edition",
        }
    }
}
