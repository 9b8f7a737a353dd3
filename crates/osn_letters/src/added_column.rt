//! The columns that are put after those of a table.
ghost use Rattle.std.specs.Prelude.{◌≡◌};
ghost use Rattle.osn_letters.specs.AddedColumns as spec;

/// A column that is put after those of a table.
#[derive(Clone, Copy, Debug, PartialEq, Eq)]
pub enum AddedColumn {
    /// The numbers of the days.
    Days,
    /// Their Gregorian dates.
    Gregorian,
    /// Their Julian dates.
    Julian,
    /// Their dual texts.
    Dual,
    /// Their weekdays.
    WeekdayFound,
    /// Their Julian day numbers.
    JulianDayNumber,
    /// The Gregorian date of the first day that the date may mean.
    Earliest,
    /// The Gregorian date of the last one.
    Latest,
    /// What kind of date it is.
    Kind,
    /// The days as ISO 8601-2 writes them.
    Edtf,
    /// The number of the register's edition.
    Edition,
    /// The remarks on the days, or why the date has none.
    Remark,
}

/// The columns that are added to a table, in their order.
pub(crate) const ADDED_COLUMNS: [AddedColumn; 12] = [
    AddedColumn::Days,
    AddedColumn::Gregorian,
    AddedColumn::Julian,
    AddedColumn::Dual,
    AddedColumn::WeekdayFound,
    AddedColumn::JulianDayNumber,
    AddedColumn::Earliest,
    AddedColumn::Latest,
    AddedColumn::Kind,
    AddedColumn::Edtf,
    AddedColumn::Edition,
    AddedColumn::Remark,
];

impl AddedColumn {
    /// Returns its name.
    pub fn name(self) -> &'static str
        ensures { result.now ≡ spec.added_name self }
    {
        match self {
            AddedColumn::Days => "days",
            AddedColumn::Gregorian => "gregorian",
            AddedColumn::Julian => "julian",
            AddedColumn::Dual => "dual",
            AddedColumn::WeekdayFound => "weekday_found",
            AddedColumn::JulianDayNumber => "jdn",
            AddedColumn::Earliest => "earliest",
            AddedColumn::Latest => "latest",
            AddedColumn::Kind => "kind",
            AddedColumn::Edtf => "edtf",
            AddedColumn::Edition => "edition",
            AddedColumn::Remark => "remark",
        }
    }
}
