//! How a table of letters is read.
use crate::columns::ColumnNames;
use crate::places::Places;
use crate::separator::Separator;
use osn_grammar::DateOrder;

/// How a table of letters is read.
#[derive(Clone, Copy, Debug)]
pub struct TableSettings<'a> {
    /// The names of the columns that are read.
    pub names: ColumnNames<'a>,
    /// What separates the fields. If it is not named, the header decides.
    pub separator: Option<Separator>,
    /// How a date of three numbers is read that may begin with its day or its month.
    pub order: DateOrder,
    /// The codes of places, for those that are listed.
    pub places: Option<&'a Places>,
    /// Whether the table goes on after a record that has a flaw.
    pub keeps_going: bool,
}
