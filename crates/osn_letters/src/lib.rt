//! Letters: a table in CSV, each row of which gets the days that its date means in its place. What
//! the crate promises to those above: `write_letters` writes the table of the definition and
//! nothing else, in whatever pieces the bytes come. It returns where the table ended early and why,
//! and how many rows have each remark. The fields after a row are those of `row_fields`: the
//! days that its date means in the territory. `read_places` returns the entries of a table of
//! places, or its first fault.
#![tactic(auto)]

mod added_column;
mod added_fields;
mod columns;
mod csv_text;
mod date_parts;
mod date_text;
mod day_field;
mod edtf;
mod fault;
mod letter;
mod letters;
mod near_column;
mod no_place;
mod parser;
mod parser_state;
mod place_columns;
mod place_reader;
mod place_remark;
mod places;
mod places_fault;
mod record_flaw;
mod remark;
mod row_field;
mod separator;
mod set;
mod settings;
mod span;
mod start;
mod stream;
mod table;
mod tally;
mod territory_finder;

pub use added_column::AddedColumn;
pub use columns::{ColumnNames, Columns, DateColumns, DateNames, WeekdayName, find_columns};
pub use fault::{Column, LettersFault};
pub use letter::{LetterFields, row_fields};
pub use no_place::NoPlace;
pub use place_reader::read_places;
pub use places::Places;
pub use places_fault::{PlacesColumn, PlacesFault};
pub use record_flaw::RecordFlaw;
pub use remark::Remark;
pub use separator::Separator;
pub use settings::TableSettings;
pub use stream::write_letters;
pub use tally::Tally;
pub use territory_finder::TerritoryFinder;
