//! Territories on the line of days: the year a territory counts by, the label of a day under its
//! regime, and the periods of its regimes. What the crate promises to those above is a `Territory`,
//! a map of starts that reads labels as days and finds the Easters of a year. For one regime there
//! are `label_of`, `day_of_label`, `dated_day` and `dual_text`. A style's word is beside the style.
#![tactic(auto)]

mod candidate_table;
mod candidates;
mod dating;
mod dual;
mod easters;
mod fault;
mod label;
mod label_days;
mod label_order;
mod label_search;
mod month_day;
mod period;
mod period_list;
mod reading;
mod regime;
mod runs;
mod style;
mod style_year;
mod territory;

pub use dating::{DatedDay, DatedYears, dated_day};
pub use dual::dual_text;
pub use fault::LandFault;
pub use label::{Label, day_of_label, label_of};
pub use period::Period;
pub use regime::Regime;
pub use runs::Run;
pub use style::Style;
pub use territory::Territory;
