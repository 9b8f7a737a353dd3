//! The public names of territories, for callers that know this crate as `osn_lands`. It has no
//! code of its own, and no crate of the program uses it.
#![tactic(auto)]

pub use osn_territory::{
    DatedDay, DatedYears, Label, LandFault, Period, Regime, Run, Style, Territory, dated_day,
    day_of_label, dual_text, label_of,
};
