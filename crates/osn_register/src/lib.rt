//! The register of territories: edits with their refusals, queries with their answers. What the
//! crate promises to those above: `check` is the first refusal that applies, and `apply` has the
//! edit's effect on a plain list of territories. A refusal changes nothing. `answer` is the
//! definition's answer, and is a refusal exactly if the definition refuses.
#![tactic(auto)]

mod answer;
mod borrowed_query;
mod change;
mod change_answer;
mod code;
mod edit;
mod edit_checks;
mod figures;
mod limits;
mod numbers;
mod query;
mod query_fault;
mod refusal;
mod register;
mod remarks;
mod source;
mod sources;
mod territory_answer;
mod text;
mod written_answer;

pub use answer::{
    Answer, ChangeList, DayList, Exception, ExceptionList, FeastList, Found, FoundChange,
    FoundFeast, FoundList, FoundRun, Land, LandList, PeriodAndSource, PeriodList, Reason, RunList,
    WrittenAnswer,
};
pub use borrowed_query::BorrowedQuery;
pub use edit::Edit;
pub use limits::Limits;
pub use osn_written::Listing;
pub use query::Query;
pub use refusal::Refusal;
pub use register::Register;
pub use remarks::{DateRemarks, NearDays, TextList};
pub use source::Source;
pub use text::Text;
