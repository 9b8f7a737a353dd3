//! The first and the last day that a letter's date may mean.
ghost use Rattle.std.specs.Prelude.{◌≡◌};
ghost use Rattle.osn_letters.specs.Span as spec;

use osn_days::Day;
use osn_territory::{DatedDay, Run};
use osn_written::{Extent, first_of, last_of};

/// The first and the last day that a date may mean. A bound has one of them, and a date that means
/// no day has none.
#[derive(Clone, Copy, Debug)]
pub(crate) struct Span {
    pub(crate) earliest: Option<Day>,
    pub(crate) latest: Option<Day>,
}

/// The span of no day.
pub(crate) const NO_SPAN: Span = Span {
    earliest: None,
    latest: None,
};

/// Returns the earliest of days.
fn earliest(days: &[DatedDay]) -> Option<Day>
    ensures { result ≡ spec.earliest days.now }
{
    days.iter().map(|day| day.day).min()
}

/// Returns the latest of days.
fn latest(days: &[DatedDay]) -> Option<Day>
    ensures { result ≡ spec.latest days.now }
{
    days.iter().map(|day| day.day).max()
}

/// Returns the span of days in any order.
pub(crate) fn span_of_days(days: &[DatedDay]) -> Span
    ensures { result ≡ spec.span_of_days days.now }
{
    Span {
        earliest: earliest(days),
        latest: latest(days),
    }
}

/// Returns the span of the runs of a set, in order.
pub(crate) fn span_of_set(runs: &[Run]) -> Span
    ensures { result ≡ spec.span_of_set runs.now }
{
    Span {
        earliest: first_of(runs),
        latest: last_of(runs),
    }
}

/// Returns the span of the runs of what is written, in order. A bound is open at one end.
pub(crate) fn span_of_runs(extent: Extent, runs: &[Run]) -> Span
    ensures { result ≡ spec.span_of_runs extent runs.now }
{
    let span = Span {
        earliest: first_of(runs),
        latest: last_of(runs),
    };
    match extent {
        Extent::Before(_) | Extent::NotAfter(_) => Span {
            earliest: None,
            ..span
        },
        Extent::After(_) | Extent::NotBefore(_) => Span {
            latest: None,
            ..span
        },
        Extent::On(_)
        | Extent::FromTo(_, _)
        | Extent::DaysOfYear { .. }
        | Extent::Part(_, _)
        | Extent::Feast { .. } => span,
    }
}
