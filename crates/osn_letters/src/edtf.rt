//! Days as ISO 8601-2 writes them, its Extended Date/Time Format.
ghost use Rattle.std.specs.Prelude.{◌≡◌, IfOk, Some, string_bytes};
ghost use Rattle.std.specs.List.{join_by};
ghost use Rattle.osn_letters.specs.Edtf as spec;

use crate::date_text::DateText;
use crate::span::Span;
use itertools::Itertools;
use osn_days::{Calendar, Day, date_of};
use osn_territory::{DatedDay, Run};
use osn_written::AnyDate;
use std::alloc::{AllocError, Global};
use std::fmt;

/// Returns the sign after each day: whether it is in doubt, about then, or both.
pub(crate) fn sign_of(is_uncertain: bool, is_approximate: bool) -> &'static str
    ensures { result.now ≡ spec.sign_of is_uncertain is_approximate }
{
    match (is_uncertain, is_approximate) {
        (true, true) => "%",
        (true, false) => "?",
        (false, true) => "~",
        (false, false) => "",
    }
}

/// Returns the sign after each day of a date.
pub(crate) fn sign(date: AnyDate) -> &'static str
    ensures { result.now ≡ spec.sign date }
{
    sign_of(date.is_uncertain, date.is_approximate)
}

/// A day with a sign after it.
#[derive(Clone, Copy)]
struct SignedDay {
    day: Day,
    sign: &'static str,
}

impl fmt::Display for SignedDay {
    ghost output = { λ x. Some (spec.edtf_day x.sign.now x.day) };

    fn fmt<W: fmt::Write>(&self, f: &mut fmt::Formatter<W>) -> fmt::Result {
        let date = DateText(date_of(Calendar::Gregorian, self.day));
        write!(f, "{date}{}", self.sign)
    }
}

/// Days that follow one another, with a sign after the first and the last, and a text between.
#[derive(Clone, Copy)]
struct SignedRun {
    run: Run,
    between: &'static str,
    sign: &'static str,
}

impl fmt::Display for SignedRun {
    ghost output = { λ x. Some (spec.edtf_run x.between.now x.sign.now x.run) };

    fn fmt<W: fmt::Write>(&self, f: &mut fmt::Formatter<W>) -> fmt::Result {
        let sign = self.sign;
        let first = SignedDay {
            day: self.run.first,
            sign,
        };
        let last = SignedDay {
            day: self.run.last,
            sign,
        };
        if self.run.first == self.run.last {
            write!(f, "{first}")
        } else {
            write!(f, "{first}{}{last}", self.between)
        }
    }
}

/// Returns the days, with a comma between two.
fn days_joined(alloc: Global, sign: &'static str, days: &[DatedDay]) -> Result<String, AllocError>
    ensures { IfOk result (λ s. string_bytes s ≡ spec.days_joined sign.now days.now) }
{
    days.iter()
        .map(|day| SignedDay { day: day.day, sign })
        .join(alloc, ",")
}

/// Returns the days of one label: one day, or the set of several.
pub(crate) fn edtf_of_days(
    alloc: Global,
    sign: &'static str,
    days: &[DatedDay],
) -> Result<String, AllocError>
    ensures { IfOk result (λ s. string_bytes s ≡ spec.edtf_of_days sign.now days.now) }
{
    let dates = days_joined(alloc, sign, days)?;
    if days.len() < 2 {
        return Ok(dates);
    }
    format!(in alloc; "[{dates}]")
}

/// Returns the runs, with that text between the first and the last day of each, and a comma between
/// two.
fn runs_joined(
    alloc: Global,
    between: &'static str,
    sign: &'static str,
    runs: &[Run],
) -> Result<String, AllocError>
    ensures { IfOk result (λ s. string_bytes s ≡ spec.runs_joined between.now sign.now runs.now) }
{
    runs.iter()
        .map(|run| SignedRun {
            run: *run,
            between,
            sign,
        })
        .join(alloc, ",")
}

/// Returns the runs of a date: one run, or the set of several.
pub(crate) fn edtf_of_runs(
    alloc: Global,
    sign: &'static str,
    runs: &[Run],
) -> Result<String, AllocError>
    ensures { IfOk result (λ s. string_bytes s ≡ spec.edtf_of_runs sign.now runs.now) }
{
    match runs {
        [] => Ok(String::new(alloc)),
        [run] => {
            let between = "/";
            let run = SignedRun {
                run: *run,
                between,
                sign,
            };
            format!(in alloc; "{run}")
        }
        _ => {
            let runs = runs_joined(alloc, "..", sign, runs)?;
            format!(in alloc; "[{runs}]")
        }
    }
}

/// Returns the days of a date that is not one day: a bound is open at one end.
pub(crate) fn edtf_of_span(
    alloc: Global,
    sign: &'static str,
    span: Span,
    runs: &[Run],
) -> Result<String, AllocError>
    ensures { IfOk result (λ s. string_bytes s ≡ spec.edtf_of_span sign.now span runs.now) }
{
    match (span.earliest, span.latest) {
        (None, Some(day)) => {
            let latest = SignedDay { day, sign };
            format!(in alloc; "../{latest}")
        }
        (Some(day), None) => {
            let earliest = SignedDay { day, sign };
            format!(in alloc; "{earliest}/..")
        }
        _ => edtf_of_runs(alloc, sign, runs),
    }
}
