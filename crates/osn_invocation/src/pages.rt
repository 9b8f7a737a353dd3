//! Which page a command prints, by its arguments.

ghost use Rattle.std.specs.Prelude.{◌≡◌};
ghost use Rattle.clap.specs.Words.{found_of, rows_of};
ghost use Rattle.osn_invocation.specs.Invocation.{almanac_page, command_model, day_page};
ghost use Rattle.osn_invocation.specs.Invocation.{month_page, page_command, page_request};
ghost use Rattle.osn_invocation.specs.Invocation.{read_page, territory_page, year_page};

use crate::invocation::{CommandWords, PageRequest};
use crate::values::{is_given, number_of, text_of, value_of};
use clap::ArgMatches;

/// Returns what the arguments of a command that prints this page ask for.
pub(crate) fn page_of<'a>(matches: &ArgMatches<'a>, page: PageRequest<'a>) -> CommandWords<'a>
    ensures { command_model result
        ≡ page_command (rows_of (found_of matches.now)) (page_request page.entry) }
{
    CommandWords::Page {
        journal: text_of(matches, "journal"),
        edition: value_of(matches, "edition"),
        page,
    }
}

/// Returns which page the arguments of `almanac` ask for.
pub(crate) fn almanac_of<'a>(matches: &ArgMatches<'a>) -> PageRequest<'a>
    ensures { page_request result ≡ almanac_page (rows_of (found_of matches.now)) }
{
    PageRequest::Almanac {
        code: text_of(matches, "code"),
        year: number_of(matches, "year", 0),
    }
}

/// Returns which page the arguments of `read` ask for.
pub(crate) fn read_of<'a>(matches: &ArgMatches<'a>) -> PageRequest<'a>
    ensures { page_request result ≡ read_page (rows_of (found_of matches.now)) }
{
    PageRequest::Read {
        code: text_of(matches, "code"),
        date: text_of(matches, "date"),
        weekday: value_of(matches, "weekday"),
        order: value_of(matches, "order"),
        strict: is_given(matches, "strict"),
        json: is_given(matches, "json"),
    }
}

/// Returns which page the arguments of `day` ask for.
pub(crate) fn day_of<'a>(matches: &ArgMatches<'a>) -> PageRequest<'a>
    ensures { page_request result ≡ day_page (rows_of (found_of matches.now)) }
{
    PageRequest::Day {
        code: text_of(matches, "code"),
        date: text_of(matches, "date"),
        json: is_given(matches, "json"),
    }
}

/// Returns which page the arguments of `month` ask for.
pub(crate) fn month_of<'a>(matches: &ArgMatches<'a>) -> PageRequest<'a>
    ensures { page_request result ≡ month_page (rows_of (found_of matches.now)) }
{
    PageRequest::Month {
        code: text_of(matches, "code"),
        year: text_of(matches, "year"),
        month: text_of(matches, "month"),
        json: is_given(matches, "json"),
    }
}

/// Returns which page the arguments of `year` ask for.
pub(crate) fn year_of<'a>(matches: &ArgMatches<'a>) -> PageRequest<'a>
    ensures { page_request result ≡ year_page (rows_of (found_of matches.now)) }
{
    PageRequest::Year {
        code: text_of(matches, "code"),
        year: text_of(matches, "year"),
        json: is_given(matches, "json"),
    }
}

/// Returns which page the arguments of `territory` ask for.
pub(crate) fn territory_of<'a>(matches: &ArgMatches<'a>) -> PageRequest<'a>
    ensures { page_request result ≡ territory_page (rows_of (found_of matches.now)) }
{
    PageRequest::Territory {
        code: value_of(matches, "code"),
        json: is_given(matches, "json"),
    }
}
